// The fault of any layer, and how a layer's own fault becomes one, unchanged, where `?` passes it up.
ghost use Rattle.std.specs.Prelude.{◌≡◌};
ghost use Rattle.faults.specs.declared.fault.Fault.{Fault as Whole};
ghost use Rattle.faults.specs.declared.fault.Fault.TheVariants.{Sheet, Source, Board, Stack};

use crate::layers::{BoardFault, SheetFault, SourceFault, StackFault};

#[derive(Clone, Copy, PartialEq, Eq, Debug)]
pub enum Fault {
    Sheet(SheetFault),
    Source(SourceFault),
    Board(BoardFault),
    Stack(StackFault),
}

impl From<SheetFault> for Fault {
    ghost from_gives = { λ f r. r ≡ Sheet f };

    fn from(fault: SheetFault) -> Fault {
        Fault::Sheet(fault)
    }
}

impl From<SourceFault> for Fault {
    ghost from_gives = { λ f r. r ≡ Source f };

    fn from(fault: SourceFault) -> Fault {
        Fault::Source(fault)
    }
}

impl From<BoardFault> for Fault {
    ghost from_gives = { λ f r. r ≡ Board f };

    fn from(fault: BoardFault) -> Fault {
        Fault::Board(fault)
    }
}

impl From<StackFault> for Fault {
    ghost from_gives = { λ f r. r ≡ Stack f };

    fn from(fault: StackFault) -> Fault {
        Fault::Stack(fault)
    }
}
