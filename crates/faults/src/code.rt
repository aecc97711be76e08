// A fault as three numbers: its layer, its number in the table of refusals, and its place.
ghost use Rattle.std.specs.Prelude.{◌≡◌, Some};
ghost use Rattle.faults.specs.Codes.{sheet_code, source_code, board_code, stack_code, code_of, numbers_text};

use crate::fault::Fault;
use crate::layers::{BoardFault, SheetFault, SourceFault, StackFault};
use std::fmt;

#[derive(Clone, Copy, PartialEq, Eq, Debug)]
pub struct Code {
    pub layer: u32,
    pub number: u32,
    pub place: usize,
}

impl From<SheetFault> for Code {
    ghost from_gives = { λ f r. r ≡ sheet_code f };

    fn from(fault: SheetFault) -> Code {
        let (number, place) = match fault {
            SheetFault::TooLong => (1, 0),
            SheetFault::BadForm(line) => (2, line),
            SheetFault::ShortBuffer(len) => (4, len),
        };
        Code {
            layer: 1,
            number,
            place,
        }
    }
}

impl From<SourceFault> for Code {
    ghost from_gives = { λ f r. r ≡ source_code f };

    fn from(fault: SourceFault) -> Code {
        let (number, place) = match fault {
            SourceFault::TooManyMembers(count) => (11, count),
            SourceFault::TooManyOffers(most) => (12, most),
            SourceFault::BadMember(offer) => (13, offer),
            SourceFault::HighSaving(offer) => (14, offer),
            SourceFault::BadStock(index) => (15, index),
            SourceFault::BadLength(member) => (16, member),
            SourceFault::WideCut(cut) => (17, cut as usize),
            SourceFault::BadRatio => (18, 0),
        };
        Code {
            layer: 2,
            number,
            place,
        }
    }
}

impl From<BoardFault> for Code {
    ghost from_gives = { λ f r. r ≡ board_code f };

    fn from(fault: BoardFault) -> Code {
        let (number, place) = match fault {
            BoardFault::NotBegun => (21, 0),
            BoardFault::AlreadyBegun => (22, 0),
            BoardFault::BadK(k) => (23, k as usize),
            BoardFault::HighTop(top) => (24, top as usize),
            BoardFault::NotRoot(node) => (25, node),
            BoardFault::WrongCount(count) => (26, count),
            BoardFault::BadOffer(position) => (27, position),
            BoardFault::NotLoose(root) => (28, root),
            BoardFault::NoNumber => (29, 0),
            BoardFault::BadLabels(place) => (30, place),
            BoardFault::FloorZero => (31, 0),
            BoardFault::InAtZero(node) => (32, node),
            BoardFault::OutOfBounds(offer) => (33, offer),
            BoardFault::Priced(node) => (34, node),
            BoardFault::NoMember(member) => (35, member),
        };
        Code {
            layer: 3,
            number,
            place,
        }
    }
}

impl From<StackFault> for Code {
    ghost from_gives = { λ f r. r ≡ stack_code f };

    fn from(fault: StackFault) -> Code {
        let StackFault::Full(slots) = fault;
        Code {
            layer: 4,
            number: 41,
            place: slots,
        }
    }
}

impl From<Fault> for Code {
    ghost from_gives = { λ f r. r ≡ code_of f };

    fn from(fault: Fault) -> Code {
        match fault {
            Fault::Sheet(fault) => Code::from(fault),
            Fault::Source(fault) => Code::from(fault),
            Fault::Board(fault) => Code::from(fault),
            Fault::Stack(fault) => Code::from(fault),
        }
    }
}

impl fmt::Display for Code {
    ghost output = { λ c. Some (numbers_text c) };

    fn fmt<W: fmt::Write>(&self, f: &mut fmt::Formatter<W>) -> fmt::Result {
        write!(f, "{} {} {}", self.layer, self.number, self.place)
    }
}
