// Augment on the tables of a board: when it is a step, and the mates after it.
#![tactic(auto)]

ghost use Rattle.tables.specs.States.{state};
ghost use Rattle.augments.specs.Steps.{Augments};

use crate::checking::check_augment;
use crate::laying::exchange;
use faults::layers::BoardFault;
use tables::view::View;

mod checking;
mod laying;

// The mates after the step, unless something stands against it. Its root and its list stand apart, as a caller gives them.
pub fn mates_after(
    view: View<'_>,
    root: usize,
    offers: &[u16],
) -> Result<[Option<u16>; 200], BoardFault>
    ensures { Augments (state view.entry.tables.now) root offers.now result }
{
    check_augment(view, root, offers)?;
    Ok(exchange(view, root, offers))
}
