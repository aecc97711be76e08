// When an adjust is a step: a check that only reads.
#![tactic(auto)]

ghost use Rattle.std.specs.Prelude.{◌≡◌};
ghost use Rattle.tables.specs.States.{state};
ghost use Rattle.adjusts.specs.Adjusts.{Judges};

use crate::bounds::check_zero;
use crate::labels::{Labelling, check_labels};
use faults::layers::BoardFault;
use tables::view::View;

mod bounds;
mod labels;

// The labels of the roots, unless something stands against the step.
pub fn check_adjust(view: View<'_>, labels: &[u8]) -> Result<[u8; 300], BoardFault>
    ensures { Judges (state view.entry.tables.now) labels.now result }
{
    let k = view.tables.begun.ok_or(BoardFault::NotBegun)?;
    check_labels(view, labels)?;
    if view.tables.floor == 0 {
        return Err(BoardFault::FloorZero);
    }
    let labelling = Labelling { view, labels };
    let common = labelling.root_labels();
    check_zero(view.tables, &common)?;
    labelling.check_bounds(k)?;
    Ok(common)
}
