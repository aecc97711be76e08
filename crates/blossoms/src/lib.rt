// Shrink and dissolve on the tables of a board: when each is a step, and what it would write there.
#![tactic(auto)]

ghost use Rattle.tables.specs.States.{state};
ghost use Rattle.blossoms.specs.Steps.{Shrinks, Dissolves};

use crate::dissolving::{check_dissolve, roots_of_parts};
use crate::shrinking::{free_place, links_of, members_of, roots_under};
use faults::layers::BoardFault;
use tables::tables::Blossom;
use tables::view::View;

mod dissolving;
mod shrinking;

// The blossom that a shrink makes, where it stands, and the root of each member after it.
#[derive(Drop)]
pub struct Ring {
    pub place: usize,
    pub blossom: Blossom,
    // The whole column, as the board writes it.
    pub roots: [u16; 200],
}

// The ring of these offers from the root on, unless something stands against the step.
pub fn ring_of(view: View<'_>, root: usize, offers: &[u16]) -> Result<Ring, BoardFault>
    ensures { Shrinks (state view.entry.tables.now) root offers.now result }
{
    let place = free_place(view, root, offers)?;
    let (links, marks) = links_of(view, root, offers);
    let holds = members_of(view, &marks);
    let roots = roots_under(view, &holds, 200 + place as u16);
    let blossom = Blossom {
        price: 0,
        len: offers.len(),
        links,
        holds,
    };
    Ok(Ring {
        place,
        blossom,
        roots,
    })
}

// The root of each member after the dissolve of a blossom, unless something stands against the step.
pub fn roots_after(view: View<'_>, node: usize) -> Result<[u16; 200], BoardFault>
    ensures { Dissolves (state view.entry.tables.now) node result }
{
    check_dissolve(view, node)?;
    Ok(roots_of_parts(view, node))
}
