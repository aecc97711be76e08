// When an augment is a step: a check that only reads.
ghost use Rattle.std.specs.Prelude.{◌≡◌, ℕ, ◌&&◌, ◌==◌, is_none, Option};
ghost use Rattle.std.specs.List.{list_any, zip};
ghost use Rattle.faults.specs.Checks.{judged, unless};
ghost use Rattle.faults.specs.declared.layers.BoardFault.TheVariants.{NotLoose};
ghost use Rattle.paths.specs.Walk.{is_loose};
ghost use Rattle.paths.specs.Augment.{augment_fault};
ghost use Rattle.tables.specs.States.{state};

use faults::layers::BoardFault;
use tables::view::View;
use walks::{follow, is_root};

// Whether one of these members lies in the root and has no mate.
fn any_free(roots: &[u16], mates: &[Option<u16>], root: usize) -> bool
    ensures { result ≡ list_any (λ (m : ℕ × Option ℕ). m.0 == root && is_none m.1) (zip roots.now mates.now) }
{
    roots
        .iter()
        .zip(mates)
        .any(|(own, mate)| *own as usize == root && mate.is_none())
}

// Whether a root has a loose member.
fn is_loose(view: View<'_>, root: usize) -> bool
    ensures { result ≡ is_loose (state view.entry.tables.now) root }
{
    let tables = view.tables;
    let members = tables.members;
    any_free(&tables.roots[..members], &tables.mates[..members], root)
}

fn check_loose(view: View<'_>, root: usize) -> Result<(), BoardFault>
    ensures { result ≡ judged (unless (is_loose (state view.entry.tables.now) root) (NotLoose root)) }
{
    if !is_loose(view, root) {
        return Err(BoardFault::NotLoose(root));
    }
    Ok(())
}

// From the first test on as the refusals read, in their order.
pub(crate) fn check_augment(view: View<'_>, root: usize, offers: &[u16]) -> Result<(), BoardFault>
    ensures { result ≡ judged (augment_fault (state view.entry.tables.now) root offers.now) }
{
    if view.tables.begun.is_none() {
        return Err(BoardFault::NotBegun);
    }
    if !is_root(view, root) {
        return Err(BoardFault::NotRoot(root));
    }
    if offers.len() % 2 == 0 {
        return Err(BoardFault::WrongCount(offers.len()));
    }
    let last = follow(view, None, root, offers)?;
    check_loose(view, root)?;
    check_loose(view, last)
}
