// When a dissolve is a step, and the roots after it.
ghost use Rattle.std.specs.Prelude.{◌≡◌, ◌<◌, ◌≤◌, find};
ghost use Rattle.faults.specs.Checks.{judged};
ghost use Rattle.matching.specs.State.{node_holds};
ghost use Rattle.rings.specs.Dissolve.{dissolve_fault, dissolved, holder};
ghost use Rattle.tables.specs.States.{parts_in, state};

use faults::layers::BoardFault;
use tables::node::Node;
use tables::tables::Link;
use tables::view::View;
use walks::is_root;

pub(crate) fn check_dissolve(view: View<'_>, node: usize) -> Result<(), BoardFault>
    ensures { result ≡ judged (dissolve_fault (state view.entry.tables.now) node) }
{
    if view.tables.begun.is_none() {
        return Err(BoardFault::NotBegun);
    }
    let Node::Blossom(at) = Node::from(node) else {
        return Err(BoardFault::NotRoot(node));
    };
    if !is_root(view, node) {
        return Err(BoardFault::NotRoot(node));
    }
    if view.blossom(at).is_some_and(|blossom| blossom.price != 0) {
        return Err(BoardFault::Priced(node));
    }
    Ok(())
}

fn first_holding(view: View<'_>, ring: &[Link], member: usize) -> Option<u16>
    ensures { result ≡ find (λ part. node_holds (state view.entry.tables.now) part member) (parts_in ring.now) }
{
    ring.iter()
        .map(|link| link.part)
        .find(|part| view.holds(*part as usize, member))
}

// The first part of a ring that holds the member.
fn holder(view: View<'_>, ring: &[Link], member: usize) -> u16
    requires { member < 200 }
    ensures { result ≡ holder (state view.entry.tables.now) (parts_in ring.now) member }
{
    first_holding(view, ring, member).unwrap_or(member as u16)
}

// The root of each member, once the blossom's parts are roots.
pub(crate) fn roots_of_parts(view: View<'_>, node: usize) -> [u16; 200]
    requires { 200 ≤ node }
    ensures { result ≡ (dissolved (state view.entry.tables.now) node).roots }
{
    // A loop over the members that are there, as where a blossom is made.
    let ring = view.ring(node - 200);
    let mut roots = view.tables.roots;
    for v in 0..view.tables.members {
        if roots[v] as usize == node {
            roots[v] = holder(view, ring, v);
        }
    }
    roots
}
