// Walks from root to root on the tables of a board, by a list of offers.
#![tactic(auto)]

ghost use Rattle.std.specs.Prelude.{◌≡◌, ℕ, ◌+◌, ◌<◌, ◌≢◌, [], ◌∷◌, if◌then◌else◌, Some, None, ◌==◌, false};
ghost use Rattle.matching.specs.State.{yz, weight, first_of, second_of, root_at};
ghost use Rattle.paths.specs.Walk.{is_root, across, leaves, may_go, walk};
ghost use Rattle.tables.specs.States.{state};
ghost use Rattle.walks.specs.Coming.{comes, walked};

use faults::layers::BoardFault;
use tables::node::Node;
use tables::view::View;

// Whether a node is a root: a member that is its own root, or a blossom that is the root of an end of its ring offer.
pub fn is_root(view: View<'_>, node: usize) -> bool
    ensures { result ≡ is_root (state view.entry.tables.now) node }
{
    let tables = view.tables;
    match Node::from(node) {
        Node::Member(own) => own < tables.members && tables.roots[own] as usize == own,
        Node::Blossom(at) => match view.blossom(at) {
            Some(blossom) => {
                let first = view.row(blossom.links[0].join as usize).first;
                tables.roots[first as usize] as usize == node
            }
            None => false,
        },
    }
}

// The roots of the two members of an offer.
fn end_roots(view: View<'_>, offer: usize) -> (u16, u16)
    ensures first { result.0 ≡ root_at (state view.entry.tables.now) (first_of (state view.entry.tables.now) offer) }
    ensures second { result.1 ≡ root_at (state view.entry.tables.now) (second_of (state view.entry.tables.now) offer) }
{
    let row = view.row(offer);
    let roots = &view.tables.roots;
    (roots[row.first as usize], roots[row.second as usize])
}

// Whether a paired offer between two roots has yz = W, or an unpaired one yz = W - 2. No blossom holds both its members.
// Asked here alone, and of an offer that is there. Widened by casts, as where the theorems are.
fn is_tight(view: View<'_>, offer: usize, paired: bool) -> bool
    requires known { offer < view.tables.now.offers }
    requires apart { root_at (state view.tables.now) (first_of (state view.tables.now) offer) ≢ root_at (state view.tables.now) (second_of (state view.tables.now) offer) }
    ensures { result ≡ (yz (state view.entry.tables.now) offer + (if paired then 0 else 2) == weight (state view.entry.tables.now) offer) }
{
    let tables = view.tables;
    let row = view.row(offer);
    let weight = 2 * tables.begun.unwrap_or(0) as u64 * row.shown as u64;
    let yz = tables.prices[row.first as usize] as u64 + tables.prices[row.second as usize] as u64;
    let short = if paired { 0 } else { 2 };
    yz + short == weight
}

// Whether an offer has one end in a root and the other in another.
fn leaves(view: View<'_>, offer: usize, root: usize) -> bool
    ensures { result ≡ leaves (state view.entry.tables.now) offer root }
{
    let (first, second) = end_roots(view, offer);
    (first as usize == root) != (second as usize == root)
}

// The root that an offer leads to from a root. An offer that is not there reads as one from member 0 to itself.
pub fn across(view: View<'_>, offer: usize, root: usize) -> u16
    ensures { result ≡ across (state view.entry.tables.now) offer root }
{
    let (first, second) = end_roots(view, offer);
    if first as usize == root {
        second
    } else {
        first
    }
}

// The root that a walk goes on to by an offer, if it may go by it: by a paired offer if it is the turn of one.
fn next_root(view: View<'_>, turn: bool, root: usize, offer: usize) -> Option<usize>
    ensures value { result ≡ (if may_go (state view.entry.tables.now) turn root offer then Some (across (state view.entry.tables.now) offer root) else None) }
    ensures low { (q : ℕ) → result ≡ Some q → q < 300 }
{
    if offer >= view.tables.offers || !leaves(view, offer, root) {
        return None;
    }
    let paired = view.is_paired(offer);
    if paired != turn || !is_tight(view, offer, paired) {
        return None;
    }
    Some(across(view, offer, root) as usize)
}

// Whether a walk may come to a root: to one not used yet, but at the end of a walk back to the first root only to that.
fn may_come(back: Option<usize>, last: bool, used: bool, root: usize) -> bool
    ensures { result ≡ comes back last used root }
{
    match back {
        Some(first) if last => root == first,
        _ => !used,
    }
}

// The root that a walk comes to by these offers, from a root by turns by an unpaired and a paired one, unless it may not go
// by one of them. The last offer has to lead to `back`, if that is given. Root and list stand apart, as a caller hands them.
pub fn follow(
    view: View<'_>,
    back: Option<usize>,
    root: usize,
    offers: &[u16],
) -> Result<usize, BoardFault>
    ensures { result ≡ walked (walk (state view.entry.tables.now) back false (root ∷ []) 0 root offers.now) }
{
    let mut used = [false; 300];
    // A root of 300 or more has no place here; its first offer is refused.
    if root < 300 {
        used[root] = true;
    }
    let mut at = root;
    let mut turn = false;
    // By position, up to the first offender.
    for (i, offer) in offers.iter().enumerate() {
        let next = next_root(view, turn, at, *offer as usize).ok_or(BoardFault::BadOffer(i))?;
        if !may_come(back, i + 1 == offers.len(), used[next], next) {
            return Err(BoardFault::BadOffer(i));
        }
        used[next] = true;
        at = next;
        turn = !turn;
    }
    Ok(at)
}
