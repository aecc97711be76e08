// When a shrink is a step, and the tables of the blossom that it makes.
ghost use Rattle.std.specs.Prelude.{◌≡◌, ℕ, ◌<◌, ◌≤◌, false, ◌&&◌, map, length, get_or, take, if◌then◌else◌, is_none, None, nat_lt, slice_index_or};
ghost use Rattle.std.specs.List.{position};
ghost use Rattle.matching.specs.State.{root_at};
ghost use Rattle.matching.specs.Sums.{below};
ghost use Rattle.steps.specs.Searches.{first_below};
ghost use Rattle.rings.specs.Shrink.{is_free, shrink_fault, passed};
ghost use Rattle.tables.specs.States.{parts_in, joins_in, state};
ghost use Rattle.blossoms.specs.Steps.{Marks, Places};

use faults::layers::BoardFault;
use std::array;
use tables::tables::{Blossom, Link};
use tables::view::View;
use walks::{across, follow, is_root};

fn first_none(places: &[Option<Blossom>; 100]) -> Option<usize>
    ensures { result ≡ position is_none places.now }
{
    places.iter().position(Option::is_none)
}

// The lowest place at which no blossom is.
fn lowest_free(view: View<'_>) -> Option<usize>
    ensures { result ≡ first_below (is_free (state view.entry.tables.now)) 100 }
{
    first_none(&view.tables.blossoms)
}

// A place for the blossom of a shrink, unless something stands against the step: from the first test on as the refusals read.
pub(crate) fn free_place(view: View<'_>, root: usize, offers: &[u16]) -> Result<usize, BoardFault>
    ensures { Places (state view.entry.tables.now) root offers.now result }
{
    if view.tables.begun.is_none() {
        return Err(BoardFault::NotBegun);
    }
    if !is_root(view, root) {
        return Err(BoardFault::NotRoot(root));
    }
    if offers.len() % 2 == 0 || offers.len() < 3 {
        return Err(BoardFault::WrongCount(offers.len()));
    }
    follow(view, Some(root), root, offers)?;
    lowest_free(view).ok_or(BoardFault::NoNumber)
}

// The roots that the offers of a shrink leave, each with its offer, in order, and for each node whether it is one of them.
pub(crate) fn links_of(view: View<'_>, root: usize, offers: &[u16]) -> ([Link; 200], [bool; 300])
    requires { shrink_fault (state view.tables.now) root offers.now ≡ None }
    ensures parts { parts_in (take (length offers.now) result.0) ≡ passed (state view.entry.tables.now) root offers.now }
    ensures joins { joins_in (take (length offers.now) result.0) ≡ offers.now }
    ensures marks { Marks result.1 (passed (state view.entry.tables.now) root offers.now) }
{
    let mut links = [Link { part: 0, join: 0 }; 200];
    let mut marks = [false; 300];
    let mut part = root as u16;
    // A loop: each offer is taken from the root that the one before led to.
    for (i, join) in offers.iter().enumerate() {
        links[i] = Link { part, join: *join };
        marks[part as usize] = true;
        part = across(view, *join as usize, part as usize);
    }
    (links, marks)
}

// The members whose root is marked.
pub(crate) fn members_of(view: View<'_>, marks: &[bool; 300]) -> [bool; 200]
    ensures { result ≡ map (λ (v : ℕ). nat_lt v view.entry.tables.now.members && slice_index_or marks.now (root_at (state view.entry.tables.now) v) false) (below 200) }
{
    // A loop over the members that are there: with all 200 places made by `from_fn`, a step on a small board takes twice as long.
    let mut holds = [false; 200];
    for v in 0..view.tables.members {
        holds[v] = marks[view.tables.roots[v] as usize];
    }
    holds
}

// The root of each member, once a new one holds some of them.
pub(crate) fn roots_under(view: View<'_>, holds: &[bool; 200], root: u16) -> [u16; 200]
    ensures { result ≡ map (λ (v : ℕ). (if get_or holds.now v false then root else root_at (state view.entry.tables.now) v)) (below 200) }
{
    let roots = &view.tables.roots;
    array::from_fn(|member| if holds[member] { root } else { roots[member] })
}
