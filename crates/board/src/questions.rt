// The questions, read off the tables.
ghost use Rattle.std.specs.Prelude.{◌≡◌, ℕ, ◌+◌, ◌%◌, ◌^◌, ◌<◌, ◌≤◌, cond, count_by, if◌then◌else◌, is_none, None, nat_lt, slice_index_or};
ghost use Rattle.board.specs.Savings.{saving_in, saved};
ghost use Rattle.board.specs.Questions.{of_member, partner_of, loose_of, gap};

use crate::saving::Saving;
use faults::layers::BoardFault;
use matching::row::Row;
use matching::theorems::most_gap;
use std::array;
use tables::tables::Tables;
use tables::view::View;

impl Saving {
    pub(crate) fn of(self, row: Row) -> u32
        ensures { result ≡ saving_in self row }
    {
        match self {
            Saving::Shown => row.shown,
            Saving::Ground => row.ground,
        }
    }
}

// What the pairing saves.
pub(crate) fn saved(view: View<'_>, saving: Saving) -> u64
    ensures { result ≡ saved saving view.entry.tables.now }
{
    // A loop: at the end of a chain the bound of the sum finds no proof.
    let mut sum = 0;
    for e in 0..view.tables.offers {
        if view.is_paired(e) {
            sum += u64::from(saving.of(view.row(e)));
        }
    }
    sum
}

// The member that a member is paired with.
pub(crate) fn partner(view: View<'_>, member: usize) -> Option<u32>
    requires { member < view.tables.now.members }
    ensures { result ≡ partner_of view.entry.tables.now member }
{
    let mate = view.tables.mates[member]?;
    let row = view.row(mate as usize);
    if row.first as usize == member {
        Some(row.second)
    } else {
        Some(row.first)
    }
}

// The same, and nothing of a member that is not there.
fn partner_if(view: View<'_>, member: usize) -> Option<u32>
    ensures { result ≡ (if nat_lt member view.entry.tables.now.members then partner_of view.entry.tables.now member else None) }
{
    if member < view.tables.members {
        partner(view, member)
    } else {
        None
    }
}

// The partner of each member, and nothing past the last.
pub(crate) fn partners(view: View<'_>) -> [Option<u32>; 200]
    ensures { (v : ℕ) → v < 200 → slice_index_or result v None ≡ (if nat_lt v view.entry.tables.now.members then partner_of view.entry.tables.now v else None) }
{
    array::from_fn(|member| partner_if(view, member))
}

// Whether there is such a member.
pub(crate) fn check_member(tables: &Tables, member: usize) -> Result<(), BoardFault>
    ensures { result ≡ of_member tables.now member tt }
{
    if member >= tables.members {
        return Err(BoardFault::NoMember(member));
    }
    Ok(())
}

// One more, if the member has no mate. It never wraps: there are no more members than that.
fn counted(count: usize, mate: Option<u16>) -> usize
    ensures { result ≡ (count + cond (is_none mate) 1 0) % 2 ^ 64 }
{
    count.wrapping_add(usize::from(mate.is_none()))
}

fn count_none(mates: &[Option<u16>]) -> usize
    ensures { result ≡ count_by is_none mates.now }
{
    mates.iter().fold(0, |count, mate| counted(count, *mate))
}

// How many members are loose.
pub(crate) fn loose(view: View<'_>) -> usize
    ensures value { result ≡ loose_of view.entry.tables.now }
    ensures bound { result ≤ view.entry.tables.now.members }
{
    count_none(&view.tables.mates[..view.tables.members])
}

// By how much any pairing can show more than this one.
pub(crate) fn gap(view: View<'_>) -> u64
    ensures { result ≡ gap view.entry.tables.now }
{
    let tables = view.tables;
    // Before begin the floor is 0, and nobody is counted.
    let free = if tables.begun.is_some() {
        loose(view) as u32
    } else {
        0
    };
    most_gap(
        tables.begun,
        tables.members as u32,
        tables.top,
        tables.floor,
        free,
    )
}
