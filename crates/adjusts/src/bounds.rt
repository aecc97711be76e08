// What an adjust does to the prices of blossoms and offers, before it is made.
ghost use Rattle.std.specs.Prelude.{◌≡◌, ℕ, ◌+◌, ◌<◌, ◌≤◌, not, ◌&&◌, ◌||◌, List, Some, None, ◌==◌, nat_le};
ghost use Rattle.faults.specs.Checks.{judged};
ghost use Rattle.matching.specs.State.{price_at};
ghost use Rattle.steps.specs.Adjust.{label_at, moved, label_fault, zero_fault, in_bounds, adjusted, bound_fault};
ghost use Rattle.tables.specs.States.{blossom_of, state};
ghost use Rattle.adjusts.specs.Labels.{RootLabels};

use crate::labels::Labelling;
use faults::layers::BoardFault;
use steps::label::Label;
use steps::moved_price;
use tables::tables::{Blossom, Tables};

// Whether yz lies under W - 2, or above W where the offer is paired. Widened by casts, as where the theorems are.
fn is_outside(weight: u32, yz: u64, paired: bool) -> bool
    requires { yz ≤ 256002 }
    ensures { result ≡ not (nat_le weight (yz + 2) && (not paired || nat_le yz weight)) }
{
    weight as u64 > yz + 2 || (paired && yz > weight as u64)
}

// Whether a blossom with this label would lose 2 from a price of 0.
fn falls_short(place: &Option<Blossom>, label: u8) -> bool
    ensures { result ≡ ((blossom_of place.now).used && (label == 2 && (blossom_of place.now).price == 0)) }
{
    place.as_ref().is_some_and(|blossom| Label::try_from(label) == Ok(Label::In)
        && blossom.price == 0)
}

// An in root blossom cannot lose 2 from a price of 0.
pub(crate) fn check_zero(tables: &Tables, common: &[u8; 300]) -> Result<(), BoardFault>
    ensures { (ls : List ℕ) → RootLabels (state tables.now) ls common.now → result ≡ judged (zero_fault (state tables.now) ls) }
{
    // By place, up to the first offender.
    for (i, place) in tables.blossoms.iter().enumerate() {
        if falls_short(place, common[200 + i]) {
            return Err(BoardFault::InAtZero(200 + i));
        }
    }
    Ok(())
}

impl Labelling<'_> {
    // The price of a member after the adjust.
    fn price_after(self, member: usize) -> u64
        requires { member < self.view.tables.now.members }
        ensures { result ≡ moved (label_at self.entry.labels.now member) (price_at (state self.entry.view.tables.now) member) }
    {
        moved_price(self.labels[member], self.view.tables.prices[member])
    }

    // Whether an offer leaves its bounds by the adjust.
    fn leaves_bounds(self, k: u32, offer: usize) -> bool
        requires begun { self.view.tables.now.begun ≡ Some k }
        requires above { 1 ≤ self.view.tables.now.floor }
        requires labelled { label_fault (state self.view.tables.now) self.labels.now ≡ None }
        requires priced { zero_fault (state self.view.tables.now) self.labels.now ≡ None }
        requires there { offer < self.view.tables.now.offers }
        ensures { result ≡ not (in_bounds (adjusted (state self.entry.view.tables.now) self.entry.labels.now) offer) }
    {
        let tables = self.view.tables;
        let row = tables.rows[offer];
        let first = row.first as usize;
        let second = row.second as usize;
        if tables.roots[first] == tables.roots[second] {
            return false;
        }
        let weight = 2 * k * row.shown;
        let yz = self.price_after(first) + self.price_after(second);
        is_outside(weight, yz, self.view.is_paired(offer))
    }

    // An offer inside one root keeps its yz, and one between two roots lies in no blossom: so this looks at the latter, and at the prices of their members alone.
    pub(crate) fn check_bounds(self, k: u32) -> Result<(), BoardFault>
        requires begun { self.view.tables.now.begun ≡ Some k }
        requires above { 1 ≤ self.view.tables.now.floor }
        requires labelled { label_fault (state self.view.tables.now) self.labels.now ≡ None }
        requires priced { zero_fault (state self.view.tables.now) self.labels.now ≡ None }
        ensures { result ≡ judged (bound_fault (state self.entry.view.tables.now) self.entry.labels.now) }
    {
        // By number, up to the first offender.
        for e in 0..self.view.tables.offers {
            if self.leaves_bounds(k, e) {
                return Err(BoardFault::OutOfBounds(e));
            }
        }
        Ok(())
    }
}
