// How far any pairing can pass the one that a state of a board holds.
ghost use Rattle.std.specs.Prelude.{◌≡◌, ◌-◌, ◌*◌, ◌/◌, length};
ghost use Rattle.matching.specs.State.{State, pairing_in, loose_in};
ghost use Rattle.matching.specs.Kept.{Kept};
ghost use Rattle.matching.specs.Slack.{reach};
ghost use Rattle.matching.specs.Theorems.{lead, WeakDuality, Gap, TrueSlack, Ratio, OwnPairing, OwnSize, PartsSmaller, OneRoot, OneBare, OwnInside, MostInside, KeptAtStart};

use crate::pairing::{most_pairs, most_shown};

// By how many ticks a pairing of so many offers can weigh more than the state's, in which so many members are free.
pub fn most_lead(members: u16, floor: u32, free: u16, offers: u16) -> u64
    ensures value { result ≡ lead members floor free offers }
    ensures duality { WeakDuality }
{
    let ends = 2 * offers as u64;
    ends + floor as u64 * (free as u64 + ends).saturating_sub(members as u64)
}

// By how much a pairing can show more than the state's. Over a source that keeps the law of carry, carry of it is a true slack.
pub fn most_gap(begun: Option<u32>, members: u32, top: u32, floor: u32, free: u32) -> u64
    ensures value { result ≡ reach begun members top floor free }
    ensures gap { Gap }
    ensures slack { TrueSlack }
{
    let most = most_shown(members, top);
    match begun {
        None => most,
        Some(k) => {
            let ticks = 2 * most_pairs(members) as u64 + floor as u64 * free as u64;
            most.min(ticks.checked_div(2 * k as u64).unwrap_or(0))
        }
    }
}

// At floor 0, or with no member free: what k - 1 times the shown saving of any pairing cannot pass, from what the state's shows.
pub fn most_by_ratio(k: u32, shown: u32) -> u64
    ensures value { result ≡ k * shown }
    ensures ratio { Ratio }
{
    k as u64 * shown as u64
}

// How many offers the state's pairing has.
pub fn own_pairs(members: u32, free: u32) -> u32
    ensures value { result ≡ (members - free) / 2 }
    ensures held { (s : State) → Kept s → s.members ≡ members → loose_in s ≡ free → length (pairing_in s) ≡ result }
    ensures pairing { OwnPairing }
    ensures sizes { OwnSize }
{
    members.saturating_sub(free) / 2
}

// How many offers a pairing has at most inside a blossom that holds so many members; the state's own pairing has as many.
pub fn most_inside(held: u32) -> u32
    ensures value { result ≡ held / 2 }
    ensures own { OwnInside }
    ensures most { MostInside }
    ensures bare { OneBare }
    ensures smaller { PartsSmaller }
    ensures root { OneRoot }
{
    held / 2
}

// The floor and every price at begin, in ticks.
pub fn start_price(k: u16, top: u32) -> u64
    ensures value { result ≡ 2 * k * top }
    ensures kept { KeptAtStart }
{
    2 * k as u64 * top as u64
}
