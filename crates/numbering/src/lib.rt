// Offers for every two of up to 89 members, numbered row by row: the row of member v has an offer with each u below v.
#![tactic(auto)]

ghost use Rattle.std.specs.Prelude.{◌≡◌, ℕ, ◌<◌, ◌≤◌, true, is_some, Some};
ghost use Rattle.numbering.specs.Numbering.{offers_among, number, twos_at, number_at};

// The most members: one more would have over 4,000 offers.
pub const MOST_LENGTHS: usize = 89;

// How many offers there are among so many members, which is also where the row of the next member begins.
// For the crates beside, which have at most 89 members.
pub fn offers_among(members: usize) -> usize
    requires { members ≤ 89 }
    ensures { result ≡ offers_among members }
{
    members * members.saturating_sub(1) / 2
}

// The number of the offer for the members u < v, where there are at most 89.
pub fn number_of(u: usize, v: usize) -> Option<usize>
    ensures value { result ≡ number_at u v }
    ensures back { (n e : ℕ) → n ≤ 89 → v < n → result ≡ Some e → twos_at n e ≡ Some (u, v) }
{
    if u < v && v < MOST_LENGTHS {
        Some(offers_among(v) + u)
    } else {
        None
    }
}

// The two members of an offer among so many members, by going down from the last row; none past the last offer or over 89 members.
pub fn members_of(members: usize, offer: usize) -> Option<(usize, usize)>
    ensures value { result ≡ twos_at members offer }
    ensures every { members ≤ 89 → offer < offers_among members → is_some result ≡ true }
    ensures back { (u v : ℕ) → result ≡ Some (u, v) → (u < v) × (v < members) × (number_at u v ≡ Some offer) }
{
    if members > MOST_LENGTHS || offer >= offers_among(members) {
        return None;
    }
    // A loop: a chain would hand `before` and `v` on in pairs, from closure to closure. A row begins as many offers before the next as its member's number.
    let mut before = offers_among(members);
    for v in (0..members).rev() {
        before -= v;
        if before <= offer {
            return Some((offer - before, v));
        }
    }
    None
}
