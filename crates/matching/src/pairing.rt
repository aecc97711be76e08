// The most that any pairing can hold and show.
ghost use Rattle.std.specs.Prelude.{◌≡◌, ℕ, ◌*◌, ◌/◌, ◌≤◌, List, length};
ghost use Rattle.matching.specs.declared.row.Row.{Row};
ghost use Rattle.matching.specs.Rows.{AllSound};
ghost use Rattle.matching.specs.Pairings.{Pairing, shown_of};

// How many offers a pairing among so many members has at most.
pub fn most_pairs(members: u32) -> u32
    ensures value { result ≡ members / 2 }
    ensures bound { (top : ℕ) (rows : List Row) (es : List ℕ) → AllSound members top rows → Pairing rows es → length es ≤ result }
{
    members / 2
}

// How much a pairing shows at most, where no offer shows more than the top.
pub fn most_shown(members: u32, top: u32) -> u64
    ensures value { result ≡ members / 2 * top }
    ensures bound { (rows : List Row) (es : List ℕ) → AllSound members top rows → Pairing rows es → shown_of rows es ≤ result }
{
    // Here and in the theorems widened by casts: by `u64::from` the same value is proved at greater length.
    most_pairs(members) as u64 * top as u64
}
