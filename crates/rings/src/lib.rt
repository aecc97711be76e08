// Why a shrink and a dissolve keep what every board keeps.
#![tactic(auto)]

ghost use Rattle.std.specs.Prelude.{◌≡◌, ◌+◌, ◌-◌};
ghost use Rattle.rings.specs.Theorems.{ShrinkKeeps, ShrinkStays, DissolveKeeps, DissolveStays};

// How many roots there are after a shrink of so many of them to one.
pub fn roots_after_shrink(roots: u32, parts: u32) -> u32
    ensures value { result ≡ roots - (parts - 1) }
    ensures keeps { ShrinkKeeps }
    ensures stays { ShrinkStays }
{
    roots.saturating_sub(parts.saturating_sub(1))
}

// How many roots there are after a dissolve of one into so many parts.
pub fn roots_after_dissolve(roots: u32, parts: u32) -> u64
    ensures value { result ≡ roots - 1 + parts }
    ensures keeps { DissolveKeeps }
    ensures stays { DissolveStays }
{
    roots.saturating_sub(1) as u64 + parts as u64
}
