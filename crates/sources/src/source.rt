// Where offers come from: what every source and every layer over one answers and owes.
ghost use Rattle.std.specs.Prelude.{◌≡◌, ℕ, ◌<◌, ◌≤◌, List, length};
ghost use Rattle.matching.specs.declared.row.Row.{Row};
ghost use Rattle.matching.specs.Rows.{row};
ghost use Rattle.matching.specs.Lawful.{Lawful};

pub trait Source {
    // How many members there are.
    ghost size: { Self → ℕ };

    // The offers, in the order of their numbers.
    ghost rows: { Self → List Row };

    // No shown saving is above it.
    ghost highest: { Self → ℕ };

    // By how much a pairing can save more in ground millimetres, where it shows at most so much more.
    ghost carried: { Self → ℕ → ℕ };

    // What each source owes: the bounds, and the law of carry.
    ghost laws: { (s : Self) → Lawful (size s) (rows s) (highest s) (carried s) };

    fn members(&self) -> usize
        ensures value { result ≡ size self.now }
        ensures bound { result ≤ 200 };

    fn offers(&self) -> usize
        ensures value { result ≡ length (rows self.now) }
        ensures bound { result ≤ 4000 };

    fn top(&self) -> u32
        ensures value { result ≡ highest self.now }
        ensures bound { result ≤ 100000 };

    fn carry(&self, s: u64) -> u64
        ensures value { result ≡ carried self.now s }
        ensures bound { result ≤ 10000000 };

    // The two members of an offer; 0 and 0 past the last.
    fn ends(&self, offer: usize) -> (u32, u32)
        ensures first { result.0 ≡ (row (rows self.now) offer).first }
        ensures second { result.1 ≡ (row (rows self.now) offer).second }
        ensures bound { (result.0 < 200) × (result.1 < 200) };

    fn shown(&self, offer: usize) -> u32
        ensures value { result ≡ (row (rows self.now) offer).shown }
        ensures bound { result ≤ 100000 };

    fn ground(&self, offer: usize) -> u32
        ensures value { result ≡ (row (rows self.now) offer).ground }
        ensures bound { result ≤ 100000 };
}
