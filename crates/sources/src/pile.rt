// What holds of every source, and so of any pile of layers over one.
ghost use Rattle.std.specs.Prelude.{◌≡◌, ◌≤◌};
ghost use Rattle.sources.specs.Pile.{NoMore};

use crate::source::Source;

// By how much a pairing can save more in ground millimetres than another that shows up to `by` less.
pub fn most_more<S: Source>(s: &S, by: u64) -> u64
    ensures value { result ≡ S.Source.carried s.now by }
    ensures bound { result ≤ 10000000 }
    ensures carries { NoMore (S.Source.rows s.now) by result }
{
    s.carry(by)
}
