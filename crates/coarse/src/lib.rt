// A layer over a source whose shown savings are x/N of those below, rounded down.
#![tactic(auto)]

ghost use Rattle.std.specs.Prelude.{◌≡◌, ◌≤◌, Some, None, IfOk, IfErr};
ghost use Rattle.faults.specs.Checks.{judged, unless_fault};
ghost use Rattle.coarse.specs.Coarse.{part_of, coarse_rows, coarse_carry};
ghost use Rattle.coarse.specs.CoarseLaws.{coarse_laws};
ghost use Rattle.coarse.specs.Ratios.{ratio_fault};

use faults::layers::SourceFault;
use matching::pairing::{most_pairs, most_shown};
use sources::source::Source;

// x parts of N.
#[derive(Clone, Copy)]
struct Ratio {
    x: u32,
    whole: u32,
    ghost some: { 1 ≤ x },
    ghost within: { x ≤ whole },
    ghost small: { whole ≤ 100000 },
}

impl Ratio {
    // All of it.
    const ALL: Ratio = Ratio { x: 1, whole: 1 };

    fn new(x: u32, whole: u32) -> Result<Ratio, SourceFault>
        ensures taken { IfOk result (λ r. (r.x ≡ x) × (r.whole ≡ whole) × (ratio_fault x whole ≡ None)) }
        ensures refused { IfErr result (λ f. ratio_fault x whole ≡ Some f) }
    {
        if x == 0 || x > whole || whole > 100_000 {
            return Err(SourceFault::BadRatio);
        }
        Ok(Ratio { x, whole })
    }

    // x/N of a shown saving, rounded down.
    fn part(self, saving: u32) -> u32
        ensures value { result ≡ part_of self.x self.whole saving }
        ensures bound { result ≤ saving }
    {
        (u64::from(self.x) * u64::from(saving) / u64::from(self.whole)) as u32
    }
}

#[derive(Drop)]
pub struct Coarse<S> {
    below: S,
    ratio: Ratio,
}

// What stands against a coarse layer of x over N, if anything does.
pub fn check(x: u32, whole: u32) -> Result<(), SourceFault>
    ensures { result ≡ judged (ratio_fault x whole) }
{
    Ratio::new(x, whole)?;
    Ok(())
}

impl<S> Coarse<S> {
    // The layer of x over N, or of 1 over 1 where `check` refuses that.
    pub fn new(below: S, x: u32, whole: u32) -> Coarse<S>
        ensures taken { result.ratio.x ≡ unless_fault (ratio_fault x whole) x 1 }
        ensures full { result.ratio.whole ≡ unless_fault (ratio_fault x whole) whole 1 }
        ensures under { result.below ≡ below }
    {
        Coarse {
            below,
            ratio: Ratio::new(x, whole).unwrap_or(Ratio::ALL),
        }
    }
}

impl<S: Source> Source for Coarse<S> {
    ghost size = { λ s. S.Source.size s.below };

    ghost rows = { λ s. coarse_rows s.ratio.x s.ratio.whole (S.Source.rows s.below) };

    ghost highest = { λ s. part_of s.ratio.x s.ratio.whole (S.Source.highest s.below) };

    ghost carried = { λ s. coarse_carry s.ratio.x s.ratio.whole (S.Source.size s.below) (S.Source.highest s.below) (S.Source.carried s.below) };

    ghost laws = { λ s. coarse_laws s.ratio.x s.ratio.whole s.ratio.some s.ratio.within (S.Source.laws s.below) };

    fn members(&self) -> usize {
        self.below.members()
    }

    fn offers(&self) -> usize {
        self.below.offers()
    }

    fn top(&self) -> u32 {
        self.ratio.part(self.below.top())
    }

    // Each offer of a pairing loses up to N - 1 parts of N by the rounding.
    fn carry(&self, s: u64) -> u64 {
        let n = self.members() as u32;
        let cut = s.min(most_shown(n, self.top()));
        let (x, whole) = (u64::from(self.ratio.x), u64::from(self.ratio.whole));
        let lost = (whole - 1) * u64::from(most_pairs(n));
        let gap = (whole * cut + lost) / x;
        self.below.carry(most_shown(n, self.below.top()).min(gap))
    }

    fn ends(&self, offer: usize) -> (u32, u32) {
        self.below.ends(offer)
    }

    fn shown(&self, offer: usize) -> u32 {
        self.ratio.part(self.below.shown(offer))
    }

    fn ground(&self, offer: usize) -> u32 {
        self.below.ground(offer)
    }
}
