// Member lengths, stock lengths and a saw cut as a source: shown and ground are what two members save by the rule of the stock.
ghost use Rattle.std.specs.Prelude.{◌≡◌, ◌<◌, false, [], ◌∷◌, length, is_some, IfSome};
ghost use Rattle.std.specs.Option.{option_map_or};
ghost use Rattle.faults.specs.Checks.{unless_fault};
ghost use Rattle.matching.specs.Rows.{row, no_row};
ghost use Rattle.sources.specs.ListRows.{list_carry};
ghost use Rattle.stock.specs.Stock.{largest_stock};
ghost use Rattle.cutlist.specs.Cutlists.{length_fault};
ghost use Rattle.lengths.specs.Lengths.{length_row, length_rows};
ghost use Rattle.lengths.specs.LengthLaws.{length_laws};

use cutlist::check;
use matching::pairing::most_shown;
use numbering::{members_of, offers_among};
use sources::source::Source;
use stock::{largest, saving};

#[derive(Drop)]
pub struct LengthSource<'a> {
    lengths: &'a [u32],
    stock: &'a [u32],
    cut: u32,
    // Nothing stands against them.
    ghost sound: { is_some (length_fault lengths.now stock.now cut) ≡ false },
}

impl<'a> LengthSource<'a> {
    // The source of these lengths; where `check` refuses them, one of no members, with a stock length of 0.
    pub fn new(lengths: &'a [u32], stock: &'a [u32], cut: u32) -> LengthSource<'a>
        ensures members { result.lengths.now ≡ unless_fault (length_fault lengths.now stock.now cut) lengths.now [] }
        ensures stocked { result.stock.now ≡ unless_fault (length_fault lengths.now stock.now cut) stock.now (0 ∷ []) }
        ensures sawn { result.cut ≡ unless_fault (length_fault lengths.now stock.now cut) cut 0 }
    {
        match check(lengths, stock, cut) {
            Ok(()) => LengthSource {
                lengths,
                stock,
                cut,
            },
            Err(_) => LengthSource {
                lengths: &[],
                stock: &[0],
                cut: 0,
            },
        }
    }

    // The two members of an offer, the lower first; none past the last.
    fn pair(&self, offer: usize) -> Option<(usize, usize)>
        ensures row { row (length_rows self.now.lengths.now self.now.stock.now self.now.cut) offer ≡ option_map_or (length_row self.now.lengths.now self.now.stock.now self.now.cut) result no_row }
        ensures within { IfSome result (λ p. (p.0 < p.1) × (p.1 < length self.now.lengths.now)) }
    {
        members_of(self.lengths.len(), offer)
    }
}

impl Source for LengthSource<'_> {
    ghost size = { λ s. length s.lengths.now };

    ghost rows = { λ s. length_rows s.lengths.now s.stock.now s.cut };

    ghost highest = { λ s. largest_stock s.stock.now };

    ghost carried = { λ s. list_carry (length s.lengths.now) (largest_stock s.stock.now) };

    ghost laws = { λ s. length_laws s.lengths.now s.stock.now s.cut s.sound };

    fn members(&self) -> usize {
        self.lengths.len()
    }

    fn offers(&self) -> usize {
        offers_among(self.lengths.len())
    }

    fn top(&self) -> u32 {
        largest(self.stock)
    }

    // One line, as for a list of offers: each source states the law of its own savings.
    fn carry(&self, s: u64) -> u64 {
        s.min(most_shown(self.members() as u32, self.top()))
    }

    fn ends(&self, offer: usize) -> (u32, u32) {
        self.pair(offer)
            .map_or((0, 0), |(u, v)| (u as u32, v as u32))
    }

    fn shown(&self, offer: usize) -> u32 {
        match self.pair(offer) {
            Some((u, v)) => saving(self.stock, self.cut, self.lengths[u], self.lengths[v]),
            None => 0,
        }
    }

    fn ground(&self, offer: usize) -> u32 {
        self.shown(offer)
    }
}
