// A list of offers as a source: shown and ground are the saving.
ghost use Rattle.std.specs.Prelude.{◌≡◌, false, [], is_some};
ghost use Rattle.std.specs.Option.{option_map};
ghost use Rattle.matching.specs.Rows.{row};
ghost use Rattle.faults.specs.declared.layers.SourceFault.TheVariants.{BadMember, HighSaving};
ghost use Rattle.faults.specs.Checks.{judged, unless_fault};
ghost use Rattle.sources.specs.Lists.{names, modest, first_bad, size_fault, list_fault};
ghost use Rattle.sources.specs.ListLaws.{list_laws};
ghost use Rattle.sources.specs.ListRows.{list_row, list_rows, largest_saving, list_carry};

use crate::offer::Offer;
use crate::source::Source;
use faults::layers::SourceFault;
use matching::pairing::most_shown;

// The most offers that a source may have.
pub const MOST_OFFERS: usize = 4000;

#[derive(Drop)]
pub struct ListSource<'a> {
    n: u32,
    offers: &'a [Offer],
    top: u32,
    // Nothing stands against the list.
    ghost sound: { is_some (list_fault n offers.now) ≡ false },
    ghost high: { top ≡ largest_saving offers.now },
}

// Whether each offer names two members, and both are there.
// Here and below a loop with the offer's number stops at the first offender.
fn check_members(n: u32, offers: &[Offer]) -> Result<(), SourceFault>
    ensures { result ≡ judged (option_map BadMember (first_bad (names n) 0 offers.now)) }
{
    for (i, o) in offers.iter().enumerate() {
        if o.first >= n || o.second >= n || o.first == o.second {
            return Err(SourceFault::BadMember(i));
        }
    }
    Ok(())
}

// Whether no offer has too high a saving.
fn check_savings(offers: &[Offer]) -> Result<(), SourceFault>
    ensures { result ≡ judged (option_map HighSaving (first_bad modest 0 offers.now)) }
{
    for (i, o) in offers.iter().enumerate() {
        if o.saving > 100_000 {
            return Err(SourceFault::HighSaving(i));
        }
    }
    Ok(())
}

// Whether a source may have so many members.
pub fn check_size(n: u32) -> Result<(), SourceFault>
    ensures { result ≡ judged (size_fault n) }
{
    if n > 200 {
        return Err(SourceFault::TooManyMembers(n as usize));
    }
    Ok(())
}

// What stands against a list source of these offers among n members, if anything does.
pub fn check(n: u32, offers: &[Offer]) -> Result<(), SourceFault>
    ensures { result ≡ judged (list_fault n offers.now) }
{
    check_size(n)?;
    if offers.len() > MOST_OFFERS {
        return Err(SourceFault::TooManyOffers(MOST_OFFERS));
    }
    check_members(n, offers)?;
    check_savings(offers)
}

// The largest saving, or 0.
fn largest(offers: &[Offer]) -> u32
    ensures { result ≡ largest_saving offers.now }
{
    offers.iter().map(|o| o.saving).max().unwrap_or(0)
}

impl<'a> ListSource<'a> {
    // The offer of this number; past the last, two members 0 and no saving.
    fn offer(&self, number: usize) -> Offer
        ensures { list_row result ≡ row (list_rows self.now.offers.now) number }
    {
        self.offers.get(number).copied().unwrap_or_default()
    }

    // The source of these offers, or of none among no members where `check` refuses them.
    pub fn new(n: u32, offers: &'a [Offer]) -> ListSource<'a>
        ensures members { result.n ≡ unless_fault (list_fault n offers.now) n 0 }
        ensures list { result.offers.now ≡ unless_fault (list_fault n offers.now) offers.now [] }
        ensures top { result.top ≡ largest_saving (unless_fault (list_fault n offers.now) offers.now []) }
    {
        match check(n, offers) {
            Ok(()) => ListSource {
                n,
                offers,
                top: largest(offers),
            },
            Err(_) => ListSource {
                n: 0,
                offers: &[],
                top: 0,
            },
        }
    }
}

impl Source for ListSource<'_> {
    ghost size = { λ s. s.n };

    ghost rows = { λ s. list_rows s.offers.now };

    ghost highest = { λ s. s.top };

    ghost carried = { λ s. list_carry s.n s.top };

    ghost laws = { λ s. list_laws s.n s.top s.offers.now s.sound s.high };

    fn members(&self) -> usize {
        self.n as usize
    }

    fn offers(&self) -> usize {
        self.offers.len()
    }

    fn top(&self) -> u32 {
        self.top
    }

    // One line, as for a list of lengths: each source states the law of its own savings.
    fn carry(&self, s: u64) -> u64 {
        s.min(most_shown(self.n, self.top))
    }

    fn ends(&self, offer: usize) -> (u32, u32) {
        let o = self.offer(offer);
        (o.first, o.second)
    }

    fn shown(&self, offer: usize) -> u32 {
        self.offer(offer).saving
    }

    fn ground(&self, offer: usize) -> u32 {
        self.shown(offer)
    }
}
