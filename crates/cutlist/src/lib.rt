// Member lengths, stock lengths and a saw cut: what stands against them.
#![tactic(auto)]

ghost use Rattle.std.specs.Prelude.{◌≡◌, Ok};
ghost use Rattle.std.specs.Option.{option_map};
ghost use Rattle.faults.specs.declared.layers.SourceFault.TheVariants.{BadStock, BadLength};
ghost use Rattle.faults.specs.Checks.{judged};
ghost use Rattle.stock.specs.Stock.{Rising};
ghost use Rattle.cutlist.specs.Cutlists.{bad_stock, bad_length, stock_fault, length_fault};

use faults::layers::SourceFault;
use numbering::MOST_LENGTHS;
use stock::largest;

// The most stock lengths.
const MOST_STOCK: usize = 16;

// Whether each stock length is above the one before it and none is too long.
// A loop with the index stops at the first offender.
fn check_rising(stock: &[u32]) -> Result<(), SourceFault>
    ensures { result ≡ judged (option_map BadStock (bad_stock 0 0 stock.now)) }
{
    let mut least = 0;
    for (i, s) in stock.iter().enumerate() {
        if *s < least || *s > 50_000 {
            return Err(SourceFault::BadStock(i));
        }
        least = *s + 1;
    }
    Ok(())
}

// Whether no member's length is 0 or over the longest stock length.
fn check_lengths(top: u32, lengths: &[u32]) -> Result<(), SourceFault>
    ensures { result ≡ judged (option_map BadLength (bad_length top 0 lengths.now)) }
{
    match lengths.iter().position(|l| *l == 0 || *l > top) {
        Some(member) => Err(SourceFault::BadLength(member)),
        None => Ok(()),
    }
}

// What stands against a list of stock lengths, if anything does.
fn check_stock(stock: &[u32]) -> Result<(), SourceFault>
    ensures { result ≡ judged (stock_fault stock.now) }
{
    if stock.len() == 0 {
        return Err(SourceFault::BadStock(0));
    }
    if stock.len() > MOST_STOCK {
        return Err(SourceFault::BadStock(MOST_STOCK));
    }
    check_rising(stock)
}

// What stands against a source of these lengths, if anything does.
pub fn check(lengths: &[u32], stock: &[u32], cut: u32) -> Result<(), SourceFault>
    ensures verdict { result ≡ judged (length_fault lengths.now stock.now cut) }
    ensures rising { result ≡ Ok tt → Rising stock.now }
{
    if lengths.len() > MOST_LENGTHS {
        return Err(SourceFault::TooManyMembers(lengths.len()));
    }
    check_stock(stock)?;
    check_lengths(largest(stock), lengths)?;
    if cut > 20 {
        return Err(SourceFault::WideCut(cut));
    }
    Ok(())
}
