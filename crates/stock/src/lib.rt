// Stock lengths, and what two members save when they are cut out of one. The rule of a saving stands here and nowhere else.
#![tactic(auto)]

ghost use Rattle.std.specs.Prelude.{◌≡◌};
ghost use Rattle.stock.specs.Stock.{Rising, stock_of, Smallest, largest_stock, saving_of};

// The first stock length not below a length: of a rising list, the smallest.
pub fn stock_for(stock: &[u32], length: u64) -> Option<u32>
    ensures value { result ≡ stock_of stock.now length }
    ensures smallest { Rising stock.now → Smallest stock.now length result }
{
    stock.iter().copied().find(|s| u64::from(*s) >= length)
}

// The largest stock length, or 0.
pub fn largest(stock: &[u32]) -> u32
    ensures { result ≡ largest_stock stock.now }
{
    stock.iter().copied().max().unwrap_or(0)
}

// What members of two lengths save, with one cut between them: the stock lengths of both less that of the whole,
// and nothing where that is negative or no stock length is enough.
#[tactic(auto, unfolding(crate::specs::Stock::saving_of))]
pub fn saving(stock: &[u32], cut: u32, a: u32, b: u32) -> u32
    ensures { result ≡ saving_of stock.now cut a b }
{
    let (a, b, cut) = (u64::from(a), u64::from(b), u64::from(cut));
    let p = stock_for(stock, a);
    let q = stock_for(stock, b);
    let r = stock_for(stock, a + b + cut);
    match (p, q, r) {
        // A longer piece has no smaller stock length, so r is not below q.
        (Some(p), Some(q), Some(r)) => p.saturating_sub(r - q),
        // One answer wherever a length has no stock length.
        _ => 0,
    }
}
