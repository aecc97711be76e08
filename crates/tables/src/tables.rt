// What a board knows of its offers and holds as prices, pairs and blossoms, in tables of the largest size that a source may have.
// They are arrays, so that no call can want memory.
ghost use Rattle.std.specs.Prelude.{◌≡◌, ◌≤◌, length, take, if◌then◌else◌, nat_lt};
ghost use Rattle.tables.specs.Prices.{place_moved};

use matching::row::Row;

// A part of a ring, and the offer that joins it to the next, or the last to the first.
#[derive(Clone, Copy, PartialEq, Eq, Debug)]
pub struct Link {
    pub part: u16,
    pub join: u16,
}

// A ring of nodes.
#[derive(Clone, Copy)]
pub struct Blossom {
    // In ticks.
    pub price: u32,
    // How many parts the ring has. They stand in an array, since a blossom is copied, and a list that knows its length is not.
    pub len: usize,
    pub links: [Link; 200],
    // Which members lie inside.
    pub holds: [bool; 200],
}

impl Blossom {
    // The parts in order, and the offers between them.
    pub fn ring(&self) -> &[Link]
        ensures value { result.now ≡ take self.now.len self.now.links }
        ensures few { length result.now ≤ 200 }
    {
        self.links.get(..self.len).unwrap_or(&self.links)
    }
}

// The columns of members stand apart: each step writes one of them whole. Their numbers become indices by casts: no `From` goes
// from the 32 bits of an offer's members to `usize`, and those of 16 bits are read alike.
#[derive(Drop)]
pub struct Tables {
    pub members: usize,
    pub offers: usize,
    pub top: u32,
    // The k of an accepted begin.
    pub begun: Option<u32>,
    // The floor and the prices are in ticks of 1/(2k) mm, and 0 before begin.
    pub floor: u32,
    pub rows: [Row; 4000],
    pub prices: [u32; 200],
    // For each member the offer by which it is paired.
    pub mates: [Option<u16>; 200],
    // For each member the outermost node that holds it.
    pub roots: [u16; 200],
    // At a free place there is none.
    pub blossoms: [Option<Blossom>; 100],
}

impl Tables {
    // Changes the price of one blossom; where there is none, there is none to change.
    pub fn reprice(&mut self, at: usize, price: u32)
        ensures { self.new ≡ (if nat_lt at 100 then place_moved self.old at price else self.old) }
    {
        if at < 100 {
            if let Some(blossom) = &mut self.blossoms[at] {
                blossom.price = price;
            }
        }
    }
}
