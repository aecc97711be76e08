// What a board answers, before and after a refusal.
use board::board::Board;
use sources::source::Source;
use std::array;

// What the questions answer on the board, its first ten members and its first four blossoms.
#[derive(PartialEq, Debug, Drop)]
pub(crate) struct Look {
    floor: u32,
    loose: usize,
    slack: u64,
    shown: u64,
    prices: [u32; 10],
    partners: [Option<u32>; 10],
    roots: [usize; 10],
    blossoms: [Option<u32>; 4],
}

pub(crate) fn look_at<S: Source + Drop>(board: &Board<S>) -> Look {
    Look {
        floor: board.floor(),
        loose: board.loose(),
        slack: board.slack(),
        shown: board.shown(),
        prices: array::from_fn(|member| board.price(member).unwrap_or(0)),
        partners: array::from_fn(|member| board.partner(member).unwrap_or(None)),
        roots: array::from_fn(|member| board.root(member).unwrap_or(0)),
        blossoms: [200, 201, 202, 203].map(|node| board.blossom_price(node)),
    }
}
