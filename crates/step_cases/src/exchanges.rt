// Augments, and lists of offers that are none.
use crate::scripts::{Line, play};
use board::board::Board;
use coarse::Coarse;
use sources::list_source::ListSource;
use sources::offer::Offer;
use std::test::Fail;

// Six members in a line, each of whom may pair with the next.
fn line() -> [Offer; 5] {
    [
        Offer::new(0, 1, 4),
        Offer::new(1, 2, 4),
        Offer::new(2, 3, 4),
        Offer::new(3, 4, 4),
        Offer::new(4, 5, 4),
    ]
}

#[test]
fn one_pair(rt: HostRuntime) -> Result<(), Fail> {
    let offers = [Offer::new(1, 0, 4)];
    let mut board = Board::new(ListSource::new(2, &offers));
    let script = [
        Line::NoAugment(0, &[0], 21, 0),
        Line::Begin(1),
        // At the start no offer is eligible.
        Line::NoAugment(0, &[0], 27, 0),
        Line::Adjust(5, &[1, 1]),
        Line::Augment(0, &[0]),
        Line::Partners(&[Some(1), Some(0)]),
        Line::Prices(&[3, 3]),
        Line::Sums(3, 0, 4, 1),
    ];
    play(&rt, &mut board, &script)
}

// Two of the five offers are paired first; then the path from end to end takes the other three.
#[test]
fn path_of_five(rt: HostRuntime) -> Result<(), Fail> {
    let offers = line();
    let mut board = Board::new(ListSource::new(6, &offers));
    let script = [
        Line::Begin(1),
        Line::Adjust(5, &[1; 6]),
        // The second offer is unpaired, where a paired one is due.
        Line::NoAugment(0, &[0, 1, 2], 27, 1),
        Line::Augment(1, &[1]),
        Line::Augment(3, &[3]),
        Line::Sums(3, 2, 8, 6),
        // Newly paired offers are not eligible yet.
        Line::NoAugment(0, &[0, 1, 2, 3, 4], 27, 1),
        Line::Adjust(1, &[1, 2, 2, 2, 2, 1]),
        Line::Prices(&[2, 4, 4, 4, 4, 2]),
        Line::Partners(&[None, Some(2), Some(1), Some(4), Some(3), None]),
        Line::Sums(2, 2, 8, 5),
        // The third offer, with 8 ticks of its 8, is not eligible.
        Line::NoAugment(0, &[0, 1, 2, 3, 4], 27, 2),
        Line::Adjust(1, &[1, 2, 1, 1, 2, 1]),
        Line::Prices(&[1, 5, 3, 3, 5, 1]),
        Line::Sums(1, 2, 8, 4),
        Line::Augment(0, &[0, 1, 2, 3, 4]),
        Line::Partners(&[Some(1), Some(0), Some(3), Some(2), Some(5), Some(4)]),
        Line::Prices(&[1, 5, 3, 3, 5, 1]),
        Line::Sums(1, 0, 12, 3),
        Line::NoAugment(1, &[1], 27, 0),
    ];
    play(&rt, &mut board, &script)
}

// On the line, with the path from end to end open.
#[test]
fn lists_that_are_no_path(rt: HostRuntime) -> Result<(), Fail> {
    let offers = line();
    let mut board = Board::new(ListSource::new(6, &offers));
    let script = [
        Line::Begin(1),
        Line::Adjust(5, &[1; 6]),
        Line::Augment(2, &[1]),
        Line::Augment(4, &[3]),
        Line::Adjust(1, &[1, 2, 2, 2, 2, 1]),
        Line::Adjust(1, &[1, 2, 1, 1, 2, 1]),
        // No root: a member that is not there, a blossom that is not there, numbers that are none.
        Line::NoAugment(6, &[0], 25, 6),
        Line::NoAugment(199, &[0], 25, 199),
        Line::NoAugment(200, &[0], 25, 200),
        Line::NoAugment(299, &[0], 25, 299),
        Line::NoAugment(300, &[0], 25, 300),
        Line::NoAugment(65_536, &[0], 25, 65_536),
        Line::NoAugment(1_000_000_000_000, &[], 25, 1_000_000_000_000),
        // An even number of offers, whatever they are.
        Line::NoAugment(0, &[], 26, 0),
        Line::NoAugment(0, &[0, 1], 26, 2),
        Line::NoAugment(0, &[9, 9, 9, 9], 26, 4),
        // No such offer.
        Line::NoAugment(0, &[5], 27, 0),
        Line::NoAugment(0, &[65_535], 27, 0),
        Line::NoAugment(0, &[0, 5, 2], 27, 1),
        Line::NoAugment(0, &[0, 1, 2, 3, 5], 27, 4),
        // An offer that does not leave the root that is reached.
        Line::NoAugment(0, &[2], 27, 0),
        Line::NoAugment(0, &[0, 3, 2], 27, 1),
        Line::NoAugment(0, &[0, 1, 4], 27, 2),
        // A paired offer where an unpaired one is due.
        Line::NoAugment(1, &[1], 27, 0),
        // An offer twice.
        Line::NoAugment(0, &[0, 0, 0], 27, 1),
        Line::NoAugment(0, &[0, 1, 1], 27, 2),
        Line::NoAugment(0, &[0, 1, 2, 3, 4, 4, 4], 27, 5),
        // A first root that is not loose, and such a last one.
        Line::NoAugment(2, &[2], 28, 2),
        Line::NoAugment(0, &[0], 28, 1),
        Line::NoAugment(0, &[0, 1, 2], 28, 3),
        Line::Augment(5, &[4, 3, 2, 1, 0]),
        Line::Partners(&[Some(1), Some(0), Some(3), Some(2), Some(5), Some(4)]),
    ];
    play(&rt, &mut board, &script)
}

// Lists longer than any path.
#[test]
fn long_lists(rt: HostRuntime) -> Result<(), Fail> {
    let offers = line();
    let mut board = Board::new(ListSource::new(6, &offers));
    let script = [
        Line::Begin(1),
        Line::Adjust(5, &[1; 6]),
        Line::NoAugment(0, &[0; 1000], 26, 1000),
        Line::NoAugment(0, &[0; 1001], 27, 1),
        Line::NoAugment(0, &[7; 1001], 27, 0),
        Line::Augment(0, &[0]),
        Line::Partners(&[Some(1), Some(0), None, None, None, None]),
    ];
    play(&rt, &mut board, &script)
}

// Round the triangle the walk comes back to a root that it has used.
#[test]
fn round_a_triangle(rt: HostRuntime) -> Result<(), Fail> {
    let offers = [
        Offer::new(0, 1, 4),
        Offer::new(0, 2, 4),
        Offer::new(1, 2, 4),
    ];
    let mut board = Board::new(ListSource::new(3, &offers));
    let script = [
        Line::Begin(1),
        Line::Adjust(5, &[1; 3]),
        Line::Augment(1, &[2]),
        Line::Adjust(1, &[1, 2, 2]),
        Line::NoAugment(0, &[0, 2, 1], 27, 2),
        Line::NoAugment(0, &[1, 2, 0], 27, 2),
    ];
    play(&rt, &mut board, &script)
}

// Offers 0 and 1 join the same members and show the same, and pairing goes by the one that is named.
#[test]
fn parallel_offers(rt: HostRuntime) -> Result<(), Fail> {
    let offers = [
        Offer::new(0, 1, 40),
        Offer::new(0, 1, 49),
        Offer::new(2, 0, 41),
        Offer::new(1, 3, 42),
    ];
    let mut board = Board::new(Coarse::new(ListSource::new(4, &offers), 1, 10));
    let script = [
        Line::Begin(1),
        Line::Adjust(5, &[1; 4]),
        Line::Augment(0, &[1]),
        Line::Ground(49),
        Line::Adjust(1, &[2, 2, 1, 1]),
        Line::NoAugment(2, &[2, 0, 3], 27, 1),
        Line::Augment(2, &[2, 1, 3]),
        Line::Partners(&[Some(2), Some(3), Some(0), Some(1)]),
        Line::Ground(83),
        // The gap is 2 of 8, and below a tenth 10 × 2 + 9 × 2.
        Line::Sums(2, 0, 8, 38),
    ];
    play(&rt, &mut board, &script)
}
