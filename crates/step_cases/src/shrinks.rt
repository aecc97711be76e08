// Shrinks and dissolves, and rings that are none.
use crate::scripts::{Line, play};
use board::board::Board;
use sources::list_source::ListSource;
use sources::offer::Offer;
use std::test::Fail;

// The blossom gains 2 at each adjust, until the floor is 0.
#[test]
fn priced_triangle(rt: HostRuntime) -> Result<(), Fail> {
    let offers = [
        Offer::new(0, 1, 4),
        Offer::new(0, 2, 4),
        Offer::new(1, 2, 4),
    ];
    let mut board = Board::new(ListSource::new(3, &offers));
    let script = [
        Line::NoShrink(2, &[1, 0, 2], 21, 0),
        Line::NoDissolve(200, 21, 0),
        Line::Begin(1),
        Line::NoDissolve(200, 25, 200),
        Line::Adjust(5, &[1; 3]),
        Line::Augment(0, &[0]),
        // The newly paired offer is not eligible yet.
        Line::NoShrink(2, &[1, 0, 2], 27, 1),
        Line::Adjust(1, &[2, 2, 1]),
        Line::Prices(&[4, 4, 2]),
        Line::Roots(&[0, 1, 2]),
        Line::Shrink(2, &[1, 0, 2], 200),
        Line::Roots(&[200, 200, 200]),
        Line::Ring(200, 0, &[(2, 1), (0, 0), (1, 2)]),
        Line::IsRoot(200, true),
        Line::IsRoot(2, false),
        Line::Sums(2, 1, 4, 2),
        // Members of one root with two labels.
        Line::NoAdjust(&[1, 1, 2], 30, 0),
        Line::Adjust(1, &[1; 3]),
        Line::Prices(&[3, 3, 1]),
        Line::Ring(200, 2, &[(2, 1), (0, 0), (1, 2)]),
        Line::Sums(1, 1, 4, 1),
        Line::NoDissolve(200, 34, 200),
        Line::Adjust(1, &[1; 3]),
        Line::Prices(&[2, 2, 0]),
        Line::Ring(200, 4, &[(2, 1), (0, 0), (1, 2)]),
        Line::Sums(0, 1, 4, 1),
        Line::NoDissolve(200, 34, 200),
        Line::NoAdjust(&[1; 3], 31, 0),
    ];
    play(&rt, &mut board, &script)
}

// A blossom is paired at another part than before, comes back to price 0, and is dissolved.
#[test]
fn back_to_zero(rt: HostRuntime) -> Result<(), Fail> {
    let offers = [
        Offer::new(0, 1, 4),
        Offer::new(0, 2, 4),
        Offer::new(1, 2, 4),
        Offer::new(1, 3, 3),
    ];
    let mut board = Board::new(ListSource::new(4, &offers));
    let script = [
        Line::Begin(1),
        Line::Adjust(5, &[1; 4]),
        Line::Augment(0, &[0]),
        Line::Adjust(1, &[2, 2, 1, 1]),
        Line::Shrink(2, &[1, 0, 2], 200),
        Line::Adjust(1, &[1; 4]),
        Line::NoDissolve(200, 34, 200),
        Line::Augment(200, &[3]),
        Line::Partners(&[Some(2), Some(3), Some(0), Some(1)]),
        Line::Sums(1, 0, 7, 2),
        Line::Ring(200, 2, &[(2, 1), (0, 0), (1, 2)]),
        Line::Adjust(1, &[2; 4]),
        Line::Prices(&[4, 4, 2, 2]),
        Line::Ring(200, 0, &[(2, 1), (0, 0), (1, 2)]),
        Line::Dissolve(200),
        Line::Roots(&[0, 1, 2, 3]),
        Line::Partners(&[Some(2), Some(3), Some(0), Some(1)]),
        Line::Sums(0, 0, 7, 2),
    ];
    play(&rt, &mut board, &script)
}

// Five members in a ring, and a sixth who pairs with the fourth.
#[test]
fn ring_of_five(rt: HostRuntime) -> Result<(), Fail> {
    let offers = [
        Offer::new(0, 1, 5),
        Offer::new(1, 2, 5),
        Offer::new(2, 3, 5),
        Offer::new(3, 4, 5),
        Offer::new(4, 0, 4),
        Offer::new(5, 3, 4),
    ];
    let mut board = Board::new(ListSource::new(6, &offers));
    let script = [
        Line::Begin(1),
        Line::Adjust(6, &[1; 6]),
        Line::Augment(2, &[1]),
        Line::Augment(4, &[3]),
        Line::Adjust(1, &[1, 2, 0, 2, 2, 1]),
        Line::Adjust(1, &[1, 2, 0, 0, 0, 1]),
        Line::Adjust(1, &[1, 2, 1, 0, 0, 1]),
        Line::Prices(&[1, 7, 3, 5, 5, 1]),
        // The ring is no path.
        Line::NoAugment(0, &[0, 1, 2, 3, 4], 27, 4),
        Line::Shrink(0, &[0, 1, 2, 3, 4], 200),
        Line::Ring(200, 0, &[(0, 0), (1, 1), (2, 2), (3, 3), (4, 4)]),
        Line::Roots(&[200, 200, 200, 200, 200, 5]),
        Line::Augment(5, &[5]),
        Line::Partners(&[Some(4), Some(2), Some(1), Some(5), Some(0), Some(3)]),
        Line::Sums(1, 0, 13, 3),
        Line::Dissolve(200),
        Line::Roots(&[0, 1, 2, 3, 4, 5]),
    ];
    play(&rt, &mut board, &script)
}

// The loose member 0, a stem of 1 and 2, the ring of 2, 3 and 4, and the loose member 5 beside it.
#[test]
fn stem_and_ring(rt: HostRuntime) -> Result<(), Fail> {
    let offers = [
        Offer::new(0, 1, 5),
        Offer::new(1, 2, 5),
        Offer::new(2, 3, 5),
        Offer::new(3, 4, 5),
        Offer::new(4, 2, 5),
        Offer::new(3, 5, 4),
    ];
    let mut board = Board::new(ListSource::new(6, &offers));
    let script = [
        Line::Begin(1),
        Line::Adjust(6, &[1; 6]),
        Line::Augment(1, &[1]),
        Line::Augment(3, &[3]),
        Line::Adjust(1, &[1, 2, 0, 2, 2, 1]),
        Line::Adjust(1, &[1, 2, 0, 0, 0, 1]),
        Line::Adjust(1, &[1, 2, 1, 0, 0, 1]),
        // No root.
        Line::NoShrink(6, &[2, 3, 4], 25, 6),
        Line::NoShrink(200, &[2, 3, 4], 25, 200),
        Line::NoShrink(300, &[], 25, 300),
        Line::NoDissolve(2, 25, 2),
        Line::NoDissolve(6, 25, 6),
        Line::NoDissolve(200, 25, 200),
        Line::NoDissolve(300, 25, 300),
        Line::NoDissolve(1_000_000_000_000, 25, 1_000_000_000_000),
        // No ring has so many parts.
        Line::NoShrink(2, &[], 26, 0),
        Line::NoShrink(2, &[2], 26, 1),
        Line::NoShrink(2, &[2, 3], 26, 2),
        Line::NoShrink(2, &[2, 3, 4, 1], 26, 4),
        // It does not close.
        Line::NoShrink(0, &[0, 1, 2], 27, 2),
        Line::NoShrink(0, &[0, 1, 2, 3, 4], 27, 4),
        // It closes early.
        Line::NoShrink(2, &[2, 3, 4, 2, 3], 27, 2),
        // It comes to a root twice.
        Line::NoShrink(0, &[0, 1, 2, 3, 4, 2, 1], 27, 4),
        // It cannot be followed: wrong turns, and an offer that is not there.
        Line::NoShrink(2, &[1, 0, 0], 27, 0),
        Line::NoShrink(2, &[2, 4, 3], 27, 1),
        Line::NoShrink(3, &[2, 4, 3], 27, 1),
        Line::NoShrink(2, &[2, 3, 6], 27, 2),
        Line::NoShrink(2, &[2; 1001], 27, 1),
        // Its first root is paired outside.
        Line::Shrink(2, &[2, 3, 4], 200),
        Line::Roots(&[0, 1, 200, 200, 200, 5]),
        Line::NoShrink(2, &[2, 3, 4], 25, 2),
        Line::NoShrink(200, &[2, 3, 4], 27, 0),
        Line::NoAugment(3, &[5], 25, 3),
        Line::NoAugment(200, &[5], 28, 200),
        Line::NoDissolve(3, 25, 3),
        Line::NoDissolve(201, 25, 201),
        Line::Augment(0, &[0, 1, 5]),
        Line::Partners(&[Some(1), Some(0), Some(4), Some(5), Some(2), Some(3)]),
        Line::Prices(&[1, 7, 3, 5, 5, 1]),
        Line::Sums(1, 0, 14, 3),
        Line::Dissolve(200),
        Line::Partners(&[Some(1), Some(0), Some(4), Some(5), Some(2), Some(3)]),
    ];
    play(&rt, &mut board, &script)
}

// A number that is free again is the next to be given.
#[test]
fn freed_numbers(rt: HostRuntime) -> Result<(), Fail> {
    let offers = [
        Offer::new(0, 1, 4),
        Offer::new(0, 2, 4),
        Offer::new(1, 2, 4),
        Offer::new(3, 4, 4),
        Offer::new(3, 5, 4),
        Offer::new(4, 5, 4),
    ];
    let mut board = Board::new(ListSource::new(6, &offers));
    let script = [
        Line::Begin(1),
        Line::Adjust(5, &[1; 6]),
        Line::Augment(0, &[0]),
        Line::Augment(3, &[3]),
        Line::Adjust(1, &[2, 2, 1, 2, 2, 1]),
        Line::NoBlossom(200),
        Line::Shrink(2, &[1, 0, 2], 200),
        Line::Shrink(5, &[4, 3, 5], 201),
        Line::Dissolve(200),
        Line::NoBlossom(200),
        Line::Roots(&[0, 1, 2, 201, 201, 201]),
        // The other way round.
        Line::Shrink(2, &[2, 0, 1], 200),
        Line::Ring(200, 0, &[(2, 2), (1, 0), (0, 1)]),
        Line::Ring(201, 0, &[(5, 4), (3, 3), (4, 5)]),
        Line::Dissolve(201),
        Line::NoBlossom(201),
        Line::Dissolve(200),
        Line::NoDissolve(200, 25, 200),
        Line::Roots(&[0, 1, 2, 3, 4, 5]),
        Line::NoMember(6),
        Line::NoMember(200),
        Line::NoBlossom(2),
        Line::NoBlossom(300),
        Line::NoBlossom(1_000_000_000_000),
    ];
    play(&rt, &mut board, &script)
}
