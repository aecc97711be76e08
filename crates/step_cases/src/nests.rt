// Blossoms inside blossoms.
use crate::scripts::{Line, play};
use board::board::Board;
use sources::list_source::ListSource;
use sources::offer::Offer;
use std::test::Fail;

// Members 0, 1 and 2 in a ring; it, 3 and 4 in a second; that, 5 and 6 in a third. Then a stem of 2 and 7, and the loose members 8 and 9.
fn nest() -> [Offer; 12] {
    [
        Offer::new(2, 0, 5),
        Offer::new(0, 1, 7),
        Offer::new(1, 2, 7),
        Offer::new(2, 3, 6),
        Offer::new(3, 4, 7),
        Offer::new(4, 0, 7),
        Offer::new(3, 5, 7),
        Offer::new(5, 6, 7),
        Offer::new(6, 2, 7),
        Offer::new(2, 7, 7),
        Offer::new(7, 8, 7),
        Offer::new(9, 6, 6),
    ]
}

// Brings the board to where all the rings can be made.
fn opening<'a>() -> [Line<'a>; 12] {
    [
        Line::Begin(1),
        Line::Adjust(8, &[1; 10]),
        Line::Augment(0, &[1]),
        Line::Augment(3, &[4]),
        Line::Augment(5, &[7]),
        Line::Augment(2, &[9]),
        Line::Adjust(1, &[0, 2, 0, 2, 2, 0, 2, 2, 1, 1]),
        Line::Adjust(1, &[0, 2, 0, 0, 0, 0, 2, 2, 1, 1]),
        Line::Adjust(1, &[1, 2, 1, 0, 0, 1, 2, 2, 1, 1]),
        Line::Adjust(2, &[0, 0, 1, 0, 0, 0, 0, 2, 1, 1]),
        Line::Prices(&[5, 9, 3, 7, 7, 5, 9, 11, 1, 1]),
        Line::Sums(1, 2, 28, 6),
    ]
}

// Made from the inside out, and dissolved from the outside in.
#[test]
fn three_deep(rt: HostRuntime) -> Result<(), Fail> {
    let offers = nest();
    let mut board = Board::new(ListSource::new(10, &offers));
    play(&rt, &mut board, &opening())?;
    let script = [
        // A ring through blossoms that are not made yet.
        Line::NoShrink(201, &[6, 7, 8], 25, 201),
        Line::Shrink(2, &[0, 1, 2], 200),
        Line::Shrink(200, &[3, 4, 5], 201),
        Line::Roots(&[201, 201, 201, 201, 201, 5, 6, 7, 8, 9]),
        Line::Shrink(201, &[6, 7, 8], 202),
        Line::Roots(&[202, 202, 202, 202, 202, 202, 202, 7, 8, 9]),
        Line::Ring(200, 0, &[(2, 0), (0, 1), (1, 2)]),
        Line::Ring(201, 0, &[(200, 3), (3, 4), (4, 5)]),
        Line::Ring(202, 0, &[(201, 6), (5, 7), (6, 8)]),
        Line::IsRoot(202, true),
        Line::IsRoot(201, false),
        Line::IsRoot(200, false),
        Line::NoBlossom(203),
        Line::NoDissolve(200, 25, 200),
        Line::NoDissolve(201, 25, 201),
        Line::NoDissolve(203, 25, 203),
        Line::NoShrink(200, &[3, 4, 5], 25, 200),
        // In at price 0; and out, but the last offer is at its bound.
        Line::NoAdjust(&[2, 2, 2, 2, 2, 2, 2, 1, 1, 1], 32, 202),
        Line::NoAdjust(&[1, 1, 1, 1, 1, 1, 1, 2, 1, 1], 33, 11),
        Line::Dissolve(202),
        Line::NoDissolve(200, 25, 200),
        Line::Dissolve(201),
        Line::Roots(&[200, 200, 200, 3, 4, 5, 6, 7, 8, 9]),
        Line::Dissolve(200),
        Line::Roots(&[0, 1, 2, 3, 4, 5, 6, 7, 8, 9]),
        Line::Prices(&[5, 9, 3, 7, 7, 5, 9, 11, 1, 1]),
        Line::Sums(1, 2, 28, 6),
    ];
    play(&rt, &mut board, &script)
}

// The path enters the outermost blossom at member 6, and leaves it at member 2 of the innermost.
#[test]
fn path_through_a_nest(rt: HostRuntime) -> Result<(), Fail> {
    let offers = nest();
    let mut board = Board::new(ListSource::new(10, &offers));
    play(&rt, &mut board, &opening())?;
    let partners = [
        Some(4),
        Some(2),
        Some(1),
        Some(5),
        Some(0),
        Some(3),
        Some(9),
        Some(8),
        Some(7),
        Some(6),
    ];
    let script = [
        Line::Shrink(2, &[0, 1, 2], 200),
        Line::Shrink(200, &[3, 4, 5], 201),
        Line::Shrink(201, &[6, 7, 8], 202),
        Line::NoAugment(9, &[11, 10, 9], 27, 1),
        Line::Augment(9, &[11, 9, 10]),
        Line::Partners(&partners),
        Line::Roots(&[202, 202, 202, 202, 202, 202, 202, 7, 8, 9]),
        Line::Ring(202, 0, &[(201, 6), (5, 7), (6, 8)]),
        Line::Sums(1, 0, 34, 5),
        Line::Dissolve(202),
        Line::Dissolve(201),
        Line::Dissolve(200),
        Line::Partners(&partners),
        Line::Prices(&[5, 9, 3, 7, 7, 5, 9, 11, 1, 1]),
    ];
    play(&rt, &mut board, &script)
}
