// Boards over lists and over piles of layers.
use board::board::Board;
use coarse::Coarse;
use faults::code::Code;
use faults::layers::BoardFault;
use lengths::length_source::LengthSource;
use sources::list_source::ListSource;
use sources::offer::Offer;
use sources::source::Source;
use std::process::Abort;
use std::test::Fail;

// In each crate of tests its own: it ends a test, which no library may.
fn refused<T: Drop>(rt: &impl Abort, answer: Result<T, BoardFault>, number: u32, place: usize) {
    let told = answer.err().map(Code::from);
    let expected = Code {
        layer: 3,
        number,
        place,
    };
    assert_eq!(rt; told, Some(expected));
}

#[test]
fn triangle(rt: HostRuntime) -> Result<(), Fail> {
    let offers = [
        Offer::new(0, 1, 4),
        Offer::new(0, 2, 4),
        Offer::new(1, 2, 4),
    ];
    let mut board = Board::new(ListSource::new(3, &offers));
    assert_eq!(rt; board.slack(), 4);
    assert_eq!(rt; board.begun(), None);
    assert_eq!(rt; board.floor(), 0);
    refused(&rt, board.begin(0), 23, 0);
    refused(&rt, board.begin(33), 23, 33);
    assert_eq!(rt; board.begun(), None);
    board.begin(1)?;
    assert_eq!(rt; board.begun(), Some(1));
    assert_eq!(rt; board.floor(), 8);
    assert_eq!(rt; board.slack(), 4);
    assert_eq!(rt; board.price(2)?, 8);
    assert_eq!(rt; board.partner(2)?, None);
    refused(&rt, board.price(3), 35, 3);
    refused(&rt, board.partner(3), 35, 3);
    // A begun board is told first, whatever the k.
    refused(&rt, board.begin(40), 22, 0);
    let plan = board.release();
    assert_eq!(rt; plan.members, 3);
    assert_eq!(rt; plan.slack, 4);
    assert_eq!(rt; plan.floor, 8);
    assert_eq!(rt; plan.loose, 3);
    Ok(())
}

#[test]
fn tops(rt: HostRuntime) -> Result<(), Fail> {
    let offers = [Offer::new(0, 1, 1001)];
    let mut high = Board::new(ListSource::new(2, &offers));
    refused(&rt, high.begin(0), 23, 0);
    refused(&rt, high.begin(32), 24, 1001);
    Ok(())
}

#[test]
fn nobody(rt: HostRuntime) -> Result<(), Fail> {
    let mut empty = Board::new(ListSource::new(0, &[]));
    assert_eq!(rt; empty.slack(), 0);
    empty.begin(32)?;
    assert_eq!(rt; empty.slack(), 0);
    refused(&rt, empty.price(0), 35, 0);
    Ok(())
}

// Savings of 99, 100 and 199 over a hundredth, and half of that again.
#[test]
fn pile(rt: HostRuntime) -> Result<(), Fail> {
    let offers = [
        Offer::new(0, 1, 99),
        Offer::new(2, 3, 100),
        Offer::new(4, 5, 199),
        Offer::new(0, 5, 400),
    ];
    let list = ListSource::new(6, &offers);
    let coarse = Coarse::new(Coarse::new(list, 1000, 100_000), 1, 2);
    let mut board = Board::new(coarse);
    // Shown are 0, 0, 0 and 2. The gap is 3 × 2 = 6; below a half it is (2 × 6 + 3), cut to 3 × 4 = 12; below a
    // hundredth it is (100,000 × 12 + 99,999 × 3)/1000 = 1499, cut to 3 × 400 = 1200.
    assert_eq!(rt; board.slack(), 1200);
    board.begin(8)?;
    assert_eq!(rt; board.floor(), 32);
    assert_eq!(rt; board.slack(), 1200);
    assert_eq!(rt; board.release().ground, 0);
    Ok(())
}

// Several offenders: the lowest member, then the lowest offer is told, and nothing moves.
#[test]
fn adjusts(rt: HostRuntime) -> Result<(), Fail> {
    let offers = [
        Offer::new(2, 3, 1),
        Offer::new(4, 5, 6),
        Offer::new(0, 1, 2),
        Offer::new(1, 4, 6),
        Offer::new(3, 5, 5),
    ];
    let mut board = Board::new(ListSource::new(6, &offers));
    refused(&rt, board.adjust(&[1; 6]), 21, 0);
    board.begin(1)?;
    assert_eq!(rt; board.floor(), 12);
    refused(&rt, board.adjust(&[1; 5]), 30, 5);
    refused(&rt, board.adjust(&[1; 7]), 30, 7);
    refused(&rt, board.adjust(&[1, 1, 3, 1, 0, 2]), 30, 2);
    refused(&rt, board.adjust(&[1, 0, 1, 1, 255, 1]), 30, 1);
    // W of the offers is 2, 12, 4, 12 and 10: at prices of 5 the second is at W - 2.
    for _ in 0..7 {
        board.adjust(&[1; 6])?;
    }
    assert_eq!(rt; board.floor(), 5);
    assert_eq!(rt; board.price(5)?, 5);
    refused(&rt, board.adjust(&[1; 6]), 33, 1);
    refused(&rt, board.adjust(&[1, 1, 1, 1, 2, 1]), 30, 4);
    assert_eq!(rt; board.floor(), 5);
    assert_eq!(rt; board.price(0)?, 5);
    // P × top is 3 × 6, and (2 × 3 + 5 × 6)/2 is the same.
    assert_eq!(rt; board.slack(), 18);
    Ok(())
}

// Without offers the floor comes down to 0, and stays.
#[test]
fn floors(rt: HostRuntime) -> Result<(), Fail> {
    let mut board = Board::new(ListSource::new(0, &[]));
    board.begin(3)?;
    assert_eq!(rt; board.floor(), 0);
    refused(&rt, board.adjust(&[]), 31, 0);
    refused(&rt, board.adjust(&[1]), 30, 1);
    Ok(())
}

// Lengths under a coarse layer: savings of 2000, 0 and 0, shown as 200, 0 and 0.
#[test]
fn lengths_on_a_board(rt: HostRuntime) -> Result<(), Fail> {
    let lengths = [1900, 1900, 2500];
    let stock = [3000, 4000, 6000];
    let mut board = Board::new(Coarse::new(LengthSource::new(&lengths, &stock, 4), 1, 10));
    assert_eq!(rt; board.members(), 3);
    // The top is 600 of 6000; one pair: (10 × 600 + 9)/1, cut to 6000.
    assert_eq!(rt; board.slack(), 6000);
    board.begin(2)?;
    assert_eq!(rt; board.floor(), 2400);
    assert_eq!(rt; board.slack(), 6000);
    let plan = board.release();
    assert_eq!(rt; plan.members, 3);
    assert_eq!(rt; plan.loose, 3);
    Ok(())
}
