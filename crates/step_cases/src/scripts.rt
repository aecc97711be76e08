// A sequence of steps and questions as a list, each with what the board has to answer.
use crate::looks::look_at;
use board::board::Board;
use faults::code::Code;
use faults::layers::BoardFault;
use sources::source::Source;
use std::fmt::Debug;
use std::process::Abort;
use std::test::Fail;

// Data, since a script stands in each test as it is read, and one place says what a line asks.
#[derive(Clone, Copy)]
pub(crate) enum Line<'a> {
    // Steps that are made; an adjust so many times.
    Begin(u32),
    Adjust(usize, &'a [u8]),
    Augment(usize, &'a [u16]),
    // With the number of the new blossom.
    Shrink(usize, &'a [u16], usize),
    Dissolve(usize),
    // Steps that are refused with this number and place, and leave the board what it was.
    NoAdjust(&'a [u8], u32, usize),
    NoAugment(usize, &'a [u16], u32, usize),
    NoShrink(usize, &'a [u16], u32, usize),
    NoDissolve(usize, u32, usize),
    // Of all members.
    Prices(&'a [u32]),
    Partners(&'a [Option<u32>]),
    Roots(&'a [usize]),
    // Floor, loose members, shown saving, slack.
    Sums(u32, usize, u64, u64),
    Ground(u64),
    // A blossom's price, and each part of its ring with the offer that joins it to the next.
    Ring(usize, u32, &'a [(u16, u16)]),
    NoBlossom(usize),
    IsRoot(usize, bool),
    NoMember(usize),
}

// In each crate of tests its own: it ends a test, which no library may.
fn refused<T: Drop>(rt: &impl Abort, answer: Result<T, BoardFault>, number: u32, place: usize) {
    let told = answer.err().map(Code::from);
    let expected = Code {
        layer: 3,
        number,
        place,
    };
    assert_eq!(rt; told, Some(expected));
}

// A step that is refused, and leaves the board what it was.
fn stays<S: Source + Drop, T: Drop, F: FnOnce(&mut Board<S>) -> Result<T, BoardFault>>(
    rt: &impl Abort,
    board: &mut Board<S>,
    step: F,
    number: u32,
    place: usize,
)
    requires { F.IsAlwaysCallable step }
{
    let before = look_at(board);
    refused(rt, step(board), number, place);
    assert_eq!(rt; look_at(board), before);
}

// What each member answers to a question.
fn answers_are<T: Copy + PartialEq + Debug + Drop, F: Fn(usize) -> Result<T, BoardFault>>(
    rt: &impl Abort,
    members: usize,
    question: F,
    answers: &[T],
) -> Result<(), Fail>
    requires { F.IsAlwaysCallable question }
{
    assert_eq!(rt; members, answers.len());
    for (member, answer) in answers.iter().enumerate() {
        assert_eq!(rt; question(member)?, *answer);
    }
    Ok(())
}

fn adjust<S: Source + Drop>(
    board: &mut Board<S>,
    times: usize,
    labels: &[u8],
) -> Result<(), BoardFault> {
    for _ in 0..times {
        board.adjust(labels)?;
    }
    Ok(())
}

fn ring_is<S: Source + Drop>(
    rt: &impl Abort,
    board: &Board<S>,
    node: usize,
    price: u32,
    ring: &[(u16, u16)],
) {
    assert_eq!(rt; board.blossom_price(node), Some(price));
    for (at, link) in ring.iter().enumerate() {
        assert_eq!(rt; board.link(node, at), Some(*link));
    }
    assert_eq!(rt; board.link(node, ring.len()), None);
}

fn no_blossom<S: Source + Drop>(rt: &impl Abort, board: &Board<S>, node: usize) {
    assert_eq!(rt; board.blossom_price(node), None);
    assert_eq!(rt; board.link(node, 0), None);
}

fn no_member<S: Source + Drop>(rt: &impl Abort, board: &Board<S>, member: usize) {
    refused(rt, board.price(member), 35, member);
    refused(rt, board.partner(member), 35, member);
    refused(rt, board.root(member), 35, member);
}

fn sums_are<S: Source + Drop>(
    rt: &impl Abort,
    board: &Board<S>,
    floor: u32,
    loose: usize,
    shown: u64,
    slack: u64,
) {
    assert_eq!(rt; board.floor(), floor);
    assert_eq!(rt; board.loose(), loose);
    assert_eq!(rt; board.shown(), shown);
    assert_eq!(rt; board.slack(), slack);
}

fn play_line<S: Source + Drop>(
    rt: &impl Abort,
    board: &mut Board<S>,
    line: Line<'_>,
) -> Result<(), Fail> {
    let members = board.members();
    match line {
        Line::Begin(k) => board.begin(k)?,
        Line::Adjust(times, labels) => adjust(board, times, labels)?,
        Line::Augment(root, offers) => board.augment(root, offers)?,
        Line::Shrink(root, offers, node) => {
            assert_eq!(rt; board.shrink(root, offers)?, node);
        }
        Line::Dissolve(node) => board.dissolve(node)?,
        Line::NoAdjust(labels, number, place) => {
            stays(rt, board, |board| board.adjust(labels), number, place)
        }
        Line::NoAugment(root, offers, number, place) => {
            stays(
                rt,
                board,
                |board| board.augment(root, offers),
                number,
                place,
            )
        }
        Line::NoShrink(root, offers, number, place) => {
            stays(rt, board, |board| board.shrink(root, offers), number, place)
        }
        Line::NoDissolve(node, number, place) => {
            stays(rt, board, |board| board.dissolve(node), number, place)
        }
        Line::Prices(prices) => answers_are(rt, members, |member| board.price(member), prices)?,
        Line::Partners(partners) => {
            answers_are(rt, members, |member| board.partner(member), partners)?
        }
        Line::Roots(roots) => answers_are(rt, members, |member| board.root(member), roots)?,
        Line::Sums(floor, loose, shown, slack) => sums_are(rt, board, floor, loose, shown, slack),
        Line::Ground(ground) => {
            assert_eq!(rt; board.ground(), ground);
        }
        Line::Ring(node, price, ring) => ring_is(rt, board, node, price, ring),
        Line::NoBlossom(node) => no_blossom(rt, board, node),
        Line::IsRoot(node, root) => {
            assert_eq!(rt; board.is_root(node), root);
        }
        Line::NoMember(member) => no_member(rt, board, member),
    }
    Ok(())
}

pub(crate) fn play<S: Source + Drop>(
    rt: &impl Abort,
    board: &mut Board<S>,
    script: &[Line<'_>],
) -> Result<(), Fail> {
    for line in script {
        play_line(rt, board, *line)?;
    }
    Ok(())
}
