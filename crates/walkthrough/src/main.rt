// Takes one task from start to finish, and prints each action with what it answered. Another program prints alike, with functions
// of its own: a library of functions that print would have nothing to promise.
#![tactic(auto)]

use board::board::Board;
use coarse::Coarse;
use faults::code::Code;
use faults::layers::BoardFault;
use plan::plan::Plan;
use report::write_plan;
use sources::list_source::ListSource;
use sources::offer::Offer;
use sources::source::Source;
use std::io;

// Three members, each two of which may share a billet.
const TRIANGLE: [Offer; 3] = [
    Offer {
        first: 0,
        second: 1,
        saving: 4,
    },
    Offer {
        first: 0,
        second: 2,
        saving: 4,
    },
    Offer {
        first: 1,
        second: 2,
        saving: 4,
    },
];

fn show_refusal(rt: &HostRuntime, action: &str, fault: BoardFault) -> io::Result<()> {
    println!(rt; "{action}: (refused {})", Code::from(fault))
}

fn show_answer(rt: &HostRuntime, action: &str, answer: Result<(), BoardFault>) -> io::Result<()> {
    match answer {
        Ok(()) => println!(rt; "{action}: done"),
        Err(fault) => show_refusal(rt, action, fault),
    }
}

fn show_partner(
    rt: &HostRuntime,
    action: &str,
    answer: Result<Option<u32>, BoardFault>,
) -> io::Result<()> {
    match answer {
        Ok(Some(partner)) => println!(rt; "{action}: {partner}"),
        Ok(None) => println!(rt; "{action}: nobody"),
        Err(fault) => show_refusal(rt, action, fault),
    }
}

fn show_board<S: Source + Drop>(rt: &HostRuntime, board: &Board<S>) -> io::Result<()> {
    println!(rt;
        "  floor {}, loose {}, slack {}",
        board.floor(),
        board.loose(),
        board.slack()
    )?;
    // By number: a board answers of one member at a time.
    for member in 0..board.members() {
        if let Ok(price) = board.price(member) {
            println!(rt; "  price of {member}: {price}")?;
        }
    }
    Ok(())
}

fn show_plan(rt: &HostRuntime, plan: &Plan) -> io::Result<()> {
    let mut text = [0; 4096];
    if let Ok(len) = write_plan(plan, &mut text)
        && let Some(written) = text.get(..len)
    {
        rt.write_all(written)?;
    }
    Ok(())
}

// Shows a board of the triangle as it is made.
fn open<S: Source + Drop>(rt: &HostRuntime, board: &Board<S>) -> io::Result<()> {
    println!(rt; "make a board of 3 members and 3 offers of 4 mm, coarse 1 over 1")?;
    show_board(rt, board)
}

// Brings the prices down until each offer may be paired.
fn lower<S: Source + Drop>(rt: &HostRuntime, board: &mut Board<S>) -> io::Result<()> {
    show_answer(rt, "begin with k = 40", board.begin(40))?;
    show_answer(rt, "begin with k = 1", board.begin(1))?;
    show_board(rt, board)?;
    show_answer(rt, "begin with k = 1", board.begin(1))?;
    for _ in 0..5 {
        show_answer(rt, "adjust out, out, out", board.adjust(&[1, 1, 1]))?;
    }
    show_board(rt, board)?;
    show_answer(rt, "adjust out, out, out", board.adjust(&[1, 1, 1]))?;
    show_answer(rt, "adjust out, in, out", board.adjust(&[1, 2, 1]))?;
    show_board(rt, board)
}

// Asks for two partners.
fn close<S: Source + Drop>(rt: &HostRuntime, board: &Board<S>) -> io::Result<()> {
    show_partner(rt, "partner of 2", board.partner(2))?;
    show_partner(rt, "partner of 3", board.partner(3))
}

// The board is made and released here, and lent to the rest: it holds its tables, and each move would copy them.
fn main(rt: HostRuntime) -> io::Result<()> {
    let mut board = Board::new(Coarse::new(ListSource::new(3, &TRIANGLE), 1, 1));
    open(&rt, &board)?;
    lower(&rt, &mut board)?;
    close(&rt, &board)?;
    let plan = board.release();
    println!(rt; "release")?;
    show_plan(&rt, &plan)
}
