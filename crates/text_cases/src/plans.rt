// Answers byte for byte, a buffer that is too short, and plans that are the same or not.
use faults::code::Code;
use faults::fault::Fault;
use faults::layers::{BoardFault, SheetFault};
use plan::plan::Plan;
use report::{write_plan, write_refusal};
use std::process::Abort;
use std::test::Fail;

const SMALL_TEXT: &[u8] = b"(plan 70 71 0 9 2)\n(pair (0 4))\n(pair (1 3))\n(loose 2)\n(loose 5)\n";

fn small() -> Plan {
    let mut partners = [None; 200];
    partners[0] = Some(4);
    partners[1] = Some(3);
    partners[3] = Some(1);
    partners[4] = Some(0);
    Plan {
        members: 6,
        shown: 70,
        ground: 71,
        slack: 0,
        floor: 9,
        loose: 2,
        partners,
    }
}

// The text, and sevens after it.
fn filled(text: &[u8]) -> [u8; 100] {
    let mut bytes = [7; 100];
    if text.len() <= 100 {
        bytes[..text.len()].copy_from_slice(text);
    }
    bytes
}

// With just enough room, and with more.
fn fits(rt: &impl Abort, plan: &Plan, text: &[u8]) -> Result<(), Fail> {
    let mut exact = [7; 100];
    assert!(rt; text.len() <= 100);
    assert_eq!(rt; write_plan(plan, &mut exact[..text.len()])?, text.len());
    assert_eq!(rt; exact, filled(text));
    let mut longer = [7; 100];
    assert_eq!(rt; write_plan(plan, &mut longer)?, text.len());
    assert_eq!(rt; longer, filled(text));
    Ok(())
}

// With one byte too few.
fn refused(rt: &impl Abort, plan: &Plan, text: &[u8]) {
    let mut buffer = [7; 100];
    assert!(rt; text.len() > 0 && text.len() <= 100);
    let told = write_plan(plan, &mut buffer[..text.len() - 1])
        .err()
        .map(Code::from);
    let expected = Code {
        layer: 1,
        number: 4,
        place: text.len(),
    };
    assert_eq!(rt; told, Some(expected));
    assert_eq!(rt; buffer, [7; 100]);
}

#[test]
fn answers(rt: HostRuntime) -> Result<(), Fail> {
    fits(&rt, &small(), SMALL_TEXT)?;
    refused(&rt, &small(), SMALL_TEXT);
    let wide = Plan {
        members: 0,
        shown: 18446744073709551615,
        ground: 9,
        slack: 10,
        floor: 0,
        loose: 0,
        partners: [None; 200],
    };
    fits(&rt, &wide, b"(plan 18446744073709551615 9 10 0 0)\n")?;
    let mut buffer = [7; 20];
    assert_eq!(rt;
        write_refusal(Fault::Board(BoardFault::BadK(40)), &mut buffer)?,
        18
    );
    assert_eq!(rt; buffer, *b"(refused 3 23 40)\n\x07\x07");
    Ok(())
}

#[test]
fn sameness(rt: HostRuntime) {
    let plan = small();
    let mut other = small();
    other.shown = 0;
    other.slack = 5;
    other.partners[6] = Some(1);
    assert!(rt; plan == other);
    other.partners[5] = Some(2);
    assert!(rt; plan != other);
    let mut fewer = small();
    fewer.members = 5;
    assert!(rt; plan != fewer);
}
