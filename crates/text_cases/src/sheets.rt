// Sheets that are read, and sheets that are refused.
use faults::fault::Fault;
use faults::layers::{SheetFault, SourceFault};
use sheet::reader::{Sheet, read};
use sources::offer::Offer;
use std::test::Fail;

const EMPTY: Offer = Offer {
    first: 9,
    second: 9,
    saving: 9,
};

// The line that is no form or out of order.
fn bad_line(text: &[u8]) -> Option<usize> {
    let mut slots = [EMPTY; 2];
    match read(text, &mut slots) {
        Err(Fault::Sheet(SheetFault::BadForm(line))) => Some(line),
        _ => None,
    }
}

// What is refused about the source.
fn refused(text: &[u8]) -> Option<SourceFault> {
    let mut slots = [EMPTY; 2];
    match read(text, &mut slots) {
        Err(Fault::Source(fault)) => Some(fault),
        _ => None,
    }
}

#[test]
fn good_sheets(rt: HostRuntime) -> Result<(), Fail> {
    let mut slots = [EMPTY; 3];
    let text = b"(frame 4 2)\n(coarse 1 10)\n(offer (0 1) 70)\n(offer (3 2) 100000)\n";
    assert_eq!(rt;
        read(text, &mut slots)?,
        Sheet {
            members: 4,
            k: 2,
            x: 1,
            whole: 10,
            offers: 2,
        }
    );
    assert_eq!(rt;
        slots,
        [Offer::new(0, 1, 70), Offer::new(3, 2, 100_000), EMPTY]
    );
    assert_eq!(rt;
        read(b"(frame 0 999999)\n(coarse 1 1)\n", &mut slots)?.offers,
        0
    );
    Ok(())
}

#[test]
fn bad_lines(rt: HostRuntime) {
    assert_eq!(rt; bad_line(b""), Some(1));
    assert_eq!(rt; bad_line(b"\n"), Some(1));
    assert_eq!(rt; bad_line(b"(frame 4 2)"), Some(1));
    assert_eq!(rt; bad_line(b"(frame 4  2)\n"), Some(1));
    assert_eq!(rt; bad_line(b"(frame 04 2)\n"), Some(1));
    assert_eq!(rt; bad_line(b"(frame 4 1000000)\n"), Some(1));
    assert_eq!(rt; bad_line(b"(Frame 4 2)\n"), Some(1));
    assert_eq!(rt; bad_line(b"(frame 4 2) \n"), Some(1));
    assert_eq!(rt; bad_line(b"(frame 4 2)\r\n"), Some(1));
    assert_eq!(rt; bad_line(b"(frames 4 2)\n"), Some(1));
}

#[test]
fn lines_out_of_order(rt: HostRuntime) {
    assert_eq!(rt; bad_line(b"(coarse 1 10)\n"), Some(1));
    assert_eq!(rt; bad_line(b"(frame 4 2)\n"), Some(2));
    assert_eq!(rt; bad_line(b"(frame 4 2)\n(offer (0 1) 7)\n"), Some(2));
    assert_eq!(rt;
        bad_line(b"(frame 4 2)\n(coarse 1 10)\n(frame 4 2)\n"),
        Some(3)
    );
    assert_eq!(rt;
        bad_line(b"(frame 4 2)\n(coarse 1 10)\n(offer (0 1) 7)\n(offer (0 1) 00)\n"),
        Some(4)
    );
}

#[test]
fn bad_numbers(rt: HostRuntime) {
    assert_eq!(rt;
        refused(b"(frame 201 2)\n(coarse 0 10)\n"),
        Some(SourceFault::TooManyMembers(201))
    );
    assert_eq!(rt;
        refused(b"(frame 4 2)\n(coarse 0 10)\n\n"),
        Some(SourceFault::BadRatio)
    );
    assert_eq!(rt;
        refused(b"(frame 4 2)\n(coarse 1 1)\n(offer (0 1) 7)\n(offer (0 4) 7)\n"),
        Some(SourceFault::BadMember(1))
    );
    assert_eq!(rt;
        refused(b"(frame 4 2)\n(coarse 1 1)\n(offer (0 1) 100001)\n(offer (2 2) 7)\n"),
        Some(SourceFault::BadMember(1))
    );
    assert_eq!(rt;
        refused(b"(frame 4 2)\n(coarse 1 1)\n(offer (0 1) 100001)\n"),
        Some(SourceFault::HighSaving(0))
    );
    assert_eq!(rt;
        refused(b"(frame 4 2)\n(coarse 1 1)\n(offer (0 1) 7)\n(offer (0 1) 7)\n(offer (9 9) 7)\n"),
        Some(SourceFault::TooManyOffers(2))
    );
}

#[test]
fn slots_after_a_refusal(rt: HostRuntime) {
    let mut slots = [EMPTY; 3];
    let text = b"(frame 4 2)\n(coarse 1 10)\n(offer (0 1) 70)\n(offer (8 8) 5)\noffer\n";
    assert_eq!(rt;
        read(text, &mut slots),
        Err(Fault::Sheet(SheetFault::BadForm(5)))
    );
    assert_eq!(rt; slots, [Offer::new(0, 1, 70), Offer::new(8, 8, 5), EMPTY]);
}

// A head and then offers, of 16 bytes each, to the end of the text.
fn fill(text: &mut [u8]) {
    let head = b"(frame 2 2)\n(coarse 1 2)\n";
    let line = b"(offer (0 1) 5)\n";
    let letters = head.iter().chain(line.iter().cycle());
    for (place, letter) in text.iter_mut().zip(letters) {
        *place = *letter;
    }
}

// What is read of the first bytes of such a text.
fn long_sheet(len: usize) -> Result<Sheet, Fault> {
    let mut slots = [EMPTY; 4100];
    let mut text = [0; 65_536];
    fill(&mut text);
    let end = len.min(65_536);
    read(&text[..end], &mut slots)
}

#[test]
fn long_sheets(rt: HostRuntime) -> Result<(), Fail> {
    let full = Err(Fault::Source(SourceFault::TooManyOffers(4000)));
    assert_eq!(rt; long_sheet(64_025)?.offers, 4000);
    assert_eq!(rt; long_sheet(64_041), full);
    assert_eq!(rt; long_sheet(65_535), full);
    assert_eq!(rt; long_sheet(65_536), Err(Fault::Sheet(SheetFault::TooLong)));
    Ok(())
}
