// Sheets and the texts that answer them.
use answer::answer;
use faults::code::Code;
use sources::offer::Offer;
use std::process::Abort;
use std::test::Fail;

// Three slots for offers, so that a fourth is refused.
fn says(rt: &impl Abort, sheet: &[u8], expected: &[u8]) -> Result<(), Fail> {
    let mut slots = [Offer::default(); 3];
    let mut text = [0u8; 128];
    let len = answer(sheet, &mut slots, &mut text)?;
    assert_eq!(rt; text.get(..len), Some(expected));
    Ok(())
}

#[test]
fn plans(rt: HostRuntime) -> Result<(), Fail> {
    says(
        &rt,
        b"(frame 2 1)\n(coarse 1 1)\n(offer (0 1) 3)\n",
        b"(plan 0 0 3 6 2)\n(loose 0)\n(loose 1)\n",
    )?;
    says(&rt, b"(frame 0 32)\n(coarse 1 1)\n", b"(plan 0 0 0 0 0)\n")?;
    // Half of 3 and of 5 shows 1 and 2. The gap is 2 × 2, and that of the savings themselves (2 × 4 + 1 × 2)/1 = 2 × 5.
    says(
        &rt,
        b"(frame 4 2)\n(coarse 1 2)\n(offer (0 1) 3)\n(offer (3 2) 5)\n",
        b"(plan 0 0 10 8 4)\n(loose 0)\n(loose 1)\n(loose 2)\n(loose 3)\n",
    )
}

#[test]
fn refusals_at_a_line(rt: HostRuntime) -> Result<(), Fail> {
    let cases: [(&[u8], &[u8]); 12] = [
        (b"", b"(refused 1 2 1)\n"),
        (b"(frame 2 1)\n", b"(refused 1 2 2)\n"),
        (b"(frame 2 1)\n(coarse 1 1)", b"(refused 1 2 2)\n"),
        (b"(coarse 1 1)\n", b"(refused 1 2 1)\n"),
        (
            b"(frame 2 1)\n(coarse 1 1)\n(frame 2 1)\n",
            b"(refused 1 2 3)\n",
        ),
        (b"(frame 02 1)\n(coarse 1 1)\n", b"(refused 1 2 1)\n"),
        (b"(frame 2  1)\n(coarse 1 1)\n", b"(refused 1 2 1)\n"),
        (b"(frame 2 1000000)\n", b"(refused 1 2 1)\n"),
        (b"(frame 201 1)\n(coarse 0 1)\n", b"(refused 2 11 201)\n"),
        (b"(frame 2 1)\n(coarse 0 1)\n()\n", b"(refused 2 18 0)\n"),
        (b"(frame 2 1)\n(coarse 2 1)\n", b"(refused 2 18 0)\n"),
        (b"(frame 2 1)\n(coarse 1 100001)\n", b"(refused 2 18 0)\n"),
    ];
    for (sheet, text) in cases {
        says(&rt, sheet, text)?;
    }
    Ok(())
}

#[test]
fn refusals_after_the_last_line(rt: HostRuntime) -> Result<(), Fail> {
    let cases: [(&[u8], &[u8]); 6] = [
        (
            b"(frame 3 1)\n(coarse 1 1)\n(offer (0 1) 100001)\n(offer (0 3) 1)\n(offer (1 1) 1)\n",
            b"(refused 2 13 1)\n",
        ),
        (
            b"(frame 3 1)\n(coarse 1 1)\n(offer (0 1) 100000)\n(offer (0 2) 100001)\n",
            b"(refused 2 14 1)\n",
        ),
        (
            b"(frame 2 1)\n(coarse 1 1)\n(offer (0 1) 1)\n(offer (0 1) 1)\n(offer (0 1) 1)\n(offer (0 9) 1)\n",
            b"(refused 2 12 3)\n",
        ),
        (
            b"(frame 2 40)\n(coarse 1 1)\n(offer (0 1) 3)\n",
            b"(refused 3 23 40)\n",
        ),
        (
            b"(frame 2 0)\n(coarse 1 1)\n(offer (0 1) 1001)\n",
            b"(refused 3 23 0)\n",
        ),
        (
            b"(frame 2 1)\n(coarse 1 1)\n(offer (0 1) 1001)\n",
            b"(refused 3 24 1001)\n",
        ),
    ];
    for (sheet, text) in cases {
        says(&rt, sheet, text)?;
    }
    Ok(())
}

#[test]
fn limits(rt: HostRuntime) -> Result<(), Fail> {
    let long = [b'('; 65_536];
    says(&rt, &long, b"(refused 1 1 0)\n")?;
    says(&rt, &long[..65_535], b"(refused 1 2 1)\n")?;
    let sheet = b"(frame 3 1)\n(coarse 1 1)\n(offer (0 1) 7)\n(offer (0 7) 8)\n(offer 0 1)\n";
    let mut slots = [Offer::default(); 3];
    let mut text = [9u8; 16];
    assert_eq!(rt; answer(sheet, &mut slots, &mut text)?, 16);
    assert_eq!(rt; text, *b"(refused 1 2 5)\n");
    assert_eq!(rt;
        slots,
        [Offer::new(0, 1, 7), Offer::new(0, 7, 8), Offer::default()]
    );
    let mut short = [9u8; 15];
    let told = answer(sheet, &mut slots, &mut short).err().map(Code::from);
    let expected = Code {
        layer: 1,
        number: 4,
        place: 16,
    };
    assert_eq!(rt; told, Some(expected));
    assert_eq!(rt; short, [9u8; 15]);
    Ok(())
}
