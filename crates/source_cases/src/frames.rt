// Frames of lengths, what two members save, and what is refused.
use crate::asked::{refusal, row, sizes, told};
use coarse::Coarse;
use faults::code::Code;
use lengths::length_source::LengthSource;
use numbering::{members_of, number_of};
use sources::source::Source;
use stock::saving;

const STOCK: [u32; 3] = [3000, 4000, 6000];

fn checked(lengths: &[u32], stock: &[u32], cut: u32) -> Option<Code> {
    told(cutlist::check(lengths, stock, cut))
}

#[test]
fn refusals(rt: HostRuntime) {
    let counts = [
        checked(&[1; 89], &STOCK, 20),
        checked(&[0; 90], &[], 21),
        checked(&[0; 89], &[], 21),
        checked(
            &[0; 2],
            &[6, 5, 4, 3, 2, 1, 0, 0, 0, 0, 0, 0, 0, 0, 0, 0, 0],
            21,
        ),
    ];
    assert_eq!(rt;
        counts,
        [None, refusal(11, 90), refusal(15, 0), refusal(15, 16)]
    );
    let stock = [
        checked(&[0], &[50_001], 21),
        checked(&[0], &[3000, 4000, 4000], 21),
        checked(&[1], &[0, 50_000], 0),
        checked(&[0], &[0], 21),
    ];
    assert_eq!(rt;
        stock,
        [refusal(15, 0), refusal(15, 2), None, refusal(16, 0)]
    );
    let lengths = [
        checked(&[6000, 6001, 0], &STOCK, 21),
        checked(&[6000, 1, 0], &STOCK, 0),
        checked(&[6000, 1], &STOCK, 21),
        checked(&[], &STOCK, 20),
    ];
    assert_eq!(rt;
        lengths,
        [refusal(16, 1), refusal(16, 2), refusal(17, 21), None]
    );
}

#[test]
fn savings(rt: HostRuntime) {
    let savings = [
        saving(&STOCK, 4, 1900, 1900),
        saving(&STOCK, 4, 2000, 1996),
        saving(&STOCK, 4, 2000, 2000),
        saving(&STOCK, 4, 5000, 1000),
        saving(&STOCK, 4, 100, 100),
        saving(&STOCK, 4, 100, 7000),
        saving(&[10, 1000], 4, 6, 6),
    ];
    assert_eq!(rt; savings, [2000, 2000, 0, 0, 3000, 0, 0]);
    let numbers = [
        number_of(0, 1),
        number_of(2, 3),
        number_of(87, 88),
        number_of(1, 1),
        number_of(0, 89),
    ];
    assert_eq!(rt; numbers, [Some(0), Some(5), Some(3915), None, None]);
    let members = [
        members_of(4, 5),
        members_of(89, 3915),
        members_of(4, 6),
        members_of(89, 3916),
        members_of(90, 0),
    ];
    assert_eq!(rt; members, [Some((2, 3)), Some((87, 88)), None, None, None]);
}

#[test]
fn frame(rt: HostRuntime) {
    let lengths = [1900, 1900, 2000, 1996];
    let frame = LengthSource::new(&lengths, &STOCK, 4);
    assert_eq!(rt; sizes(&frame), (4, 6, 6000));
    assert_eq!(rt;
        [row(&frame, 0), row(&frame, 5), row(&frame, 6)],
        [(0, 1, 2000, 2000), (2, 3, 2000, 2000), (0, 0, 0, 0)]
    );
    assert_eq!(rt;
        [frame.carry(11_999), frame.carry(12_001)],
        [11_999, 12_000]
    );
    let metres = Coarse::new(frame, 1, 1500);
    assert_eq!(rt; sizes(&metres), (4, 6, 4));
    assert_eq!(rt; row(&metres, 5), (2, 3, 1, 2000));
    assert_eq!(rt; metres.carry(0), 2998);
}

// Sizes, the first offer, and carry of 5.
fn made(lengths: &[u32], cut: u32) -> ((usize, usize, u32), (u32, u32, u32, u32), u64) {
    let s = LengthSource::new(lengths, &STOCK, cut);
    (sizes(&s), row(&s, 0), s.carry(5))
}

#[test]
fn makings(rt: HostRuntime) {
    let lengths = [1; 89];
    assert_eq!(rt;
        made(&lengths, 20),
        ((89, 3916, 6000), (0, 1, 3000, 3000), 5)
    );
    assert_eq!(rt; made(&lengths, 21), ((0, 0, 0), (0, 0, 0, 0), 0));
}
