// Lists of offers, coarse layers over them, and what is refused.
use crate::asked::{refusal, row, sizes, told};
use coarse::Coarse;
use sources::list_source;
use sources::list_source::ListSource;
use sources::offer::Offer;
use sources::pile::most_more;
use sources::source::Source;

// Of the first four offers.
fn rows<S: Source>(s: &S) -> [(u32, u32, u32, u32); 4] {
    [0, 1, 2, 3].map(|e| row(s, e))
}

#[test]
fn refusals(rt: HostRuntime) {
    let good = Offer::new(0, 199, 100_000);
    let sizes = [
        told(list_source::check_size(200)),
        told(list_source::check_size(201)),
        told(list_source::check(200, &[good; 4000])),
        told(list_source::check(201, &[good; 4001])),
        told(list_source::check(199, &[good; 4001])),
    ];
    assert_eq!(rt;
        sizes,
        [
            None,
            refusal(11, 201),
            None,
            refusal(11, 201),
            refusal(12, 4000),
        ]
    );
    let bad = [
        Offer::new(0, 1, 100_001),
        Offer::new(2, 0, 1),
        Offer::new(1, 1, 1),
        Offer::new(0, 3, 1),
    ];
    let offers = [
        told(list_source::check(2, &bad)),
        told(list_source::check(3, &bad)),
        told(list_source::check(3, &bad[3..])),
        told(list_source::check(3, &bad[..2])),
    ];
    assert_eq!(rt;
        offers,
        [
            refusal(13, 1),
            refusal(13, 2),
            refusal(13, 0),
            refusal(14, 0),
        ]
    );
    let ratios = [
        told(coarse::check(1, 1)),
        told(coarse::check(100_000, 100_000)),
        told(coarse::check(0, 1)),
        told(coarse::check(3, 2)),
        told(coarse::check(1, 100_001)),
    ];
    assert_eq!(rt;
        ratios,
        [None, None, refusal(18, 0), refusal(18, 0), refusal(18, 0)]
    );
}

#[test]
fn pile(rt: HostRuntime) {
    let offers = [
        Offer::new(0, 1, 1000),
        Offer::new(3, 2, 999),
        Offer::new(4, 5, 57),
    ];
    let list = ListSource::new(6, &offers);
    assert_eq!(rt; sizes(&list), (6, 3, 1000));
    assert_eq!(rt;
        rows(&list),
        [
            (0, 1, 1000, 1000),
            (3, 2, 999, 999),
            (4, 5, 57, 57),
            (0, 0, 0, 0),
        ]
    );
    assert_eq!(rt; [list.carry(2999), list.carry(3001)], [2999, 3000]);
    let tenths = Coarse::new(list, 3, 10);
    assert_eq!(rt; sizes(&tenths), (6, 3, 300));
    assert_eq!(rt; [tenths.carry(0), tenths.carry(2)], [9, 15]);
    let both = Coarse::new(tenths, 1, 100);
    assert_eq!(rt; sizes(&both), (6, 3, 3));
    assert_eq!(rt;
        rows(&both),
        [(0, 1, 3, 1000), (3, 2, 2, 999), (4, 5, 0, 57), (0, 0, 0, 0)]
    );
    assert_eq!(rt;
        [both.carry(0), most_more(&both, 2), both.carry(9)],
        [999, 1665, 3000]
    );
}

#[test]
fn makings(rt: HostRuntime) {
    let offers = [
        Offer::new(0, 1, 99),
        Offer::new(0, 1, 100),
        Offer::new(0, 1, 199),
    ];
    let metres = Coarse::new(ListSource::new(2, &offers), 1000, 100_000);
    assert_eq!(rt;
        [metres.shown(0), metres.shown(1), metres.shown(2)],
        [0, 1, 1]
    );
    let none = ListSource::new(201, &offers);
    assert_eq!(rt; sizes(&none), (0, 0, 0));
    assert_eq!(rt; rows(&none), [(0, 0, 0, 0); 4]);
    assert_eq!(rt; none.carry(5), 0);
    let zero = Coarse::new(ListSource::new(2, &offers), 0, 10);
    let above = Coarse::new(ListSource::new(2, &offers), 3, 2);
    let wide = Coarse::new(ListSource::new(2, &offers), 1, 100_001);
    assert_eq!(rt;
        [zero.shown(0), above.shown(0), wide.shown(0)],
        [99, 99, 99]
    );
    assert_eq!(rt;
        [zero.carry(7), above.carry(7), wide.carry(200)],
        [7, 7, 199]
    );
}
