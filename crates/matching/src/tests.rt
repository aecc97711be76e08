use crate::theorems::{most_by_ratio, most_gap, most_inside, most_lead, own_pairs, start_price};

// A triangle of offers of 4 mm each, from before begin to floor 0.
#[test]
fn triangle(rt: HostRuntime) {
    assert_eq!(rt; most_gap(None, 3, 4, 0, 3), 4);
    assert_eq!(rt; most_gap(Some(1), 3, 4, 8, 3), 4);
    assert_eq!(rt; most_gap(Some(1), 3, 4, 3, 3), 4);
    assert_eq!(rt; most_gap(Some(1), 3, 4, 3, 1), 2);
    assert_eq!(rt; most_gap(Some(1), 3, 4, 1, 1), 1);
    assert_eq!(rt; most_gap(Some(1), 3, 4, 0, 1), 1);
    assert_eq!(rt; most_gap(Some(1), 0, 4, 8, 0), 0);
    assert_eq!(rt; most_lead(3, 3, 1, 1), 2);
    assert_eq!(rt; most_lead(3, 3, 3, 1), 8);
    assert_eq!(rt; most_by_ratio(4, 3), 12);
    assert_eq!(rt; most_inside(3), 1);
    assert_eq!(rt; start_price(1, 4), 8);
    assert_eq!(rt; own_pairs(3, 1), 1);
}
