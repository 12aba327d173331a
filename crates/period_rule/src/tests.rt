use crate::{law_next_period, next_period};

#[test]
fn periods_are_the_worked_ones(rt: HostRuntime) {
    for (a, v, m, period) in [
        (300, 100, 100, 300),
        (300, 50, 100, 450),
        (300, 0, 100, 600),
        (300, 3, 3, 300),
        (300, 2, 3, 400),
        (300, 0, 0, 300),
        (100_000, 1, 1 << 40, 199_999),
    ] {
        assert_eq!(rt; next_period(a, v, m), period, "at {a}, {v} and {m}");
    }
    law_next_period();
}
