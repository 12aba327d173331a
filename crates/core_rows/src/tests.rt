ghost use Rattle.std.specs.Prelude.{◌≡◌};

use crate::{
    Row, law_rows_are_in_range, law_rows_differ, law_share_limit, noise, share_of, shipped,
    start_activity,
};

/// A row of which only the noise and the share matter.
fn row_with(noise: u32, share: i32) -> Row
    ensures { result.noise ≡ noise }
{
    Row {
        phase: false,
        unit: 1,
        weight: 1,
        halve: 1,
        noise,
        share,
    }
}

#[test]
fn rows_noise_and_limits_are_as_told(rt: HostRuntime) {
    let table = shipped();
    for (i, phase, unit, weight, halve, noise, share) in [
        (0, false, 100, 1, 256, 0, 0),
        (1, true, 100, 1, 256, 0, 0),
        (2, false, 50, 2, 128, 4, 0),
        (3, true, 50, 2, 128, 4, 0),
        (4, false, 200, 1, 512, 8, -2),
        (5, true, 200, 1, 512, 8, -2),
        (6, false, 30, 4, 64, 6, 2),
        (7, true, 30, 4, 64, 6, 2),
        (8, false, 400, 1, 1024, 10, -4),
        (9, true, 400, 1, 1024, 10, -4),
        (10, false, 75, 3, 200, 12, 4),
        (11, true, 75, 3, 200, 12, 4),
        (12, false, 150, 2, 300, 14, -1),
        (13, true, 150, 2, 300, 14, -1),
        (14, false, 25, 5, 50, 16, 1),
        (15, true, 25, 5, 50, 16, 1),
    ] {
        assert!(rt; i < 16);
        let row = Row {
            phase,
            unit,
            weight,
            halve,
            noise,
            share,
        };
        assert!(rt; table.row(i) == row);
    }
    for (seed, i, v, told) in [
        (0, 0, 0, 0xe220_a839_7b1d_cdaf),
        (1, 2, 3, 0x12e8_0ffc_fbbb_d251),
        (u64::MAX, u64::MAX, u64::MAX, 0x9011_e605_3017_523e),
    ] {
        assert_eq!(rt; noise(seed, i, v), told);
        assert_eq!(rt; start_activity(&row_with(16, 0), seed, i, v), told >> 48);
        assert_eq!(rt; start_activity(&row_with(0, 0), seed, i, v), 0);
    }
    for (share, asked, told) in [
        (4, 0, 0),
        (-4, 1, 1),
        (4, 64, 64),
        (-2, 8, 6),
        (i32::MIN, u32::MAX, 64),
    ] {
        assert_eq!(rt; share_of(&row_with(0, share), asked), told);
    }
    law_rows_differ(&table);
    law_rows_are_in_range();
    law_share_limit();
}
