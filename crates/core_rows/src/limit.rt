ghost use Rattle.std.specs.Prelude.{◌≡◌, ◌≤◌, pos};
ghost use Rattle.core_rows.specs.Share.{share_limit};

use crate::row::Row;

/// The share limit of a core with this row, where `e` is the limit that was asked for: 0 where `e`
/// is 0, and otherwise from 1 to 64.
pub fn share_of(row: &Row, e: u32) -> u32
    ensures value { pos result ≡ share_limit row.now.share e }
    ensures most { result ≤ 64 }
{
    if e == 0 {
        return 0;
    }
    let sum = i64::from(e) + i64::from(row.share);
    if sum < 1 {
        1
    } else if sum > 64 {
        64
    } else {
        sum as u32
    }
}
