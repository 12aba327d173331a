//! Laws of the definitions that contracts cite: functions that do nothing, whose contracts state them.
ghost use Rattle.std.specs.Prelude.{◌≡◌, ◌≢◌, ℕ, ℤ, pos, ◌+ℤ◌, ◌≤ℤ◌, ◌<ℤ◌};
ghost use Rattle.core_rows.specs.Rows.{DifferBelow, IsInRange, row_of};
ghost use Rattle.core_rows.specs.Share.{share_limit};

use crate::table::RowTable;

/// Two different indexes below `R` have different rows, in every table.
pub fn law_rows_differ<const R: usize>(table: &RowTable<R>)
    ensures { DifferBelow R table.now }
{
    // The read is for the checker alone, which then knows what always holds of a table.
    let _ = &table.rows;
}

/// Each row is in the ranges that `Row` gives.
pub fn law_rows_are_in_range()
    ensures { (i : ℕ) → IsInRange (row_of i) }
{}

/// The share limit is 0 where 0 was asked for. Else it is what was asked for with the row's share added, but 1 where
/// that is lower and 64 where it is higher.
pub fn law_share_limit()
    ensures none { (share : ℤ) → share_limit share 0 ≡ pos 0 }
    ensures sum { (share : ℤ) (e : ℕ) → e ≢ 0 → pos 1 ≤ℤ (pos e +ℤ share) → (pos e +ℤ share) ≤ℤ pos 64 →
        share_limit share e ≡ pos e +ℤ share }
    ensures least { (share : ℤ) (e : ℕ) → e ≢ 0 → (pos e +ℤ share) <ℤ pos 1 → share_limit share e ≡ pos 1 }
    ensures most { (share : ℤ) (e : ℕ) → e ≢ 0 → pos 64 <ℤ (pos e +ℤ share) → share_limit share e ≡ pos 64 }
{}
