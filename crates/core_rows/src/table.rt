ghost use Rattle.std.specs.Prelude.{◌≡◌, ◌≢◌, ◌<◌, ℕ, slice_get, Some};
ghost use Rattle.core_rows.specs.Rows.{row_of};

use crate::row::Row;

/// A table of `R` rows, no two of them the same, seen by contracts as their list.
#[derive(Debug, Drop)]
pub struct RowTable<const R: usize> {
    pub(crate) rows: [Row; R],
}

impl<const R: usize> std::marker::Model for RowTable<R> {
    ghost use Rattle.std.specs.Prelude.{List};
    ghost use Rattle.core_rows.specs.declared.row.Row.{Row};
    ghost use Rattle.core_rows.specs.Rows.{DifferBelow};

    ghost Value = { List Row };

    ghost view = { λ table. table.rows };

    ghost invariant = { λ table. DifferBelow R table.rows };
}

impl<const R: usize> RowTable<R> {
    /// The row at `i`, counted from 0.
    pub fn row(&self, i: usize) -> Row
        requires { i < R }
        ensures value { slice_get self.now i ≡ Some result }
        ensures differs { (j : ℕ) → j < R → i ≢ j → slice_get self.now j ≢ Some result }
    {
        self.rows[i]
    }
}

// The rows of these settings, each as two: with phase false, and then with phase true.
macro_rules! both_phases {
    ($($unit:literal, $weight:literal, $halve:literal, $noise:literal, $share:expr;)*) => {
        [$(
            Row {
                phase: false,
                unit: $unit,
                weight: $weight,
                halve: $halve,
                noise: $noise,
                share: $share,
            },
            Row {
                phase: true,
                unit: $unit,
                weight: $weight,
                halve: $halve,
                noise: $noise,
                share: $share,
            },
        )*]
    };
}

/// The table of this program: unit, weight, halve, noise and share of two rows on each line.
pub fn shipped() -> RowTable<16>
    ensures { (i : ℕ) → i < 16 → slice_get result i ≡ Some (row_of i) }
{
    RowTable {
        rows: both_phases! {
            100, 1, 256, 0, 0;
            50, 2, 128, 4, 0;
            200, 1, 512, 8, -2;
            30, 4, 64, 6, 2;
            400, 1, 1024, 10, -4;
            75, 3, 200, 12, 4;
            150, 2, 300, 14, -1;
            25, 5, 50, 16, 1;
        },
    }
}
