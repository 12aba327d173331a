ghost use Rattle.std.specs.Prelude.{◌<◌, length};
ghost use Rattle.desk_io.specs.Told.{InputsTold};
ghost use Rattle.desk_io.specs.Inputs.{Begins, Reads};

use crate::{Failed, Slot};

/// The sources of bytes. A slot counts its faults and its calls of `begin`; a count stands still at
/// `u64::MAX`. A call on one slot leaves the other as it was.
pub trait Inputs {
    ghost told: { Self → InputsTold };

    /// Opens the slot at the first byte of what it holds under `name`, in place of what was open
    /// there, also where the answer is `Failed`.
    fn begin(&mut self, slot: Slot, name: &str) -> Result<(), Failed>
        ensures { Begins slot name.now (told self.old) (told self.new) result };

    /// Reads at least one byte and at most `buf.len()` into the front of `buf`, and answers how
    /// many. `Ok(0)` is the end. What stands behind them in `buf` is left open.
    fn read(&mut self, slot: Slot, buf: &mut [u8]) -> Result<usize, Failed>
        requires { 0 < length buf.old }
        ensures { Reads slot buf.new (told self.old) (told self.new) result };
}
