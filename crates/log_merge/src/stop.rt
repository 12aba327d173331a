ghost use Rattle.std.specs.Prelude.{◌≡◌};
ghost use Rattle.log_merge.specs.declared.stop.Stop.TheVariants.{NoMemory as WantOfMemory};

use lit_base::NoMemory;

/// Why the writing of a part stopped.
#[derive(Clone, Copy, Debug, PartialEq, Eq)]
pub enum Stop {
    /// Memory ran out.
    NoMemory,
    /// The log could not be written. Its count of faults rose.
    WriteFault,
}

impl From<NoMemory> for Stop {
    ghost from_gives = { λ _ stop. stop ≡ WantOfMemory };

    fn from(_error: NoMemory) -> Stop {
        Stop::NoMemory
    }
}
