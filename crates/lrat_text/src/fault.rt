use thiserror::Error;

/// Why a line of a proof was not read, with its number, counted from 1.
#[derive(Clone, Copy, Debug, PartialEq, Eq, Error)]
pub enum LineFault {
    /// A token that may not stand in its place, also one behind the last `0`.
    #[error("line {0}: BadToken")]
    BadToken(u64),
    /// The line ends before its last `0`.
    #[error("line {0}: Unclosed")]
    Unclosed(u64),
    /// A hint with a `-`, of a step that is no reverse unit propagation.
    #[error("line {0}: RatHint")]
    RatHint(u64),
    /// The line has more than 33,554,432 bytes.
    #[error("line {0}: LineTooLong")]
    LineTooLong(u64),
    /// The proof has more than 2^40 bytes.
    #[error("line {0}: ProofTooLong")]
    ProofTooLong(u64),
    /// Memory could not be had.
    #[error("out of memory")]
    NoMemory,
}

impl LineFault {
    ghost use Rattle.std.specs.Prelude.{◌≡◌};
    ghost use Rattle.lrat_text.specs.Faults.{line_of, name_of};

    /// The line of the fault, counted from 1; 0 for want of memory, which has none.
    pub fn line(self) -> u64
        ensures { result ≡ line_of self }
    {
        match self {
            LineFault::BadToken(line) => line,
            LineFault::Unclosed(line) => line,
            LineFault::RatHint(line) => line,
            LineFault::LineTooLong(line) => line,
            LineFault::ProofTooLong(line) => line,
            LineFault::NoMemory => 0,
        }
    }

    /// The name of the fault.
    pub fn name(self) -> &'static [u8]
        ensures { result.now ≡ name_of self }
    {
        match self {
            LineFault::BadToken(_) => b"BadToken",
            LineFault::Unclosed(_) => b"Unclosed",
            LineFault::RatHint(_) => b"RatHint",
            LineFault::LineTooLong(_) => b"LineTooLong",
            LineFault::ProofTooLong(_) => b"ProofTooLong",
            LineFault::NoMemory => b"NoMemory",
        }
    }
}

impl From<lit_base::NoMemory> for LineFault {
    ghost use Rattle.std.specs.Prelude.{◌≡◌};
    ghost use Rattle.lrat_text.specs.declared.fault.LineFault.TheVariants.{NoMemory};

    ghost from_gives = { λ _ fault. fault ≡ NoMemory };

    fn from(_error: lit_base::NoMemory) -> LineFault {
        LineFault::NoMemory
    }
}
