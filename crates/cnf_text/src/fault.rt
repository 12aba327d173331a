use std::alloc::AllocError;
use std::fmt;
use thiserror::Error;

/// What a text has more of than a formula may have.
#[derive(Clone, Copy, Debug, PartialEq, Eq)]
pub enum Which {
    /// More than 1,000,000 variables.
    Variables,
    /// More than 4,000,000 clauses.
    Clauses,
    /// More than 8,000,000 literals.
    Literals,
    /// More than 268,435,456 bytes.
    Bytes,
}

impl Which {
    ghost use Rattle.std.specs.Prelude.{◌≡◌};
    ghost use Rattle.cnf_text.specs.Faults.{limit_name};

    /// The name of the fault that there is too much of it.
    fn limit_name(self) -> &'static [u8]
        ensures { result.now ≡ limit_name self }
    {
        match self {
            Which::Variables => b"OverLimit Variables",
            Which::Clauses => b"OverLimit Clauses",
            Which::Literals => b"OverLimit Literals",
            Which::Bytes => b"OverLimit Bytes",
        }
    }
}

impl fmt::Display for Which {
    fn fmt<W: fmt::Write>(&self, f: &mut fmt::Formatter<W>) -> fmt::Result {
        f.write_str(match self {
            Which::Variables => "Variables",
            Which::Clauses => "Clauses",
            Which::Literals => "Literals",
            Which::Bytes => "Bytes",
        })
    }
}

/// Why no formula was read, with the line, counted from 1, of the token, byte or end where it shows.
#[derive(Clone, Copy, Debug, PartialEq, Eq, Error)]
pub enum CnfFault {
    /// The first token isn't `p`, or there is none.
    #[error("line {0}: NoHeader")]
    NoHeader(u64),
    /// The header line isn't `p cnf V C` with V and C digits.
    #[error("line {0}: BadHeader")]
    BadHeader(u64),
    /// A token after the header is no literal and no end of a clause; `-0` and `+1` are neither.
    #[error("line {0}: BadNumber")]
    BadNumber(u64),
    /// A literal's variable is above the header's V.
    #[error("line {0}: VariableAbove")]
    VariableAbove(u64),
    /// A literal or an end stands behind the last clause that the header says.
    #[error("line {0}: TooManyClauses")]
    TooManyClauses(u64),
    /// There are fewer clauses than the header says.
    #[error("line {0}: TooFewClauses")]
    TooFewClauses(u64),
    /// The last clause has no end.
    #[error("line {0}: Unclosed")]
    Unclosed(u64),
    /// A limit of the format is passed.
    #[error("line {1}: OverLimit {0}")]
    OverLimit(Which, u64),
    /// A token has more than 64 bytes.
    #[error("line {0}: TooLong")]
    TooLong(u64),
    /// Memory could not be had.
    #[error("out of memory")]
    NoMemory,
}

impl CnfFault {
    ghost use Rattle.std.specs.Prelude.{◌≡◌};
    ghost use Rattle.cnf_text.specs.Faults.{line_of, name_of};

    /// The line of the fault, counted from 1; 0 for want of memory, which has none.
    pub fn line(self) -> u64
        ensures { result ≡ line_of self }
    {
        match self {
            CnfFault::NoHeader(line) => line,
            CnfFault::BadHeader(line) => line,
            CnfFault::BadNumber(line) => line,
            CnfFault::VariableAbove(line) => line,
            CnfFault::TooManyClauses(line) => line,
            CnfFault::TooFewClauses(line) => line,
            CnfFault::Unclosed(line) => line,
            CnfFault::OverLimit(_, line) => line,
            CnfFault::TooLong(line) => line,
            CnfFault::NoMemory => 0,
        }
    }

    /// The name of the fault; for a limit `OverLimit` and what there is too much of.
    pub fn name(self) -> &'static [u8]
        ensures { result.now ≡ name_of self }
    {
        match self {
            CnfFault::NoHeader(_) => b"NoHeader",
            CnfFault::BadHeader(_) => b"BadHeader",
            CnfFault::BadNumber(_) => b"BadNumber",
            CnfFault::VariableAbove(_) => b"VariableAbove",
            CnfFault::TooManyClauses(_) => b"TooManyClauses",
            CnfFault::TooFewClauses(_) => b"TooFewClauses",
            CnfFault::Unclosed(_) => b"Unclosed",
            CnfFault::OverLimit(which, _) => which.limit_name(),
            CnfFault::TooLong(_) => b"TooLong",
            CnfFault::NoMemory => b"NoMemory",
        }
    }
}

impl From<lit_base::NoMemory> for CnfFault {
    ghost use Rattle.std.specs.Prelude.{◌≡◌};
    ghost use Rattle.cnf_text.specs.declared.fault.CnfFault.TheVariants.{NoMemory};

    ghost from_gives = { λ _ fault. fault ≡ NoMemory };

    fn from(_error: lit_base::NoMemory) -> CnfFault {
        CnfFault::NoMemory
    }
}

impl From<AllocError> for CnfFault {
    ghost use Rattle.std.specs.Prelude.{◌≡◌};
    ghost use Rattle.cnf_text.specs.declared.fault.CnfFault.TheVariants.{NoMemory};

    ghost from_gives = { λ _ fault. fault ≡ NoMemory };

    fn from(_error: AllocError) -> CnfFault {
        CnfFault::NoMemory
    }
}
