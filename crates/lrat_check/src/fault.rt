use thiserror::Error;

/// Why a proof doesn't check: its first fault, with the number of the line as the reader told it and, where there is one,
/// the place on that line of the hint or of the id to be deleted, from 1.
#[derive(Clone, Copy, Debug, PartialEq, Eq, Error)]
pub enum CheckFault {
    /// The id of an addition isn't above those of all originals and all earlier additions.
    #[error("line {0}: IdNotRising")]
    IdNotRising(u64),
    /// A hint isn't the id of a live clause.
    #[error("line {0}: UnknownHint at {1}")]
    UnknownHint(u64, u64),
    /// A hint's clause has no true literal, and two or more distinct free ones.
    #[error("line {0}: NotUnit at {1}")]
    NotUnit(u64, u64),
    /// The hints end without a falsified clause.
    #[error("line {0}: NotFalsified")]
    NotFalsified(u64),
    /// An id to be deleted isn't that of a live clause.
    #[error("line {0}: UnknownDelete at {1}")]
    UnknownDelete(u64, u64),
    /// Memory could not be had.
    #[error("out of memory")]
    NoMemory,
}

impl CheckFault {
    ghost use Rattle.std.specs.Prelude.{◌≡◌};
    ghost use Rattle.lrat_check.specs.Faults.{line_of, place_of, name_of};

    /// The number of the faulty line; 0 for want of memory, which has none.
    pub fn line(self) -> u64
        ensures { result ≡ line_of self }
    {
        match self {
            CheckFault::IdNotRising(line) => line,
            CheckFault::UnknownHint(line, _) => line,
            CheckFault::NotUnit(line, _) => line,
            CheckFault::NotFalsified(line) => line,
            CheckFault::UnknownDelete(line, _) => line,
            CheckFault::NoMemory => 0,
        }
    }

    /// The place on the line, from 1, of the faulty hint or deleted id, where there is one.
    pub fn place(self) -> Option<u64>
        ensures { result ≡ place_of self }
    {
        match self {
            CheckFault::UnknownHint(_, place) => Some(place),
            CheckFault::NotUnit(_, place) => Some(place),
            CheckFault::UnknownDelete(_, place) => Some(place),
            CheckFault::IdNotRising(_) => None,
            CheckFault::NotFalsified(_) => None,
            CheckFault::NoMemory => None,
        }
    }

    /// The name of the fault.
    pub fn name(self) -> &'static [u8]
        ensures { result.now ≡ name_of self }
    {
        match self {
            CheckFault::IdNotRising(_) => b"IdNotRising",
            CheckFault::UnknownHint(_, _) => b"UnknownHint",
            CheckFault::NotUnit(_, _) => b"NotUnit",
            CheckFault::NotFalsified(_) => b"NotFalsified",
            CheckFault::UnknownDelete(_, _) => b"UnknownDelete",
            CheckFault::NoMemory => b"NoMemory",
        }
    }
}

impl From<lit_base::NoMemory> for CheckFault {
    ghost use Rattle.std.specs.Prelude.{◌≡◌};
    ghost use Rattle.lrat_check.specs.declared.fault.CheckFault.TheVariants.{NoMemory};

    ghost from_gives = { λ _ fault. fault ≡ NoMemory };

    fn from(_error: lit_base::NoMemory) -> CheckFault {
        CheckFault::NoMemory
    }
}
