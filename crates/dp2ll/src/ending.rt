ghost use Rattle.std.specs.Prelude.{◌≡◌};
ghost use Rattle.dp2ll.specs.Ending.{verdict_status, read_status, proof_status, write_status, status_of};

use crate::finding::Finding;
use cnf_text::CnfFault;
use crew::{Stop, Verdict};
use lit_base::NoMemory;

/// Why reading the file gave no formula.
#[derive(Clone, Copy, Debug, PartialEq, Eq)]
pub(crate) enum ReadStop {
    /// The file is no formula, by this fault, which is never want of memory.
    NoFormula(CnfFault),
    /// The file could not be begun or read.
    ReadFault,
    /// Memory could not be had.
    NoMemory,
}

/// Why a proof was not judged.
#[derive(Clone, Copy, Debug, PartialEq, Eq)]
pub(crate) enum ProofStop {
    /// The file could not be begun or read.
    ReadFault,
    /// Memory could not be had.
    NoMemory,
}

/// Why log or answer were not written whole.
#[derive(Clone, Copy, Debug, PartialEq, Eq)]
pub(crate) enum WriteStop {
    /// The log could not be created or written.
    LogFault,
    /// The answer could not be written.
    AnswerFault,
    /// Memory could not be had.
    NoMemory,
}

/// How a run of the program ends.
#[derive(Clone, Copy, Debug, PartialEq, Eq)]
pub(crate) enum Ending {
    /// The run of the formula has this verdict, and its log and answer are written.
    Answered(Verdict),
    /// This was found of the proof, and the answer says so.
    Judged(Finding),
    /// The text of `gen` or `race` is written.
    Written,
    /// The words are no command line.
    Usage,
    /// The file was not read as a formula.
    Unread(ReadStop),
    /// The proof was not judged.
    Unjudged(ProofStop),
    /// Log or answer were not written whole.
    Unwritten(WriteStop),
    /// Memory could not be had before the file was begun.
    NoMemory,
}

impl From<ReadStop> for Ending {
    ghost use Rattle.std.specs.Prelude.{◌≡◌};
    ghost use Rattle.dp2ll.specs.declared.ending.Ending.TheVariants.{Unread};

    ghost from_gives = { λ stop ending. ending ≡ Unread stop };

    fn from(stop: ReadStop) -> Ending {
        Ending::Unread(stop)
    }
}

impl From<ProofStop> for Ending {
    ghost use Rattle.std.specs.Prelude.{◌≡◌};
    ghost use Rattle.dp2ll.specs.declared.ending.Ending.TheVariants.{Unjudged};

    ghost from_gives = { λ stop ending. ending ≡ Unjudged stop };

    fn from(stop: ProofStop) -> Ending {
        Ending::Unjudged(stop)
    }
}

impl From<NoMemory> for ProofStop {
    ghost use Rattle.std.specs.Prelude.{◌≡◌};
    ghost use Rattle.dp2ll.specs.declared.ending.ProofStop.TheVariants as proof;

    ghost from_gives = { λ _ stop. stop ≡ proof.NoMemory };

    fn from(_error: NoMemory) -> ProofStop {
        ProofStop::NoMemory
    }
}

impl From<WriteStop> for Ending {
    ghost use Rattle.std.specs.Prelude.{◌≡◌};
    ghost use Rattle.dp2ll.specs.declared.ending.Ending.TheVariants.{Unwritten};

    ghost from_gives = { λ stop ending. ending ≡ Unwritten stop };

    fn from(stop: WriteStop) -> Ending {
        Ending::Unwritten(stop)
    }
}

impl From<NoMemory> for WriteStop {
    ghost use Rattle.std.specs.Prelude.{◌≡◌};
    ghost use Rattle.dp2ll.specs.declared.ending.WriteStop.TheVariants as writing;

    ghost from_gives = { λ _ stop. stop ≡ writing.NoMemory };

    fn from(_error: NoMemory) -> WriteStop {
        WriteStop::NoMemory
    }
}

impl From<Stop> for WriteStop {
    ghost use Rattle.std.specs.Prelude.{◌≡◌};
    ghost use Rattle.dp2ll.specs.Running.{stop_of};

    ghost from_gives = { λ stop write. write ≡ stop_of stop };

    fn from(stop: Stop) -> WriteStop {
        match stop {
            Stop::NoMemory => WriteStop::NoMemory,
            Stop::WriteFault => WriteStop::LogFault,
        }
    }
}

impl ReadStop {
    /// The exit status: 2, 3 or 5.
    pub(crate) fn status(self) -> u8
        ensures { result ≡ read_status self }
    {
        match self {
            ReadStop::NoFormula(_) => 2,
            ReadStop::ReadFault => 3,
            ReadStop::NoMemory => 5,
        }
    }
}

impl ProofStop {
    /// The exit status: 3 or 5.
    pub(crate) fn status(self) -> u8
        ensures { result ≡ proof_status self }
    {
        match self {
            ProofStop::ReadFault => 3,
            ProofStop::NoMemory => 5,
        }
    }
}

impl WriteStop {
    /// The exit status: 4 or 5.
    pub(crate) fn status(self) -> u8
        ensures { result ≡ write_status self }
    {
        match self {
            WriteStop::LogFault | WriteStop::AnswerFault => 4,
            WriteStop::NoMemory => 5,
        }
    }
}

/// The exit status of a verdict: 10, 20 or 0.
fn verdict_status(verdict: Verdict) -> u8
    ensures { result ≡ verdict_status verdict }
{
    match verdict {
        Verdict::Sat => 10,
        Verdict::Unsat => 20,
        Verdict::Unknown => 0,
    }
}

impl Ending {
    /// The exit status: that of the verdict, else one of 1 to 5.
    pub(crate) fn status(&self) -> u8
        ensures { result ≡ status_of self.now }
    {
        match self {
            Ending::Answered(verdict) => verdict_status(*verdict),
            Ending::Judged(finding) => finding.status(),
            Ending::Written => 0,
            Ending::Usage => 1,
            Ending::Unread(stop) => stop.status(),
            Ending::Unjudged(stop) => stop.status(),
            Ending::Unwritten(stop) => stop.status(),
            Ending::NoMemory => 5,
        }
    }
}
