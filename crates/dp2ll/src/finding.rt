ghost use Rattle.std.specs.Prelude.{◌≡◌};
ghost use Rattle.dp2ll.specs.Ending.{finding_status, finding_text};

use lrat_check::CheckFault;
use lrat_text::LineFault;

/// Why a proof doesn't check: its first fault in the order of lines, or that it has no empty lemma.
#[derive(Clone, Copy, Debug, PartialEq, Eq)]
pub(crate) enum Flaw {
    /// A line can't be read. Never want of memory.
    Misread(LineFault),
    /// A line doesn't follow. Never want of memory.
    Misjudged(CheckFault),
    /// No line adds the empty lemma.
    NoEmptyClause,
}

/// What was found of a proof.
#[derive(Clone, Copy, Debug, PartialEq, Eq)]
pub(crate) enum Finding {
    /// It checks: no model satisfies the formula.
    Verified,
    /// It doesn't check.
    Flawed(Flaw),
}

impl Finding {
    /// The exit status: 0 or 6.
    pub(crate) fn status(self) -> u8
        ensures { result ≡ finding_status self }
    {
        match self {
            Finding::Verified => 0,
            Finding::Flawed(_) => 6,
        }
    }

    /// The `s` line.
    pub(crate) fn line(self) -> &'static [u8]
        ensures { result.now ≡ finding_text self }
    {
        match self {
            Finding::Verified => b"s VERIFIED\n".as_slice(),
            Finding::Flawed(_) => b"s NOT VERIFIED\n".as_slice(),
        }
    }
}
