use formula_kinds::Kind;
use lit_base::{NoMemory, Text};
use solo_core::Settings;

/// What a command line asks for.
#[derive(Debug, Drop)]
pub enum Job {
    /// `solve FILE`: decide the formula in the file with these settings, write the log to the file that `--log`
    /// names, and with `--trace` begin the answer with what the cores did. So many workers run the cores side by side,
    /// at most 16; with 0 they run in turn.
    Solve {
        file: Text,
        settings: Settings,
        workers: u32,
        log: Option<Text>,
        trace: bool,
    },
    /// `check FILE PROOF`: judge the proof in the second file against the formula in the first.
    Check {
        file: Text,
        proof: Text,
    },
    /// `gen KIND N`: write the formula of this kind and size; the seed is that of a random one.
    Gen {
        kind: Kind,
        n: u32,
        seed: u64,
    },
    /// `race KIND N`: decide the formula of this kind and size with these settings, the cores in turn.
    Race {
        kind: Kind,
        n: u32,
        settings: Settings,
    },
}

/// Why words gave no job.
#[derive(Clone, Copy, Debug, PartialEq, Eq)]
pub enum WordFault {
    /// They are no command line.
    Usage,
    /// Memory could not be had.
    NoMemory,
}

impl From<NoMemory> for WordFault {
    ghost use Rattle.std.specs.Prelude.{◌≡◌};
    ghost use Rattle.job_words.specs.declared.job.WordFault.TheVariants as fault;

    ghost from_gives = { λ _ f. f ≡ fault.NoMemory };

    fn from(_error: NoMemory) -> WordFault {
        WordFault::NoMemory
    }
}
