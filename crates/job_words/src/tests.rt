//! Words and the jobs that they ask for.
use crate::{
    Job, WordFault, law_jobs, law_leading_zeros, law_numbers, law_small_command_lines, read_words,
};
use formula_kinds::Kind;
use solo_core::Settings;
use std::alloc::Global;
use std::test::Fail;

/// What a job asks for, its texts borrowed.
#[derive(Clone, Copy, Debug, PartialEq, Eq)]
enum Asked<'a> {
    Solve {
        file: &'a str,
        settings: Settings,
        workers: u32,
        log: Option<&'a str>,
        trace: bool,
    },
    Check {
        file: &'a str,
        proof: &'a str,
    },
    Gen {
        kind: Kind,
        n: u32,
        seed: u64,
    },
    Race {
        kind: Kind,
        n: u32,
        settings: Settings,
    },
}

/// The settings where no option is given.
const USUAL: Settings = Settings {
    cores: 4,
    period: 300,
    share: 8,
    limit: 10_000_000,
    seed: 0,
};

// `solve f` with these settings, so many workers and this log, where they are given.
macro_rules! solve_f {
    ($settings:expr, $workers:expr, $log:expr) => {
        Asked::Solve {
            file: "f",
            settings: $settings,
            workers: $workers,
            log: $log,
            trace: false,
        }
    };
    ($settings:expr) => {
        solve_f!($settings, 4, None)
    };
}

/// Words and the job that they ask for.
static JOBS: [(&[&str], Asked<'static>); 34] = [
    (&["solve", "f"], solve_f!(USUAL)),
    (&["solve", "--", "f"], solve_f!(USUAL)),
    (
        &["solve", "--cores", "2", "f"],
        solve_f!(Settings { cores: 2, ..USUAL }),
    ),
    (
        &["solve", "f", "--cores=2"],
        solve_f!(Settings { cores: 2, ..USUAL }),
    ),
    (
        &["solve", "f", "--cores", "00000000000000000016"],
        solve_f!(Settings { cores: 16, ..USUAL }),
    ),
    (
        &["solve", "--cores=1", "f"],
        solve_f!(Settings { cores: 1, ..USUAL }),
    ),
    (
        &["solve", "f", "--period", "1"],
        solve_f!(Settings { period: 1, ..USUAL }),
    ),
    (
        &["solve", "f", "--period", "100000"],
        solve_f!(Settings {
            period: 100_000,
            ..USUAL
        }),
    ),
    (
        &["solve", "f", "--share", "0"],
        solve_f!(Settings { share: 0, ..USUAL }),
    ),
    (
        &["solve", "f", "--share", "64"],
        solve_f!(Settings { share: 64, ..USUAL }),
    ),
    (
        &["solve", "f", "--limit", "1"],
        solve_f!(Settings { limit: 1, ..USUAL }),
    ),
    (
        &["solve", "f", "--limit", "1000000000"],
        solve_f!(Settings {
            limit: 1_000_000_000,
            ..USUAL
        }),
    ),
    (
        &["solve", "f", "--seed", "18446744073709551615"],
        solve_f!(Settings {
            seed: u64::MAX,
            ..USUAL
        }),
    ),
    (&["solve", "f", "--workers", "0"], solve_f!(USUAL, 0, None)),
    (&["solve", "f", "--workers=16"], solve_f!(USUAL, 16, None)),
    (&["solve", "f", "--log", "g"], solve_f!(USUAL, 4, Some("g"))),
    (&["solve", "f", "--log=g"], solve_f!(USUAL, 4, Some("g"))),
    (&["solve", "--log", "g", "f"], solve_f!(USUAL, 4, Some("g"))),
    (&["solve", "f", "--log", "-"], solve_f!(USUAL, 4, Some("-"))),
    (&["solve", "f", "--log=-g"], solve_f!(USUAL, 4, Some("-g"))),
    (&["solve", "f", "--log==g"], solve_f!(USUAL, 4, Some("=g"))),
    (
        &[
            "solve",
            "--seed",
            "7",
            "--log",
            "g",
            "--limit",
            "030",
            "--trace",
            "f",
            "--workers",
            "0",
            "--share",
            "0",
            "--cores",
            "16",
            "--period",
            "5",
        ],
        Asked::Solve {
            file: "f",
            settings: Settings {
                cores: 16,
                period: 5,
                share: 0,
                limit: 30,
                seed: 7,
            },
            workers: 0,
            log: Some("g"),
            trace: true,
        },
    ),
    (
        &["solve", "--trace", "--", "--trace"],
        Asked::Solve {
            file: "--trace",
            settings: USUAL,
            workers: 4,
            log: None,
            trace: true,
        },
    ),
    (
        &["check", "f", "p"],
        Asked::Check {
            file: "f",
            proof: "p",
        },
    ),
    (
        &["check", "-", "help"],
        Asked::Check {
            file: "-",
            proof: "help",
        },
    ),
    (
        &["check", "--", "--", "-p"],
        Asked::Check {
            file: "--",
            proof: "-p",
        },
    ),
    (
        &["gen", "hole", "100"],
        Asked::Gen {
            kind: Kind::Hole,
            n: 100,
            seed: 0,
        },
    ),
    (
        &["gen", "grid", "300"],
        Asked::Gen {
            kind: Kind::Grid,
            n: 300,
            seed: 0,
        },
    ),
    (
        &["gen", "--seed=7", "rand", "100000"],
        Asked::Gen {
            kind: Kind::Rand,
            n: 100_000,
            seed: 7,
        },
    ),
    (
        &["gen", "rand", "--seed", "7", "04"],
        Asked::Gen {
            kind: Kind::Rand,
            n: 4,
            seed: 7,
        },
    ),
    (
        &["race", "hole", "1"],
        Asked::Race {
            kind: Kind::Hole,
            n: 1,
            settings: USUAL,
        },
    ),
    (
        &["race", "grid", "2", "--cores", "1"],
        Asked::Race {
            kind: Kind::Grid,
            n: 2,
            settings: Settings { cores: 1, ..USUAL },
        },
    ),
    (
        &["race", "--share", "64", "grid", "--period=2", "300"],
        Asked::Race {
            kind: Kind::Grid,
            n: 300,
            settings: Settings {
                period: 2,
                share: 64,
                ..USUAL
            },
        },
    ),
    (
        &["race", "rand", "4", "--seed", "7", "--limit", "9"],
        Asked::Race {
            kind: Kind::Rand,
            n: 4,
            settings: Settings {
                limit: 9,
                seed: 7,
                ..USUAL
            },
        },
    ),
];

/// Words that are no command line.
static FAULTY: [&[&str]; 70] = [
    &[],
    &[""],
    &["Solve", "f"],
    &["--help"],
    &["help"],
    &["f", "solve"],
    &["solve"],
    &["solve", ""],
    &["solve", "-f"],
    &["solve", "f", "g"],
    &["solve", "f", ""],
    &["solve", "f", "--log"],
    &["solve", "f", "--log", ""],
    &["solve", "f", "--log="],
    &["solve", "f", "--log", "-g"],
    &["solve", "f", "--log", "--trace"],
    &["solve", "f", "--log", "--", "g"],
    &["solve", "f", "--log", "g", "--log", "g"],
    &["solve", "f", "--log=g", "--log", "h"],
    &["solve", "f", "--limit"],
    &["solve", "f", "--limit", "0"],
    &["solve", "f", "--limit", "1000000001"],
    &["solve", "f", "--limit", "18446744073709551617"],
    &["solve", "f", "--limit", "000000000000000000001"],
    &["solve", "f", "--limit", "+1"],
    &["solve", "f", "--limit", "-1"],
    &["solve", "f", "--limit=-1"],
    &["solve", "f", "--limit="],
    &["solve", "f", "--limit", "1x"],
    &["solve", "f", "--limit", " 1"],
    &["solve", "f", "--limit", "1", "--limit", "1"],
    &["solve", "f", "--cores", "17"],
    &["solve", "f", "--cores", "0"],
    &["solve", "f", "--coers", "2"],
    &["solve", "f", "--core", "2"],
    &["solve", "f", "--Cores", "2"],
    &["solve", "f", "-cores", "2"],
    &["solve", "f", "--period", "100001"],
    &["solve", "f", "--period", "0"],
    &["solve", "f", "--share", "65"],
    &["solve", "f", "--seed", "18446744073709551616"],
    &["solve", "f", "--seed", "99999999999999999999"],
    &["solve", "f", "--workers", "17"],
    &["solve", "f", "--workers"],
    &["solve", "f", "--workers", "1", "--workers", "1"],
    &["solve", "f", "--trace", "--trace"],
    &["solve", "f", "--trace=1"],
    &["solve", "f", "--trace=true"],
    &["solve", "f", "--trace", "x"],
    &["solve", "f", "--help"],
    &["solve", "f", "-h"],
    &["solve", "f", "--version"],
    &["solve", "f", "-V"],
    &["check", "f"],
    &["check", "f", "-p"],
    &["check", "", "p"],
    &["check", "f", ""],
    &["check", "f", "p", "q"],
    &["check", "f", "p", "--limit", "1"],
    &["gen", "tower", "3"],
    &["gen", "hole"],
    &["gen", "hole", "101"],
    &["gen", "grid", "301"],
    &["gen", "rand", "100001"],
    &["gen", "grid", "0"],
    &["gen", "hole", "1", "--cores", "1"],
    &["race", "hole", "1", "--workers", "1"],
    &["race", "hole", "1", "--cores", "17"],
    &["race", "hole", "0"],
    &["race", "1", "hole"],
];

/// What a job asks for.
fn told_by(job: &Job) -> Asked<'_> {
    match job {
        Job::Solve {
            file,
            settings,
            workers,
            log,
            trace,
        } => Asked::Solve {
            file: file.as_str(),
            settings: *settings,
            workers: *workers,
            log: log.as_ref().map(|name| name.as_str()),
            trace: *trace,
        },
        Job::Check { file, proof } => Asked::Check {
            file: file.as_str(),
            proof: proof.as_str(),
        },
        Job::Gen { kind, n, seed } => Asked::Gen {
            kind: *kind,
            n: *n,
            seed: *seed,
        },
        Job::Race { kind, n, settings } => Asked::Race {
            kind: *kind,
            n: *n,
            settings: *settings,
        },
    }
}

/// Owned words.
fn owned(alloc: Global, words: &[&str]) -> Result<Vec<String>, Fail> {
    let mut all = Vec::new(alloc);
    for word in words {
        all.push(String::from_str(alloc, word)?)?;
    }
    Ok(all)
}

#[test]
fn words_give_their_jobs(rt: HostRuntime) -> Result<(), Fail> {
    for (words, told) in &JOBS {
        let all = owned(rt.alloc(), words)?;
        match read_words(rt.alloc(), all.as_slice()) {
            Ok(job) => assert_eq!(rt; told_by(&job), *told, "{words:?}"),
            Err(fault) => assert!(rt; false, "{words:?}: {fault:?}"),
        }
    }
    Ok(())
}

#[test]
fn other_words_are_no_command_line(rt: HostRuntime) -> Result<(), Fail> {
    for words in &FAULTY {
        let all = owned(rt.alloc(), words)?;
        match read_words(rt.alloc(), all.as_slice()) {
            Ok(job) => assert!(rt; false, "{words:?}: {job:?}"),
            Err(fault) => assert_eq!(rt; fault, WordFault::Usage, "{words:?}"),
        }
    }
    Ok(())
}

#[test]
fn laws_can_be_called(_rt: HostRuntime) {
    law_small_command_lines();
    law_jobs();
    law_numbers();
    law_leading_zeros();
}
