ghost use Rattle.std.specs.Prelude.{◌≡◌, ◌≤◌, option_map, IfOk, IfSome};
ghost use Rattle.clap.specs.Words.{first_of, rows_of, found_of};
ghost use Rattle.solo_core.specs.First.{AreInRange};
ghost use Rattle.job_words.specs.Job.{solve_of, check_of, gen_of, race_of, file_at, file_name, log_of, is_set, number_at, seed_of, settings_of, sized_kind, size_of, IsSizeOf, IsInRange};
ghost use Rattle.job_words.specs.Faults.{ReadsWords};

use crate::commands::value_at;
use crate::job::{Job, WordFault};
use crate::numbers::{number_given, number_of};
use clap::ArgMatches;
use formula_kinds::{Kind, kind_named, most_of};
use lit_base::Text;
use solo_core::Settings;
use std::alloc::Global;

/// The job of `solve` where this was found.
pub(crate) fn solve_job(alloc: Global, matches: &ArgMatches<'_>) -> Result<Job, WordFault>
    ensures job { ReadsWords (solve_of (rows_of (found_of matches.now))) result }
    ensures range { IfOk result IsInRange }
{
    let file = file_at(alloc, matches, "file")?;
    let settings = settings_of(matches).ok_or(WordFault::Usage)?;
    let workers = number_at(matches, "workers", 0, 16, 4).ok_or(WordFault::Usage)?;
    let log = log_of(alloc, value_at(matches, "log"))?;
    Ok(Job::Solve {
        file,
        settings,
        workers: workers as u32,
        log,
        trace: is_set(value_at(matches, "trace")),
    })
}

/// The job of `check` where this was found.
pub(crate) fn check_job(alloc: Global, matches: &ArgMatches<'_>) -> Result<Job, WordFault>
    ensures job { ReadsWords (check_of (rows_of (found_of matches.now))) result }
    ensures range { IfOk result IsInRange }
{
    let file = file_at(alloc, matches, "file")?;
    let proof = file_at(alloc, matches, "proof")?;
    Ok(Job::Check { file, proof })
}

/// The job of `gen` where this was found.
pub(crate) fn gen_job(matches: &ArgMatches<'_>) -> Option<Job>
    ensures job { result ≡ gen_of (rows_of (found_of matches.now)) }
    ensures range { IfSome result IsInRange }
{
    let (kind, n) = sized_kind(matches)?;
    let seed = seed_of(matches)?;
    Some(Job::Gen { kind, n, seed })
}

/// The job of `race` where this was found.
pub(crate) fn race_job(matches: &ArgMatches<'_>) -> Option<Job>
    ensures job { result ≡ race_of (rows_of (found_of matches.now)) }
    ensures range { IfSome result IsInRange }
{
    let (kind, n) = sized_kind(matches)?;
    let settings = settings_of(matches)?;
    Some(Job::Race { kind, n, settings })
}

/// The settings that were found, where their numbers are in their ranges.
fn settings_of(matches: &ArgMatches<'_>) -> Option<Settings>
    ensures settings { result ≡ settings_of (rows_of (found_of matches.now)) }
    ensures range { IfSome result AreInRange }
{
    let cores = number_at(matches, "cores", 1, 16, 4)?;
    let period = number_at(matches, "period", 1, 100_000, 300)?;
    let share = number_at(matches, "share", 0, 64, 8)?;
    let limit = number_at(matches, "limit", 1, 1_000_000_000, 10_000_000)?;
    let seed = seed_of(matches)?;
    Some(Settings {
        cores: cores as u32,
        period: period as u32,
        share: share as u32,
        limit: limit as u32,
        seed,
    })
}

/// The kind that was found and the size.
fn sized_kind(matches: &ArgMatches<'_>) -> Option<(Kind, u32)>
    ensures sized { result ≡ sized_kind (rows_of (found_of matches.now)) }
    ensures range { IfSome result (λ sized. IsSizeOf sized.0 sized.1) }
{
    let kind = kind_named(value_at(matches, "kind")?)?;
    let n = number_of(value_at(matches, "n")?, 1, u64::from(most_of(kind)))?;
    Some((kind, n as u32))
}

/// The seed that was found, 0 where there is none.
fn seed_of(matches: &ArgMatches<'_>) -> Option<u64>
    ensures { result ≡ seed_of (rows_of (found_of matches.now)) }
{
    number_at(matches, "seed", 0, u64::MAX, 0)
}

/// The number under a name, from `low` to `high`, or `otherwise` where there is none.
fn number_at(
    matches: &ArgMatches<'_>,
    name: &str,
    low: u64,
    high: u64,
    otherwise: u64,
) -> Option<u64>
    requires low { low ≤ otherwise }
    requires high { otherwise ≤ high }
    ensures number { result ≡ number_at name.now low high otherwise (rows_of (found_of matches.now)) }
    ensures within { IfSome result (λ n. (low ≤ n) × (n ≤ high)) }
{
    number_given(value_at(matches, name), low, high, otherwise)
}

/// The file that is named under a name.
fn file_at(alloc: Global, matches: &ArgMatches<'_>, name: &str) -> Result<Text, WordFault>
    ensures { ReadsWords (file_at name.now (rows_of (found_of matches.now))) result }
{
    match value_at(matches, name) {
        Some(text) => file_name(alloc, text),
        None => Err(WordFault::Usage),
    }
}

/// The file of the log, where a text names one.
fn log_of(alloc: Global, text: Option<&str>) -> Result<Option<Text>, WordFault>
    ensures { ReadsWords (log_of (option_map (λ t. t.now) text.entry)) result }
{
    match text {
        Some(text) => Ok(Some(file_name(alloc, text)?)),
        None => Ok(None),
    }
}

/// A text that names a file: it is not empty.
fn file_name(alloc: Global, text: &str) -> Result<Text, WordFault>
    ensures { ReadsWords (file_name text.now) result }
{
    if text.is_empty() {
        return Err(WordFault::Usage);
    }
    Ok(Text::of(alloc, text)?)
}

/// Whether a flag is set.
fn is_set(text: Option<&str>) -> bool
    ensures { result ≡ is_set (option_map (λ t. t.now) text.entry) }
{
    match text {
        Some(text) => text == "true",
        None => false,
    }
}
