ghost use Rattle.std.specs.Prelude.{map, string_bytes, option_and_then, IfOk};
ghost use Rattle.job_words.specs.Commands.{solve_app, check_app, gen_app, race_app, rows_of_words};
ghost use Rattle.job_words.specs.Job.{job_of, job_of_command, solve_of, check_of, gen_of, race_of, IsInRange};
ghost use Rattle.job_words.specs.Faults.{ReadsWords};

use crate::commands::{check_command, found_in, gen_command, race_command, solve_command};
use crate::found::{check_job, gen_job, race_job, solve_job};
use crate::job::{Job, WordFault};
use std::alloc::Global;

/// The job that the words after the program's name ask for. Options stand anywhere behind the command, each at most
/// once, as `--name value` or `--name=value`; behind `--` there are none.
///
/// - `solve FILE`: `--cores` from 1 to 16 (4 without it), `--workers` from 0 to 16 (4), `--period` from 1 to 100,000
///   (300), `--share` from 0 to 64 (8), `--limit` from 1 to 1,000,000,000 (10,000,000), `--seed` from 0 to 2^64 - 1
///   (0), `--log` with a file, and the flag `--trace`.
/// - `check FILE PROOF`.
/// - `gen KIND N`: `--seed`.
/// - `race KIND N`: `--cores`, `--period`, `--share`, `--limit`, `--seed`.
///
/// A kind is `hole`, `grid` or `rand`, with an N from 1 to the most of the kind. The name of a file is not empty. A
/// number is 1 to 20 digits.
pub fn read_words(alloc: Global, words: &[String]) -> Result<Job, WordFault>
    ensures job { ReadsWords (job_of (map string_bytes words.now)) result }
    ensures range { IfOk result IsInRange }
{
    match words {
        [command, ..] => read_command(alloc, command.as_str(), words),
        [] => Err(WordFault::Usage),
    }
}

/// The job of words of which the first is this command.
fn read_command(alloc: Global, command: &str, words: &[String]) -> Result<Job, WordFault>
    ensures job { ReadsWords (job_of_command command.now (map string_bytes words.now)) result }
    ensures range { IfOk result IsInRange }
{
    match command {
        "solve" => read_solve(alloc, words),
        "check" => read_check(alloc, words),
        "gen" => read_gen(alloc, words),
        "race" => read_race(alloc, words),
        _ => Err(WordFault::Usage),
    }
}

/// The job of the words of `solve`.
fn read_solve(alloc: Global, words: &[String]) -> Result<Job, WordFault>
    ensures job { ReadsWords (option_and_then solve_of (rows_of_words solve_app (map string_bytes words.now))) result }
    ensures range { IfOk result IsInRange }
{
    let matches = found_in(solve_command(alloc)?, words)?;
    solve_job(alloc, &matches)
}

/// The job of the words of `check`.
fn read_check(alloc: Global, words: &[String]) -> Result<Job, WordFault>
    ensures job { ReadsWords (option_and_then check_of (rows_of_words check_app (map string_bytes words.now))) result }
    ensures range { IfOk result IsInRange }
{
    let matches = found_in(check_command(alloc)?, words)?;
    check_job(alloc, &matches)
}

/// The job of the words of `gen`.
fn read_gen(alloc: Global, words: &[String]) -> Result<Job, WordFault>
    ensures job { ReadsWords (option_and_then gen_of (rows_of_words gen_app (map string_bytes words.now))) result }
    ensures range { IfOk result IsInRange }
{
    let matches = found_in(gen_command(alloc)?, words)?;
    gen_job(&matches).ok_or(WordFault::Usage)
}

/// The job of the words of `race`.
fn read_race(alloc: Global, words: &[String]) -> Result<Job, WordFault>
    ensures job { ReadsWords (option_and_then race_of (rows_of_words race_app (map string_bytes words.now))) result }
    ensures range { IfOk result IsInRange }
{
    let matches = found_in(race_command(alloc)?, words)?;
    race_job(&matches).ok_or(WordFault::Usage)
}
