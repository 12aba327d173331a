//! dp2ll decides formulas in conjunctive normal form, `dp2ll solve FILE`, and judges proofs that they have no model,
//! `dp2ll check FILE PROOF`. It makes formulas from a number, `dp2ll gen KIND N`, and decides them, `dp2ll race KIND N`.
#![tactic(auto)]

mod answer;
mod backing;
mod complaint;
mod ending;
mod finding;
mod judge;
mod making;
mod read;
mod run;
#[cfg(test)]
mod tests;

use complaint::complain;
use desk_io::{NoGate, RealInputs, RealOutputs};
use ending::Ending;
use std::io::ErrorKind;
use std::process::ExitCode;
use std::{env, io};

/// The words after the program's name.
///
/// A word that is no text makes them no command line, as no words do.
fn arguments(rt: &HostRuntime) -> Result<Vec<String>, io::Error> {
    let mut words = Vec::new(rt.alloc());
    match env::args(rt) {
        Ok(arguments) => {
            for word in arguments.skip(1) {
                words.push(word)?;
            }
            Ok(words)
        }
        Err(error) if error.kind() == ErrorKind::OutOfMemory => Err(error),
        Err(_) => Ok(words),
    }
}

fn main(rt: HostRuntime) -> ExitCode {
    let mut inputs = RealInputs::new(rt);
    let mut outputs = RealOutputs::new(rt);
    let status = match arguments(&rt) {
        Ok(words) => run::run(
            &rt,
            rt.alloc(),
            words.as_slice(),
            &mut inputs,
            &mut outputs,
            &NoGate,
        ),
        Err(_) => complain(rt.alloc(), &mut outputs, &Ending::NoMemory),
    };
    ExitCode::from(status)
}
