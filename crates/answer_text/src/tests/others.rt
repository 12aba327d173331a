//! The text of a formula, and the summary of a race.
ghost use Rattle.std.specs.Prelude.{◌≤◌};
ghost use Rattle.formula_kinds.specs.Kinds.{most_of};

use super::{Found, outcome};
use crate::{law_summaries_are_said, write_formula, write_summary};
use desk_io::{MemoryOutputs, Port};
use formula_kinds::{Kind, generate};
use lit_base::List;
use std::test::Fail;

const TWO_HOLES: &[u8] =
    b"p cnf 6 9\n1 2 0\n3 4 0\n5 6 0\n-1 -3 0\n-1 -5 0\n-3 -5 0\n-2 -4 0\n-2 -6 0\n-4 -6 0\n";

/// A formula is written clause by clause, at any grain; a text of more than one piece is too.
#[test]
fn a_formula_is_written_whole(rt: HostRuntime) -> Result<(), Fail> {
    let alloc = rt.alloc();
    let small = generate(alloc, Kind::Hole, 2, 0)?;
    for grain in [1, 7, 4096] {
        let mut outputs = MemoryOutputs::new(alloc, grain, List::new(alloc));
        assert_eq!(rt; write_formula(alloc, &small, &mut outputs), Ok(()));
        assert_eq!(rt; outputs.kept(Port::Answer), TWO_HOLES);
    }
    let large = generate(alloc, Kind::Grid, 60, 0)?;
    let mut outputs = MemoryOutputs::new(alloc, 4096, List::new(alloc));
    assert_eq!(rt; write_formula(alloc, &large, &mut outputs), Ok(()));
    assert_eq!(rt; outputs.kept(Port::Answer).len(), 357_168);
    Ok(())
}

/// The lines of a summary, with a winner and without.
#[test]
fn a_summary_is_written_whole(rt: HostRuntime) -> Result<(), Fail> {
    let alloc = rt.alloc();
    let formula = generate(alloc, Kind::Grid, 2, 0)?;
    for (found, told) in [
        (
            Found::Refutation(3),
            b"c race grid 2\nc variables 12 clauses 16\nc eras 1\nc winner 3\nc lemmas 0\ns UNSATISFIABLE\n".as_slice(),
        ),
        (
            Found::Nothing,
            b"c race grid 2\nc variables 12 clauses 16\nc eras 1\nc winner none\nc lemmas 0\ns UNKNOWN\n",
        ),
    ] {
        let end = outcome(alloc, found, &[])?;
        let mut outputs = MemoryOutputs::new(alloc, 3, List::new(alloc));
        let ended = write_summary(alloc, Kind::Grid, 2, &formula, &end, &mut outputs);
        assert_eq!(rt; ended, Ok(()));
        assert_eq!(rt; outputs.kept(Port::Answer), told);
    }
    law_summaries_are_said();
    Ok(())
}
