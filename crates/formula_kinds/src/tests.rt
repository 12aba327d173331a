use crate::{
    Kind, generate, kind_named, law_cells, law_draws, law_kinds_by_word, law_literals_are_within,
    law_no_room, law_pigeons, law_sizes, law_small_formulas, most_of, word_of,
};
use lit_base::{Clause, Formula};
use std::test::Fail;

/// Whether clause `i` has the literals of these numbers, in this order.
fn is_clause(formula: &Formula, i: usize, numbers: &[i32]) -> bool {
    if i >= formula.len() {
        return false;
    }
    let lits = formula.clause(i).lits();
    lits.len() == numbers.len()
        && lits
            .iter()
            .zip(numbers)
            .all(|(lit, number)| lit.number() == *number)
}

/// The sum of a clause over the one of those before it: each literal by its index, and then 0.
fn clause_sum(before: u64, clause: &Clause) -> u64 {
    let mut sum = before;
    for lit in clause.lits() {
        sum = sum.wrapping_mul(31).wrapping_add(lit.index() as u64);
    }
    sum.wrapping_mul(31)
}

/// A sum over all literals in which their order matters.
fn sum_of(formula: &Formula) -> u64 {
    let mut sum = 0;
    for clause in formula.clauses() {
        sum = clause_sum(sum, clause);
    }
    sum
}

#[test]
fn kinds_have_their_words(rt: HostRuntime) {
    for (kind, word, most) in [
        (Kind::Hole, "hole", 100),
        (Kind::Grid, "grid", 300),
        (Kind::Rand, "rand", 100_000),
    ] {
        assert_eq!(rt; word_of(kind), word);
        assert!(rt; kind_named(word) == Some(kind));
        assert_eq!(rt; most_of(kind), most);
    }
    for word in ["", "Hole", "holes", "hol", "grid ", "random"] {
        assert!(rt; kind_named(word).is_none(), "{word}");
    }
    law_kinds_by_word();
    law_sizes();
    law_literals_are_within();
    law_pigeons();
    law_no_room();
    law_cells();
    law_draws();
    law_small_formulas();
}

/// The sums are those of the formulas that another program generated.
#[test]
fn formulas_are_those_of_another_program(rt: HostRuntime) -> Result<(), Fail> {
    let alloc = rt.alloc();
    for (kind, n, seed, variables, clauses, sum) in [
        (Kind::Hole, 2, 0, 6, 9, 0xbbc5_85c6_82d1_587e),
        (Kind::Hole, 6, 0, 42, 133, 0x2620_508a_9dae_40fa),
        (Kind::Hole, 100, 0, 10_100, 505_101, 0xe905_805a_b79c_6c9c),
        (Kind::Grid, 2, 0, 12, 16, 0x6dfc_5db3_6302_5d4c),
        (Kind::Grid, 17, 0, 867, 1_921, 0xe4de_613c_61c3_749c),
        (Kind::Grid, 300, 0, 270_000, 628_200, 0xa00c_451c_9c85_d5dc),
        (Kind::Rand, 3, u64::MAX, 3, 12, 0x7ac3_f824_952a_b633),
        (Kind::Rand, 50, 1, 50, 212, 0xa8ec_6c45_5632_4189),
        (Kind::Rand, 50, 1, 50, 212, 0xa8ec_6c45_5632_4189),
        (
            Kind::Rand,
            100_000,
            0,
            100_000,
            425_000,
            0xc183_41c4_4f53_f9b8,
        ),
    ] {
        assert!(rt; 1 <= n && n <= most_of(kind));
        let formula = generate(alloc, kind, n, seed)?;
        assert_eq!(rt; formula.variables(), variables, "at {n}");
        assert_eq!(rt; formula.len(), clauses, "at {n}");
        assert_eq!(rt; sum_of(&formula), sum, "at {n}");
    }
    Ok(())
}

#[test]
fn first_clauses_are_as_told(rt: HostRuntime) -> Result<(), Fail> {
    let alloc = rt.alloc();
    let pigeons = generate(alloc, Kind::Hole, 3, 0)?;
    for (i, numbers) in [
        (0, [1, 2, 3].as_slice()),
        (3, [10, 11, 12].as_slice()),
        (4, [-1, -4].as_slice()),
        (9, [-7, -10].as_slice()),
        (10, [-2, -5].as_slice()),
        (21, [-9, -12].as_slice()),
    ] {
        assert!(rt; is_clause(&pigeons, i, numbers), "clause {i}");
    }
    let cells = generate(alloc, Kind::Grid, 2, 0)?;
    for (i, numbers) in [
        (0, [1, 2, 3].as_slice()),
        (4, [-1, -4].as_slice()),
        (7, [-1, -7].as_slice()),
        (10, [-4, -10].as_slice()),
        (15, [-9, -12].as_slice()),
    ] {
        assert!(rt; is_clause(&cells, i, numbers), "clause {i}");
    }
    let draws = generate(alloc, Kind::Rand, 3, u64::MAX)?;
    for (i, numbers) in [
        (0, [1, -2, -3].as_slice()),
        (1, [1, -3].as_slice()),
        (11, [2, 1].as_slice()),
    ] {
        assert!(rt; is_clause(&draws, i, numbers), "clause {i}");
    }
    Ok(())
}
