use crate::{choose, law_choose};
use clause_pool::Pool;
use lit_base::{Clause, Lit, Name};
use std::alloc::Global;
use std::process::Abort;
use std::test::Fail;
use trail_book::Trail;

/// The name of a lemma of the first period.
fn lemma(index: u32) -> Name {
    Name::lemma(1, 0, index)
}

/// Adds a clause of so many literals that was a hint so many times.
fn add(
    rt: &impl Abort,
    alloc: Global,
    pool: &mut Pool,
    name: Name,
    size: i32,
    uses: u32,
) -> Result<(), Fail> {
    let mut lits = Vec::new(alloc);
    for number in 1..=size {
        lits.push(Lit::new(number).expect(rt, "a literal"))?;
    }
    assert!(rt; !pool.held(name));
    let clause = Clause::of(alloc, &lits)?;
    pool.add(name, clause.lits())?;
    for _ in 0..uses {
        assert!(rt; pool.held(name));
        let before = pool.uses(name);
        assert!(rt; before < 100);
        pool.count_use(name);
    }
    Ok(())
}

/// Whether a reduction of these clauses drops those of these names, where one of them may be a reason.
fn drops(
    rt: &impl Abort,
    alloc: Global,
    clauses: &[(Name, i32, u32)],
    reason: Option<Name>,
    dropped: &[Name],
) -> Result<bool, Fail> {
    let mut pool = Pool::new(alloc);
    for (name, size, uses) in clauses {
        add(rt, alloc, &mut pool, *name, *size, *uses)?;
    }
    let mut trail = Trail::with_room(alloc, 9)?;
    if let Some(name) = reason {
        trail.imply(Lit::of(1, true), name);
    }
    let names = choose(alloc, &pool, &trail)?;
    pool.drop_names(names.as_slice());
    Ok(names.as_slice() == dropped)
}

#[test]
fn lemmas_go_by_uses_then_length_then_name(rt: HostRuntime) -> Result<(), Fail> {
    law_choose();
    for (clauses, first) in [
        ([(lemma(0), 9, 1), (lemma(1), 3, 0)], lemma(1)),
        ([(lemma(0), 3, 0), (lemma(1), 5, 0)], lemma(1)),
        ([(lemma(4), 4, 2), (Name::lemma(1, 1, 3), 4, 2)], lemma(4)),
        ([(lemma(4), 4, 2), (lemma(3), 4, 2)], lemma(3)),
        ([(Name::lemma(2, 0, 0), 3, 0), (lemma(9), 3, 0)], lemma(9)),
    ] {
        assert!(rt; drops(&rt, rt.alloc(), &clauses, None, &[first])?);
    }
    Ok(())
}

#[test]
fn half_of_the_long_lemmas_goes_but_no_reason(rt: HostRuntime) -> Result<(), Fail> {
    let clauses = [
        (Name::original(0), 7, 0),
        (lemma(0), 2, 0),
        (lemma(1), 5, 0),
        (lemma(2), 3, 0),
        (lemma(3), 3, 1),
        (lemma(4), 3, 2),
        (lemma(5), 3, 3),
        (lemma(6), 1, 0),
    ];
    for (reason, dropped) in [
        (None, [lemma(1), lemma(2)]),
        (Some(Name::original(0)), [lemma(1), lemma(2)]),
        (Some(lemma(1)), [lemma(2), lemma(3)]),
        (Some(lemma(5)), [lemma(1), lemma(2)]),
    ] {
        assert!(rt; drops(&rt, rt.alloc(), &clauses, reason, &dropped)?);
    }
    assert!(rt; drops(&rt, rt.alloc(), &clauses[..3], None, &[])?);
    Ok(())
}
