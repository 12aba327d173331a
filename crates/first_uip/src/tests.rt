ghost use Rattle.std.specs.Prelude.{◌≡◌, ◌≤◌, [], ◌∷◌, length, None, Some, IfOk, OnOk};
ghost use Rattle.lit_base.specs.Distinct.{distinct};
ghost use Rattle.lit_base.specs.Named.{lits_at};
ghost use Rattle.lit_base.specs.Held.{clauses_of, with_clause};
ghost use Rattle.lit_base.specs.Rounds.{original, named_from};
ghost use Rattle.lit_base.specs.Examples.{plain, negated, forked_trail};

use crate::{Analyser, analyse};
use clause_pool::Pool;
use lit_base::{Clause, Lesson, Lit, Name, NoMemory};
use std::alloc::Global;
use std::process::Abort;
use std::test::Fail;
use trail_book::Trail;

/// The literal of this variable.
fn yes(variable: u32) -> Lit
    requires low { 1 ≤ variable }
    requires high { variable ≤ 8 }
    ensures { result ≡ plain variable }
{
    Lit::of(variable, true)
}

/// Its negation.
fn no(variable: u32) -> Lit
    requires low { 1 ≤ variable }
    requires high { variable ≤ 8 }
    ensures { result ≡ negated variable }
{
    Lit::of(variable, false)
}

/// Adds the clause of these literals under the name of an original.
fn add(alloc: Global, pool: &mut Pool, index: u32, lits: &[Lit]) -> Result<(), NoMemory>
    requires { lits_at (clauses_of pool.old.held) (original index) ≡ None }
    ensures { OnOk result (pool.new.held ≡ with_clause (record { name = original index; lits = distinct lits.now; uses = 0 }) pool.old.held) }
{
    let clause = Clause::of(alloc, lits)?;
    pool.add(Name::original(index), clause.lits())
}

/// The pool of three clauses, named as originals.
fn pool_of(alloc: Global, first: &[Lit], second: &[Lit], third: &[Lit]) -> Result<Pool, NoMemory>
    ensures { IfOk result (λ pool. clauses_of pool.held ≡ named_from 0 (distinct first.now ∷ distinct second.now ∷ distinct third.now ∷ [])) }
{
    let mut pool = Pool::new(alloc);
    add(alloc, &mut pool, 0, first)?;
    add(alloc, &mut pool, 1, second)?;
    add(alloc, &mut pool, 2, third)?;
    Ok(pool)
}

/// The pool of these and one more.
fn pool_of_four(
    alloc: Global,
    first: &[Lit],
    second: &[Lit],
    third: &[Lit],
    fourth: &[Lit],
) -> Result<Pool, NoMemory>
    ensures { IfOk result (λ pool. clauses_of pool.held ≡
        named_from 0 (distinct first.now ∷ distinct second.now ∷ distinct third.now ∷ distinct fourth.now ∷ [])) }
{
    let mut pool = Pool::new(alloc);
    add(alloc, &mut pool, 0, first)?;
    add(alloc, &mut pool, 1, second)?;
    add(alloc, &mut pool, 2, third)?;
    add(alloc, &mut pool, 3, fourth)?;
    Ok(pool)
}

/// Variable 1 by the first clause, then the decision that 2 is false, then variable 3 by the second clause.
fn forked_trail(alloc: Global) -> Result<Trail, NoMemory>
    ensures entries { IfOk result (λ trail. trail.entries ≡ forked_trail) }
    ensures saved { IfOk result (λ trail. length trail.saved ≡ 3) }
{
    let mut trail = Trail::with_room(alloc, 3)?;
    trail.imply(yes(1), Name::original(0));
    trail.decide(no(2));
    trail.imply(yes(3), Name::original(1));
    Ok(trail)
}

/// The decisions that 1 and 2 are false, then variable 3 by the first clause.
fn two_level_trail(alloc: Global) -> Result<Trail, NoMemory>
    ensures entries { IfOk result (λ trail. trail.entries ≡
        record { lit = plain 3; level = 2; reason = Some (original 0) }
        ∷ record { lit = negated 2; level = 2; reason = None }
        ∷ record { lit = negated 1; level = 1; reason = None }
        ∷ []) }
    ensures saved { IfOk result (λ trail. length trail.saved ≡ 3) }
{
    let mut trail = Trail::with_room(alloc, 3)?;
    trail.decide(no(1));
    trail.decide(no(2));
    trail.imply(yes(3), Name::original(0));
    Ok(trail)
}

/// Variable 1 by the first clause and variable 2 by the second, with no decision.
fn root_trail(alloc: Global) -> Result<Trail, NoMemory>
    ensures { IfOk result (λ trail. trail.entries ≡
        record { lit = plain 2; level = 0; reason = Some (original 1) }
        ∷ record { lit = plain 1; level = 0; reason = Some (original 0) }
        ∷ []) }
{
    let mut trail = Trail::with_room(alloc, 2)?;
    trail.imply(yes(1), Name::original(0));
    trail.imply(yes(2), Name::original(1));
    Ok(trail)
}

/// Variable 1 by the first clause and variable 2 by the second, then the decisions of 3 to 7, then variable 8 by the
/// third clause.
fn long_trail(alloc: Global) -> Result<Trail, NoMemory>
    ensures entries { IfOk result (λ trail. trail.entries ≡
        record { lit = plain 8; level = 5; reason = Some (original 2) }
        ∷ record { lit = plain 7; level = 5; reason = None }
        ∷ record { lit = plain 6; level = 4; reason = None }
        ∷ record { lit = plain 5; level = 3; reason = None }
        ∷ record { lit = plain 4; level = 2; reason = None }
        ∷ record { lit = plain 3; level = 1; reason = None }
        ∷ record { lit = plain 2; level = 0; reason = Some (original 1) }
        ∷ record { lit = plain 1; level = 0; reason = Some (original 0) }
        ∷ []) }
    ensures saved { IfOk result (λ trail. length trail.saved ≡ 8) }
{
    let mut trail = Trail::with_room(alloc, 8)?;
    trail.imply(yes(1), Name::original(0));
    trail.imply(yes(2), Name::original(1));
    trail.decide(yes(3));
    trail.decide(yes(4));
    trail.decide(yes(5));
    trail.decide(yes(6));
    trail.decide(yes(7));
    trail.imply(yes(8), Name::original(2));
    Ok(trail)
}

/// Compares a lesson with what is expected.
fn expect(
    rt: &impl Abort,
    lesson: &Lesson,
    lits: &[Lit],
    hints: &[Name],
    back: u32,
    touched: &[u32],
) {
    assert_eq!(rt; lesson.lits.as_slice(), lits);
    assert_eq!(rt; lesson.hints.as_slice(), hints);
    assert_eq!(rt; lesson.back, back);
    assert_eq!(rt; lesson.touched.as_slice(), touched);
}

/// A conflict at level 1, whose reasons go down to level 0.
fn expect_forked(rt: &impl Abort, alloc: Global, analyser: &mut Analyser) -> Result<(), NoMemory>
    requires { analyser.old ≡ 3 }
    ensures { analyser.new ≡ 3 }
{
    let (first, clause, other) = ([yes(1)], [no(1), yes(2), yes(3)], [no(1), yes(2), no(3)]);
    let pool = pool_of(alloc, &first, &clause, &other)?;
    let lesson = analyser.analyse(&pool, &forked_trail(alloc)?, Name::original(2))?;
    let hints = [Name::original(0), Name::original(1), Name::original(2)];
    expect(rt, &lesson, &[yes(2)], &hints, 0, &[3, 2]);
    Ok(())
}

/// A conflict at level 2, with an entry of level 1 that stays.
fn expect_two_levels(
    rt: &impl Abort,
    alloc: Global,
    analyser: &mut Analyser,
) -> Result<(), NoMemory>
    requires { analyser.old ≡ 3 }
    ensures { analyser.new ≡ 3 }
{
    let (clause, other) = ([yes(1), yes(2), yes(3)], [yes(1), yes(2), no(3)]);
    let pool = pool_of(alloc, &clause, &other, &clause)?;
    let lesson = analyser.analyse(&pool, &two_level_trail(alloc)?, Name::original(1))?;
    let hints = [Name::original(0), Name::original(1)];
    expect(rt, &lesson, &[yes(2), yes(1)], &hints, 1, &[3, 2, 1]);
    Ok(())
}

/// A conflict at level 5 that marks entries of levels 2 and 4, out of their order, and one of level 0, whose reason marks
/// another.
fn expect_long(rt: &impl Abort, alloc: Global) -> Result<(), NoMemory> {
    let (first, second, clause) = ([yes(1)], [no(1), yes(2)], [no(2), no(7), yes(8)]);
    let other = [no(4), no(2), no(8), no(6), no(7)];
    let pool = pool_of_four(alloc, &first, &second, &clause, &other)?;
    let mut analyser = Analyser::make(alloc, 8)?;
    let lesson = analyser.analyse(&pool, &long_trail(alloc)?, Name::original(3))?;
    let hints = [
        Name::original(0),
        Name::original(1),
        Name::original(2),
        Name::original(3),
    ];
    expect(
        rt,
        &lesson,
        &[no(7), no(6), no(4)],
        &hints,
        4,
        &[8, 7, 6, 4],
    );
    Ok(())
}

/// A conflict at level 0.
fn expect_root(rt: &impl Abort, alloc: Global) -> Result<(), NoMemory> {
    let (first, clause, other) = ([yes(1)], [no(1), yes(2)], [no(2)]);
    let pool = pool_of(alloc, &first, &clause, &other)?;
    let lesson = analyse(alloc, &pool, &root_trail(alloc)?, Name::original(2))?;
    let hints = [Name::original(0), Name::original(1), Name::original(2)];
    expect(rt, &lesson, &[], &hints, 0, &[]);
    Ok(())
}

#[test]
fn small_conflicts_teach_their_lessons(rt: HostRuntime) -> Result<(), Fail> {
    let alloc = rt.alloc();
    let mut analyser = Analyser::make(alloc, 3)?;
    expect_forked(&rt, alloc, &mut analyser)?;
    expect_two_levels(&rt, alloc, &mut analyser)?;
    expect_forked(&rt, alloc, &mut analyser)?;
    expect_long(&rt, alloc)?;
    expect_root(&rt, alloc)?;
    Ok(())
}
