ghost use Rattle.std.specs.Prelude.{◌≡◌, ◌<◌, [], List, All, IsTrue, Some, OnOk, not, find};
ghost use Rattle.lit_base.specs.Literal.{Literal};
ghost use Rattle.lit_base.specs.Trail.{is_false, is_true};
ghost use Rattle.lit_base.specs.Quiet.{IsQuiet};
ghost use Rattle.lit_base.specs.Named.{lits_at};
ghost use Rattle.lit_base.specs.Held.{clauses_of, is_among};
ghost use Rattle.lit_base.specs.declared.name.Name.{Name};
ghost use Rattle.trail_book.specs.TrailState.{decided};
ghost use Rattle.round_prop.specs.Attached.{IsAttached};
ghost use Rattle.round_prop.specs.Propagation.{MayPropagate};

use crate::clause::{is_false, other_link};
use crate::removal::is_among;
use crate::{Found, Rounds};
use clause_pool::{Pool, Steps};
use lit_base::{Clause, Lit, Name, NoMemory, Value};
use std::alloc::Global;
use std::marker::Brand;
use std::process::Abort;
use std::sync::ledger::{Blank, Ledger};
use std::test::Fail;
use trail_book::Trail;

/// What is decided, a formula, the literals that propagation adds, each with the place of its reason in the formula, and
/// the place of the conflict.
struct Case {
    decided: &'static [i32],
    clauses: &'static [&'static [i32]],
    implied: &'static [(i32, u32)],
    conflict: Option<u32>,
}

const CASES: [Case; 6] = [
    // nothing to do
    Case {
        decided: &[],
        clauses: &[&[1, 2], &[-1, 2, 3]],
        implied: &[],
        conflict: None,
    },
    // two opposite units: the second is falsified in the second round
    Case {
        decided: &[],
        clauses: &[&[1], &[-1]],
        implied: &[(1, 0)],
        conflict: Some(1),
    },
    // a chain, against the order of names
    Case {
        decided: &[4],
        clauses: &[&[-2, 3], &[-1, 2], &[1, -4]],
        implied: &[(1, 2), (2, 1), (3, 0)],
        conflict: None,
    },
    // the least of two falsified names, and no unit
    Case {
        decided: &[-1],
        clauses: &[&[2], &[1], &[1, 1]],
        implied: &[],
        conflict: Some(1),
    },
    // units of one snapshot: the first of two that imply a literal is its reason
    Case {
        decided: &[1],
        clauses: &[&[-1, 3], &[2, 2], &[2, -1], &[-2, -3]],
        implied: &[(3, 0), (2, 1)],
        conflict: Some(3),
    },
    // the empty clause
    Case {
        decided: &[],
        clauses: &[&[3], &[]],
        implied: &[],
        conflict: Some(1),
    },
];

/// What a script does next.
enum Act {
    /// holds and attaches a clause under the name of this place
    Hold(u32, &'static [i32]),
    /// drops and detaches the clause of this place
    Release(u32),
    /// decides a literal
    Decide(i32),
    /// jumps to a level where no held clause is unit or falsified, or no entry is left
    Jump(u32),
    /// propagates: the literals that this adds, each with the place of its reason, and the place of the conflict
    Propagate(&'static [(i32, u32)], Option<u32>),
    /// does so twice, and the second call adds nothing
    PropagateTwice(&'static [(i32, u32)], Option<u32>),
}

/// Clauses come between two propagations, the first as a unit, and after a jump.
const LATE: [Act; 9] = [
    Act::Hold(0, &[-1, 2]),
    Act::Decide(1),
    Act::Propagate(&[(2, 0)], None),
    Act::Hold(1, &[-2, 3]),
    Act::Propagate(&[(3, 1)], None),
    Act::Jump(0),
    Act::Hold(2, &[-3, -1]),
    Act::Decide(1),
    Act::Propagate(&[(2, 0), (-3, 2)], Some(1)),
];

/// A conflict is met again where nothing has changed, and after a decision; not after a jump.
const AGAIN: [Act; 10] = [
    Act::Hold(0, &[-1, 2]),
    Act::Hold(1, &[-1, -2]),
    Act::Decide(1),
    Act::PropagateTwice(&[(2, 0)], Some(1)),
    Act::PropagateTwice(&[], Some(1)),
    Act::Decide(3),
    Act::PropagateTwice(&[], Some(1)),
    Act::Jump(0),
    Act::PropagateTwice(&[], None),
    Act::Propagate(&[], None),
];

/// A clause of one literal comes late, and is unit again where no entry is left; then a second one, which that falsifies.
const SHORT: [Act; 12] = [
    Act::Hold(0, &[-1, 2]),
    Act::Decide(1),
    Act::Propagate(&[(2, 0)], None),
    Act::Hold(2, &[3]),
    Act::PropagateTwice(&[(3, 2)], None),
    Act::Jump(0),
    Act::PropagateTwice(&[(3, 2)], None),
    Act::Decide(1),
    Act::Propagate(&[(2, 0)], None),
    Act::Jump(0),
    Act::Hold(1, &[-3]),
    Act::PropagateTwice(&[], Some(1)),
];

/// The empty clause comes late, and is falsified on each trail.
const EMPTY: [Act; 7] = [
    Act::Decide(1),
    Act::Propagate(&[], None),
    Act::Hold(0, &[]),
    Act::PropagateTwice(&[], Some(0)),
    Act::Jump(0),
    Act::PropagateTwice(&[], Some(0)),
    Act::Propagate(&[], Some(0)),
];

/// A linked clause goes, a fresh one, a short one, and that of a conflict, after which the next one is met.
const GONE: [Act; 20] = [
    Act::Hold(0, &[-1, 2]),
    Act::Hold(1, &[-1, 3]),
    Act::Hold(2, &[4]),
    Act::Hold(3, &[-2, -3]),
    Act::Hold(4, &[-3, -2]),
    Act::Decide(1),
    Act::Propagate(&[(2, 0), (3, 1), (4, 2)], Some(3)),
    Act::Release(3),
    Act::PropagateTwice(&[], Some(4)),
    Act::Jump(0),
    Act::Release(0),
    Act::Hold(5, &[-3, -1]),
    Act::Release(5),
    Act::Decide(1),
    Act::PropagateTwice(&[(3, 1), (4, 2), (-2, 4)], None),
    Act::Jump(0),
    Act::Release(2),
    Act::Release(4),
    Act::Decide(2),
    Act::PropagateTwice(&[], None),
];

/// The links of a clause move on as its literals become false, and the clause is unit wherever all but one are.
const MOVING: [Act; 20] = [
    Act::Hold(0, &[1, 2, 3, 4]),
    Act::Decide(-1),
    Act::Propagate(&[], None),
    Act::Decide(-2),
    Act::Propagate(&[], None),
    Act::Decide(-3),
    Act::PropagateTwice(&[(4, 0)], None),
    Act::Jump(1),
    Act::Decide(-4),
    Act::PropagateTwice(&[], None),
    Act::Decide(-3),
    Act::Propagate(&[(2, 0)], None),
    Act::Jump(2),
    Act::Decide(-2),
    Act::PropagateTwice(&[(3, 0)], None),
    Act::Jump(0),
    Act::Decide(-2),
    Act::Decide(-3),
    Act::Decide(-4),
    Act::PropagateTwice(&[(1, 0)], None),
];

/// The name of the clause at this place, as that of a lemma, since a core drops no originals.
fn name(index: u32) -> Name {
    Name::lemma(1, 0, index)
}

/// What is found where the clause at this place is the conflict.
fn found_at(conflict: Option<u32>) -> Found {
    match conflict {
        Some(index) => Found::Conflict(name(index)),
        None => Found::Fix,
    }
}

/// The clause of these DIMACS numbers.
fn clause(rt: &impl Abort, alloc: Global, numbers: &[i32]) -> Result<Clause, NoMemory> {
    let mut lits = Vec::new(alloc);
    for number in numbers {
        lits.push(Lit::new(*number).expect(rt, "a literal"))?;
    }
    Clause::of(alloc, &lits)
}

/// Adds a clause to the pool and attaches it.
fn hold(
    rt: &impl Abort,
    pool: &mut Pool,
    rounds: &mut Rounds,
    trail: &Trail,
    name: Name,
    clause: &Clause,
) -> Result<(), NoMemory>
    requires { MayPropagate rounds.old pool.old trail.now }
    ensures may { OnOk result (MayPropagate rounds.new pool.new trail.now) }
    ensures names { OnOk result ((names : List Name) → IsTrue (is_among names name) → All (λ c. IsTrue (is_among names c.name)) (clauses_of pool.old.held) →
        All (λ c. IsTrue (is_among names c.name)) (clauses_of pool.new.held)) }
{
    assert!(rt; !pool.held(name));
    assert!(rt; clause.is_within(trail.variables()));
    pool.add(name, clause.lits())?;
    assert!(rt; pool.held(name));
    rounds.attach(pool, trail, name)
}

/// Decides a literal, once it was seen to be free.
fn decide(rt: &impl Abort, trail: &mut Trail, lit: Lit)
    ensures { trail.new ≡ decided lit trail.old }
{
    assert!(rt; trail.is_free(lit.var()) && lit.var() <= trail.variables());
    trail.decide(lit);
}

/// Adds these clauses and attaches them, in the reverse order of their names.
fn hold_all(
    rt: &impl Abort,
    alloc: Global,
    pool: &mut Pool,
    rounds: &mut Rounds,
    trail: &Trail,
    clauses: &[&[i32]],
) -> Result<(), NoMemory>
    requires { MayPropagate rounds.old pool.old trail.now }
    ensures { OnOk result (MayPropagate rounds.new pool.new trail.now) }
{
    assert!(rt; clauses.len() < 10);
    for index in 0..clauses.len() {
        let place = clauses.len() - 1 - index;
        let clause = clause(rt, alloc, clauses[place])?;
        hold(rt, pool, rounds, trail, name(place as u32), &clause)?;
    }
    Ok(())
}

/// Drops and detaches a clause, once it was seen to be held.
fn release(rt: &impl Abort, pool: &mut Pool, rounds: &mut Rounds, trail: &Trail, name: Name)
    requires { MayPropagate rounds.old pool.old trail.now }
    ensures may { MayPropagate rounds.new pool.new trail.now }
    ensures names { (names : List Name) → All (λ c. IsTrue (is_among names c.name)) (clauses_of pool.old.held) →
        All (λ c. IsTrue (is_among names c.name)) (clauses_of pool.new.held) }
{
    assert!(rt; pool.held(name));
    assert!(rt; name.period != 0);
    pool.drop_names(&[name]);
    rounds.detach(pool, &[name]);
}

/// Propagates, and compares what is found and what the trail then has behind a place.
fn propagate<L: Ledger>(
    rt: &impl Abort,
    pool: &Pool,
    rounds: &mut Rounds,
    trail: &mut Trail,
    steps: &mut Steps<L>,
    case: &Case,
)
    requires { MayPropagate rounds.old pool.now trail.old }
    ensures { MayPropagate rounds.new pool.now trail.new }
{
    let from = case.decided.len();
    let level = trail.level();
    let found = rounds.propagate(pool, trail, steps);
    assert!(rt; found == found_at(case.conflict));
    assert!(rt; ends_with(trail, from, level, case.implied));
}

/// Whether the trail ends with these literals at this level, each with the place of its reason.
fn ends_with(trail: &Trail, from: usize, level: u32, implied: &[(i32, u32)]) -> bool {
    if trail.len() < from || trail.len() - from != implied.len() {
        return false;
    }
    for (place, (number, reason)) in implied.iter().enumerate() {
        let entry = trail.entry(from + place);
        if entry.lit.number() != *number || entry.level != level {
            return false;
        }
        if entry.reason != Some(name(*reason)) {
            return false;
        }
    }
    true
}

/// Decides the case's literals, holds its clauses and propagates, then without the first clause once more: no case has it
/// as conflict, so nothing changes.
fn check<L: Ledger>(
    rt: &impl Abort,
    alloc: Global,
    steps: &mut Steps<L>,
    case: &Case,
) -> Result<(), NoMemory> {
    let mut trail = Trail::with_room(alloc, 4)?;
    let mut pool = Pool::new(alloc);
    let mut rounds = Rounds::make(alloc, 4)?;
    for number in case.decided {
        decide(rt, &mut trail, Lit::new(*number).expect(rt, "a literal"));
    }
    hold_all(rt, alloc, &mut pool, &mut rounds, &trail, case.clauses)?;
    propagate(rt, &pool, &mut rounds, &mut trail, steps, case);
    rounds.jumped(&trail);
    release(rt, &mut pool, &mut rounds, &trail, name(0));
    propagate(rt, &pool, &mut rounds, &mut trail, steps, case);
    Ok(())
}

/// Propagates over each case, on the ledger of this blank.
fn check_all<L: Ledger>(rt: &impl Abort, alloc: Global, blank: Blank) -> Result<(), NoMemory>
    requires name { blank.name ≡ L.name }
    requires parts { blank.parts ≡ L.parts }
    requires some { 0 < L.parts }
{
    let mut steps = Steps::<L>::new(blank);
    for case in &CASES {
        check(rt, alloc, &mut steps, case)?;
    }
    Ok(())
}

/// The first literal of a clause that isn't false.
fn first_alive(trail: &Trail, lits: &[Lit]) -> Option<Lit>
    ensures { result ≡ find (λ m. not (is_false trail.now.entries m)) lits.now }
{
    lits.iter().copied().find(|lit| !is_false(trail, *lit))
}

/// Whether the literal is true on the trail.
fn is_true(trail: &Trail, lit: Lit) -> bool
    ensures { result ≡ is_true trail.now.entries lit }
{
    match trail.value(lit) {
        Value::False => false,
        Value::True => true,
        Value::Free => false,
    }
}

/// Whether a clause is neither unit nor falsified: the first of its literals that isn't false is true, or isn't the only one.
fn is_quiet(trail: &Trail, lits: &[Lit]) -> bool
    ensures { IsTrue result → IsQuiet trail.now.entries lits.now }
{
    match first_alive(trail, lits) {
        None => false,
        Some(lit) => is_true(trail, lit) || other_link(trail, lits, lit).is_some(),
    }
}

/// Sees that the clause of a name is neither unit nor falsified, where it is held.
fn see_quiet<L: Ledger>(
    rt: &impl Abort,
    pool: &Pool,
    trail: &Trail,
    steps: &mut Steps<L>,
    name: Name,
)
    ensures { (lits : List Literal) → lits_at (clauses_of pool.now.held) name ≡ Some lits → IsQuiet trail.now.entries lits }
{
    if pool.held(name) {
        assert!(rt; is_quiet(trail, pool.lits(name, steps)));
    }
}

/// Sees so of each of these names.
fn see_all_quiet<L: Ledger>(
    rt: &impl Abort,
    pool: &Pool,
    trail: &Trail,
    steps: &mut Steps<L>,
    names: &[Name],
)
    ensures { (name : Name) (lits : List Literal) → IsTrue (is_among names.now name) → lits_at (clauses_of pool.now.held) name ≡ Some lits → IsQuiet trail.now.entries lits }
{
    for name in names {
        see_quiet(rt, pool, trail, steps, *name);
    }
}

/// Jumps to a level, once no clause was seen to be unit or falsified there; on the empty trail any may be. All are under
/// these names.
fn jump<L: Ledger>(
    rt: &impl Abort,
    pool: &Pool,
    rounds: &mut Rounds,
    trail: &mut Trail,
    steps: &mut Steps<L>,
    names: &[Name],
    level: u32,
)
    requires may { MayPropagate rounds.old pool.now trail.old }
    requires names { All (λ c. IsTrue (is_among names.now c.name)) (clauses_of pool.now.held) }
    ensures { MayPropagate rounds.new pool.now trail.new }
{
    assert!(rt; level <= trail.level());
    trail.jump(level);
    if trail.len() > 0 {
        see_all_quiet(rt, pool, trail, steps, names);
    }
    rounds.jumped(trail);
}

/// Propagates, and compares what is found and what this adds to the trail.
fn extend<L: Ledger>(
    rt: &impl Abort,
    pool: &Pool,
    rounds: &mut Rounds,
    trail: &mut Trail,
    steps: &mut Steps<L>,
    implied: &[(i32, u32)],
    conflict: Option<u32>,
)
    requires { MayPropagate rounds.old pool.now trail.old }
    ensures may { MayPropagate rounds.new pool.now trail.new }
    ensures seen { IsAttached rounds.new (clauses_of pool.now.held) [] trail.new.entries }
{
    let from = trail.len();
    let level = trail.level();
    let found = rounds.propagate(pool, trail, steps);
    assert!(rt; found == found_at(conflict));
    assert!(rt; ends_with(trail, from, level, implied));
}

/// Propagates where all is seen: the same is found, nothing is added, and no clause is read.
fn repeat<L: Ledger>(
    rt: &impl Abort,
    pool: &Pool,
    rounds: &mut Rounds,
    trail: &mut Trail,
    steps: &mut Steps<L>,
    conflict: Option<u32>,
)
    requires may { MayPropagate rounds.old pool.now trail.old }
    requires seen { IsAttached rounds.old (clauses_of pool.now.held) [] trail.old.entries }
    ensures may { MayPropagate rounds.new pool.now trail.new }
    ensures steps { steps.new ≡ steps.old }
{
    let len = trail.len();
    let found = rounds.propagate(pool, trail, steps);
    assert!(rt; found == found_at(conflict));
    assert!(rt; trail.len() == len);
}

/// Does what a script says next; all clauses are under these names.
fn perform<L: Ledger>(
    rt: &impl Abort,
    alloc: Global,
    pool: &mut Pool,
    rounds: &mut Rounds,
    trail: &mut Trail,
    steps: &mut Steps<L>,
    names: &[Name],
    act: &Act,
) -> Result<(), NoMemory>
    requires may { MayPropagate rounds.old pool.old trail.old }
    requires names { All (λ c. IsTrue (is_among names.now c.name)) (clauses_of pool.old.held) }
    ensures may { OnOk result (MayPropagate rounds.new pool.new trail.new) }
    ensures names { OnOk result (All (λ c. IsTrue (is_among names.now c.name)) (clauses_of pool.new.held)) }
{
    match act {
        Act::Hold(place, numbers) => {
            let name = name(*place);
            assert!(rt; is_among(names, name));
            let clause = clause(rt, alloc, numbers)?;
            hold(rt, pool, rounds, trail, name, &clause)?;
        }
        Act::Release(place) => release(rt, pool, rounds, trail, name(*place)),
        Act::Decide(number) => decide(rt, trail, Lit::new(*number).expect(rt, "a literal")),
        Act::Jump(level) => jump(rt, pool, rounds, trail, steps, names, *level),
        Act::Propagate(implied, conflict) => {
            extend(rt, pool, rounds, trail, steps, implied, *conflict);
        }
        Act::PropagateTwice(implied, conflict) => {
            extend(rt, pool, rounds, trail, steps, implied, *conflict);
            repeat(rt, pool, rounds, trail, steps, *conflict);
        }
    }
    Ok(())
}

/// Does what a script says from the empty trail on, where no clause is held, on the ledger of this blank.
fn play_on<L: Ledger>(
    rt: &impl Abort,
    alloc: Global,
    blank: Blank,
    script: &[Act],
) -> Result<(), NoMemory>
    requires name { blank.name ≡ L.name }
    requires parts { blank.parts ≡ L.parts }
    requires some { 0 < L.parts }
{
    let mut steps = Steps::<L>::new(blank);
    let names = [name(0), name(1), name(2), name(3), name(4), name(5)];
    let mut trail = Trail::with_room(alloc, 4)?;
    let mut pool = Pool::new(alloc);
    let mut rounds = Rounds::make(alloc, 4)?;
    for act in script {
        perform(
            rt,
            alloc,
            &mut pool,
            &mut rounds,
            &mut trail,
            &mut steps,
            &names,
            act,
        )?;
    }
    Ok(())
}

/// The same on a ledger of its own.
fn play(rt: &impl Abort, alloc: Global, script: &[Act]) -> Result<(), NoMemory> {
    play_on::<Brand>(rt, alloc, Blank::new(1), script)
}

#[test]
fn rounds_go_by_snapshots_and_names(rt: HostRuntime) -> Result<(), Fail> {
    check_all::<Brand>(&rt, rt.alloc(), Blank::new(1))?;
    Ok(())
}

#[test]
fn clauses_come_late(rt: HostRuntime) -> Result<(), Fail> {
    play(&rt, rt.alloc(), &LATE)?;
    Ok(())
}

#[test]
fn a_conflict_is_met_again(rt: HostRuntime) -> Result<(), Fail> {
    play(&rt, rt.alloc(), &AGAIN)?;
    Ok(())
}

#[test]
fn a_short_clause_comes_late(rt: HostRuntime) -> Result<(), Fail> {
    play(&rt, rt.alloc(), &SHORT)?;
    Ok(())
}

#[test]
fn the_empty_clause_comes_late(rt: HostRuntime) -> Result<(), Fail> {
    play(&rt, rt.alloc(), &EMPTY)?;
    Ok(())
}

#[test]
fn clauses_go_with_their_notes(rt: HostRuntime) -> Result<(), Fail> {
    play(&rt, rt.alloc(), &GONE)?;
    Ok(())
}

#[test]
fn links_move_over_jumps(rt: HostRuntime) -> Result<(), Fail> {
    play(&rt, rt.alloc(), &MOVING)?;
    Ok(())
}
