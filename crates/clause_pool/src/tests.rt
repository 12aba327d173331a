ghost use Rattle.std.specs.Prelude.{◌≡◌, ◌<◌, ◌≤◌, length, All, IsSome, IfOk, Some, None};
ghost use Rattle.lit_base.specs.Named.{lits_at};
ghost use Rattle.lit_base.specs.Held.{clauses_of};

use crate::{Pool, Span, Steps};
use lit_base::{Clause, Lit, Name};
use std::alloc::Global;
use std::marker::Brand;
use std::process::Abort;
use std::sync::ledger::{Blank, Ledger};
use std::test::Fail;

/// Adds a clause of these DIMACS numbers under a new name.
fn add(
    rt: &impl Abort,
    alloc: Global,
    pool: &mut Pool,
    name: Name,
    numbers: &[i32],
) -> Result<(), Fail> {
    let mut lits = Vec::new(alloc);
    for number in numbers {
        lits.push(Lit::new(*number).expect(rt, "a literal"))?;
    }
    assert!(rt; !pool.held(name));
    let clause = Clause::of(alloc, &lits)?;
    pool.add(name, clause.lits())?;
    Ok(())
}

/// Whether the clause with this name has these DIMACS numbers.
fn has<L: Ledger>(
    rt: &impl Abort,
    pool: &Pool,
    name: Name,
    steps: &mut Steps<L>,
    numbers: &[i32],
) -> bool {
    assert!(rt; pool.held(name));
    are(pool.lits(name, steps), numbers)
}

/// Where the clause with this name stands, where it has these DIMACS numbers there.
fn place_of<L: Ledger>(
    pool: &Pool,
    name: Name,
    steps: &mut Steps<L>,
    numbers: &[i32],
) -> Option<Span> {
    let span = pool.span(name)?;
    if are(pool.lits_in(span, steps), numbers) {
        Some(span)
    } else {
        None
    }
}

/// Whether each clause has its DIMACS numbers, by its name and where it is to stand.
fn stand<L: Ledger>(
    rt: &impl Abort,
    pool: &Pool,
    steps: &mut Steps<L>,
    clauses: &[(Name, usize, &[i32])],
) {
    for &(name, start, numbers) in clauses {
        assert!(rt; has(rt, pool, name, steps, numbers));
        let span = place_of(pool, name, steps, numbers).expect(rt, "a clause that stands");
        assert_eq!(rt; span.start, start);
        assert_eq!(rt; span.end.checked_sub(start), Some(numbers.len()));
    }
}

/// Whether these are the literals of these DIMACS numbers.
fn are(lits: &[Lit], numbers: &[i32]) -> bool {
    lits.len() == numbers.len()
        && lits
            .iter()
            .zip(numbers)
            .all(|(lit, number)| lit.number() == *number)
}

/// The uses of a clause.
fn uses(rt: &impl Abort, pool: &Pool, name: Name) -> u64 {
    assert!(rt; pool.held(name));
    pool.uses(name)
}

/// Counts a use of a clause.
fn count_use(rt: &impl Abort, pool: &mut Pool, name: Name) {
    assert!(rt; pool.held(name));
    let uses = pool.uses(name);
    assert!(rt; uses < 100);
    pool.count_use(name);
}

/// Drops one lemma.
fn drop_one(rt: &impl Abort, pool: &mut Pool, name: Name) {
    assert!(rt; pool.held(name) && name.period != 0);
    pool.drop_names(&[name]);
}

/// Adds these clauses, each of which stands behind those before it.
fn add_all(
    rt: &impl Abort,
    alloc: Global,
    pool: &mut Pool,
    clauses: &[(Name, usize, &[i32])],
) -> Result<(), Fail> {
    for &(name, _, numbers) in clauses {
        add(rt, alloc, pool, name, numbers)?;
    }
    Ok(())
}

/// No clauses of these names are held, and they stand nowhere.
fn none_held(rt: &impl Abort, pool: &Pool, names: &[Name]) {
    for name in names {
        assert!(rt; !pool.held(*name) && pool.span(*name).is_none());
    }
}

/// Clauses are added and read: two of the first originals, lemmas, an original out of order, and one behind it.
fn read<L: Ledger>(
    rt: &impl Abort,
    alloc: Global,
    pool: &mut Pool,
    steps: &mut Steps<L>,
) -> Result<(), Fail> {
    let clauses = [
        (Name::original(0), 0, [1, -2].as_slice()),
        (Name::original(1), 2, &[]),
        (Name::lemma(1, 2, 0), 2, &[1, -2]),
        (Name::original(7), 4, &[-3]),
        (Name::lemma(1, 0, 9), 5, &[]),
        (Name::original(2), 5, &[4, 5, -1_000_000]),
        (Name::lemma(u32::MAX, 31, u32::MAX), 8, &[2, 1]),
    ];
    add_all(rt, alloc, pool, &clauses)?;
    stand(rt, pool, steps, &clauses);
    let others = [
        Name::original(3),
        Name::lemma(0, 1, 0),
        Name::lemma(1, 2, 1),
    ];
    none_held(rt, pool, &others);
    assert_eq!(rt; pool.volume(), 3);
    Ok(())
}

/// Counts a use of each of these clauses.
fn count_uses(rt: &impl Abort, pool: &mut Pool, names: &[Name]) {
    for name in names {
        count_use(rt, pool, *name);
    }
}

/// Uses of lemmas are counted and those of originals are not, and no clause moves.
fn counted<L: Ledger>(rt: &impl Abort, pool: &mut Pool, steps: &mut Steps<L>) {
    let names = [
        Name::lemma(1, 0, 9),
        Name::original(0),
        Name::original(7),
        Name::lemma(1, 0, 9),
        Name::lemma(1, 2, 0),
    ];
    count_uses(rt, pool, &names);
    for (name, times) in [
        (Name::lemma(1, 0, 9), 2),
        (Name::original(0), 0),
        (Name::original(7), 0),
        (Name::lemma(1, 2, 0), 1),
    ] {
        assert_eq!(rt; uses(rt, pool, name), times);
    }
    let clauses = [
        (Name::lemma(1, 2, 0), 2, [1, -2].as_slice()),
        (Name::lemma(1, 0, 9), 5, &[]),
    ];
    stand(rt, pool, steps, &clauses);
}

/// The lemmas but one are tallied.
fn tallied(rt: &impl Abort, alloc: Global, pool: &Pool) -> Result<(), Fail> {
    let but = [Name::lemma(1, 0, 9), Name::lemma(1, 0, 8)];
    let tallies = pool.tallies(alloc, &but)?;
    assert_eq!(rt; tallies.len(), 2);
    for (tally, size, times) in [(tallies[0], 2, 1), (tallies[1], 2, 0)] {
        assert!(rt; tally.size == size && tally.uses == times && tally.name.core != 0);
    }
    Ok(())
}

/// A clause is dropped and added again, and all uses are cleared: the clauses behind the dropped one move up, and it stands
/// behind all of them.
fn dropped<L: Ledger>(
    rt: &impl Abort,
    alloc: Global,
    pool: &mut Pool,
    steps: &mut Steps<L>,
) -> Result<(), Fail> {
    drop_one(rt, pool, Name::lemma(1, 2, 0));
    none_held(rt, pool, &[Name::lemma(1, 2, 0)]);
    assert_eq!(rt; pool.volume(), 2);
    assert_eq!(rt; uses(rt, pool, Name::lemma(1, 0, 9)), 2);
    pool.clear_uses();
    assert_eq!(rt; uses(rt, pool, Name::lemma(1, 0, 9)), 0);
    add(rt, alloc, pool, Name::lemma(1, 2, 0), &[6])?;
    assert_eq!(rt; pool.volume(), 3);
    let clauses = [
        (Name::original(0), 0, [1, -2].as_slice()),
        (Name::original(1), 2, &[]),
        (Name::original(7), 2, &[-3]),
        (Name::lemma(1, 0, 9), 3, &[]),
        (Name::original(2), 3, &[4, 5, -1_000_000]),
        (Name::lemma(u32::MAX, 31, u32::MAX), 6, &[2, 1]),
        (Name::lemma(1, 2, 0), 8, &[6]),
    ];
    stand(rt, pool, steps, &clauses);
    Ok(())
}

/// Clauses are added, read, counted, dropped and added again.
fn read_and_dropped<L: Ledger, R: Abort>(rt: &R, alloc: Global, blank: Blank) -> Result<(), Fail>
    requires name { blank.name ≡ L.name }
    requires parts { blank.parts ≡ L.parts }
    requires some { 0 < L.parts }
{
    let mut pool = Pool::new(alloc);
    let mut steps = Steps::<L>::new(blank);
    read(rt, alloc, &mut pool, &mut steps)?;
    counted(rt, &mut pool, &mut steps);
    tallied(rt, alloc, &pool)?;
    dropped(rt, alloc, &mut pool, &mut steps)
}

/// Many lemmas are added and most dropped, so that the chains grow and the slots are packed.
fn fill(rt: &impl Abort, alloc: Global, pool: &mut Pool) -> Result<(), Fail> {
    for index in 0..2000 {
        let name = Name::lemma(1 + index % 3, 0, index);
        add(rt, alloc, pool, name, &[index as i32 + 1, -7])?;
        if index % 10 != 0 {
            drop_one(rt, pool, name);
        }
    }
    assert_eq!(rt; pool.volume(), 200);
    Ok(())
}

/// The lemmas that are left stand one behind the other, two literals each.
fn packed<L: Ledger, R: Abort>(rt: &R, alloc: Global, blank: Blank) -> Result<(), Fail>
    requires name { blank.name ≡ L.name }
    requires parts { blank.parts ≡ L.parts }
    requires some { 0 < L.parts }
{
    let mut pool = Pool::new(alloc);
    let mut steps = Steps::<L>::new(blank);
    fill(rt, alloc, &mut pool)?;
    for index in 0..2000 {
        let name = Name::lemma(1 + index % 3, 0, index);
        assert_eq!(rt; pool.held(name), index % 10 == 0);
        let numbers = [index as i32 + 1, -7];
        let start = (index / 10 * 2) as usize;
        let span = place_of(&pool, name, &mut steps, &numbers);
        let here = Span {
            start,
            end: start + 2,
        };
        assert_eq!(rt; span == Some(here), index % 10 == 0);
    }
    Ok(())
}

#[test]
fn clauses_are_found_by_name_until_they_are_dropped(rt: HostRuntime) -> Result<(), Fail> {
    read_and_dropped::<Brand, HostRuntime>(&rt, rt.alloc(), Blank::new(1))
}

#[test]
fn room_of_dropped_clauses_is_taken_back(rt: HostRuntime) -> Result<(), Fail> {
    packed::<Brand, HostRuntime>(&rt, rt.alloc(), Blank::new(1))
}
