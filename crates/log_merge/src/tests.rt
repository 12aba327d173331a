ghost use Rattle.std.specs.Prelude.{◌≡◌, [], ◌∷◌, IfOk};
ghost use Rattle.lit_base.specs.Rounds.{original};
ghost use Rattle.solo_core.specs.State.{lemma_name};
ghost use Rattle.log_merge.specs.Numbering.{HasNumber};

use crate::{Numbers, Stop, write_part};
use desk_io::{MemoryOutputs, Port};
use lit_base::{List, Lit, Name, NoMemory};
use solo_core::Lemma;
use std::alloc::Global;
use std::process::Abort;
use std::test::Fail;

fn name(period: u32, core: u32, index: u32) -> Name
    ensures { result ≡ lemma_name period core index }
{
    Name {
        period,
        core,
        index,
    }
}

fn expect_number(rt: &impl Abort, numbers: &Numbers, name: Name, number: u64)
    requires { HasNumber numbers.now name }
{
    assert_eq!(rt; numbers.number(name), number);
}

#[test]
fn numbers_go_by_period_core_and_index(rt: HostRuntime) -> Result<(), Fail> {
    let mut numbers = Numbers::new(rt.alloc(), 4, 2);
    numbers.end_period(&[2, 1])?;
    numbers.end_period(&[0, 3])?;
    expect_number(&rt, &numbers, name(0, 0, 0), 1);
    expect_number(&rt, &numbers, name(0, 0, 3), 4);
    expect_number(&rt, &numbers, name(1, 0, 1), 6);
    expect_number(&rt, &numbers, name(1, 1, 0), 7);
    expect_number(&rt, &numbers, name(2, 1, 2), 10);
    Ok(())
}

/// The lemma of one literal that the clauses `1 2` and `1 -2` teach.
fn unit_lemma(alloc: Global) -> Result<Lemma, NoMemory>
    ensures name { IfOk result (λ lemma. lemma.name ≡ lemma_name 1 0 0) }
    ensures hints { IfOk result (λ lemma. lemma.hints ≡ original 0 ∷ original 1 ∷ []) }
{
    let mut lits = List::new(alloc);
    lits.push(Lit::of(1, true))?;
    let mut hints = List::new(alloc);
    hints.push(name(0, 0, 0))?;
    hints.push(name(0, 0, 1))?;
    Ok(Lemma {
        name: name(1, 0, 0),
        lits,
        hints,
    })
}

/// The empty lemma that the clauses `-1 2` and `-1 -2` then teach.
fn empty_lemma(alloc: Global) -> Result<Lemma, NoMemory>
    ensures name { IfOk result (λ lemma. lemma.name ≡ lemma_name 1 0 1) }
    ensures hints { IfOk result (λ lemma. lemma.hints ≡ lemma_name 1 0 0 ∷ original 2 ∷ original 3 ∷ []) }
{
    let mut hints = List::new(alloc);
    hints.push(name(1, 0, 0))?;
    hints.push(name(0, 0, 2))?;
    hints.push(name(0, 0, 3))?;
    Ok(Lemma {
        name: name(1, 0, 1),
        lits: List::new(alloc),
        hints,
    })
}

/// Writes both lemmas, and answers how that ended.
fn write_both(alloc: Global, outputs: &mut MemoryOutputs) -> Result<Result<(), Stop>, NoMemory> {
    let mut numbers = Numbers::new(alloc, 4, 1);
    numbers.end_period(&[2])?;
    let lemmas = [unit_lemma(alloc)?, empty_lemma(alloc)?];
    Ok(write_part(alloc, &numbers, &lemmas, outputs))
}

#[test]
fn a_part_is_written_up_to_a_write_that_fails(rt: HostRuntime) -> Result<(), Fail> {
    let alloc = rt.alloc();
    let whole = b"5 1 0 1 2 0\n6 0 5 3 4 0\n".as_slice();
    for (grain, number, front) in [
        (1, 100, whole),
        (4096, 2, whole),
        (1, 3, b"5 "),
        (9, 2, b"5 1 0 1 2"),
        (4096, 1, b""),
    ] {
        assert!(rt; grain > 0);
        let mut failing = List::new(alloc);
        failing.push((Port::Log, number))?;
        let mut outputs = MemoryOutputs::new(alloc, grain, failing);
        let ended = write_both(alloc, &mut outputs)?;
        assert_eq!(rt;
            ended,
            if front.len() == whole.len() {
                Ok(())
            } else {
                Err(Stop::WriteFault)
            },
            "grain {grain}"
        );
        assert_eq!(rt; outputs.kept(Port::Log), front, "grain {grain}");
    }
    Ok(())
}
