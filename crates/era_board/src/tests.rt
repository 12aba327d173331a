//! Plain numbers on a board: the worked row of two parties, and many periods of 33 parties, each in a thread of its own.
ghost use Rattle.std.specs.Prelude.{◌≡◌, ◌≢◌, ℕ, ◌+◌, ◌*◌, ◌^◌, ◌<◌, ◌≤◌, IfOk};
ghost use Rattle.era_board.specs.Boards.{IsPassOf};
ghost use Rattle.era_board.specs.Passes.{account};
ghost use Rattle.era_board.specs.Periods.{IsAtRest, HasSent, MayReceive};

use crate::{Board, Look, Pass};
use board_rule::Told;
use lit_base::NoMemory;
use std::alloc::Global;
use std::marker::Sync;
use std::process::Abort;
use std::sync::Wait;
use std::test::Fail;
use std::thread;
use std::thread::Threads;

/// A number that tells its period, its sender and its receiver, on an occasion that is a number too.
#[derive(Drop)]
struct Note {
    value: u64,
}

impl Told for Note {
    type Occasion = u64;

    ghost fits = { λ occasion from to period note. note.value ≡ period * 10000 + from * 100 + to };
}

fn mail_of(from: u32, to: u32, period: u64) -> Note
    requires { (from < 33) × (to < 33) × (period ≤ 2 ^ 40) }
    ensures { result.value ≡ period * 10000 + from * 100 + to }
{
    Note {
        value: period * 10_000 + u64::from(from) * 100 + u64::from(to),
    }
}

/// Puts a mail for every other party, and arrives.
fn send(board: &Board<Note>, pass: &mut Pass<Note>)
    requires board { IsPassOf board.now pass.old }
    requires rest { IsAtRest (account pass.old) }
    requires few { (account pass.old).arrivals < 2 ^ 40 }
    ensures board { IsPassOf board.now pass.new }
    ensures sent { HasSent (account pass.new) }
    ensures number { (account pass.new).number ≡ (account pass.old).number }
    ensures arrivals { (account pass.new).arrivals ≡ (account pass.old).arrivals + 1 }
{
    for to in 0..board.parties() {
        if to != pass.number() {
            let mail = mail_of(pass.number(), to, pass.arrivals() + 1);
            board.put(pass, to, mail);
        }
    }
    board.arrive(pass);
}

/// Takes the mail of every other party, and says how many are not what was put.
fn receive(board: &Board<Note>, pass: &mut Pass<Note>) -> u32
    requires board { IsPassOf board.now pass.old }
    requires ready { MayReceive (account pass.old) }
    ensures board { IsPassOf board.now pass.new }
    ensures rest { IsAtRest (account pass.new) }
    ensures number { (account pass.new).number ≡ (account pass.old).number }
    ensures arrivals { (account pass.new).arrivals ≡ (account pass.old).arrivals }
    ensures few { result ≤ 33 }
{
    let mut wrong = 0;
    for from in 0..board.parties() {
        if from != pass.number() {
            let mail = board.take(pass, from);
            if mail.value != mail_of(from, pass.number(), pass.arrivals()).value {
                wrong += 1;
            }
        }
    }
    wrong
}

/// The look of a party that all others wait with, and that knows so. It ends the test where the look is `Ready`.
fn not_yet(rt: &impl Abort, board: &Board<Note>, pass: &mut Pass<Note>) -> u64
    requires board { IsPassOf board.now pass.old }
    requires sent { HasSent (account pass.old) }
    ensures board { IsPassOf board.now pass.new }
    ensures sent { HasSent (account pass.new) }
    ensures number { (account pass.new).number ≡ (account pass.old).number }
    ensures arrivals { (account pass.new).arrivals ≡ (account pass.old).arrivals }
{
    match board.look(pass) {
        Look::NotYet(seen) => seen,
        Look::Ready => panic!(rt; "ready before all have arrived"),
    }
}

/// The look of a party that all others have arrived with. It ends the test where the look is `NotYet`.
fn ready(rt: &impl Abort, board: &Board<Note>, pass: &mut Pass<Note>)
    requires board { IsPassOf board.now pass.old }
    requires sent { HasSent (account pass.old) }
    ensures board { IsPassOf board.now pass.new }
    ensures ready { MayReceive (account pass.new) }
    ensures number { (account pass.new).number ≡ (account pass.old).number }
    ensures arrivals { (account pass.new).arrivals ≡ (account pass.old).arrivals }
{
    match board.look(pass) {
        Look::NotYet(seen) => panic!(rt; "not ready at {seen} arrivals"),
        Look::Ready => (),
    }
}

/// Takes the mail of the other one of two parties.
fn take_from(board: &Board<Note>, pass: &mut Pass<Note>, from: u32) -> u64
    requires board { IsPassOf board.now pass.old }
    requires two { board.now.parties ≡ 2 }
    requires other { (from < 2) × (from ≢ (account pass.old).number) }
    requires ready { MayReceive (account pass.old) }
    ensures board { IsPassOf board.now pass.new }
    ensures rest { IsAtRest (account pass.new) }
    ensures number { (account pass.new).number ≡ (account pass.old).number }
    ensures arrivals { (account pass.new).arrivals ≡ (account pass.old).arrivals }
{
    board.take(pass, from).value
}

/// A board of two parties, and their passes.
fn pair(rt: &impl Abort, alloc: Global) -> Result<(Board<Note>, Pass<Note>, Pass<Note>), NoMemory>
    ensures parties { IfOk result (λ r. r.0.parties ≡ 2) }
    ensures first { IfOk result (λ r. IsPassOf r.0 r.1 × IsAtRest (account r.1) × ((account r.1).number ≡ 0) × ((account r.1).arrivals ≡ 0)) }
    ensures second { IfOk result (λ r. IsPassOf r.0 r.2 × IsAtRest (account r.2) × ((account r.2).number ≡ 1) × ((account r.2).arrivals ≡ 0)) }
{
    let (board, mut passes) = Board::<Note>::make(alloc, 2, &9)?;
    let second = passes.pop().expect(rt, "a second pass");
    let first = passes.pop().expect(rt, "a first pass");
    Ok((board, first, second))
}

#[test]
fn two_parties_give_each_other_their_mails(rt: HostRuntime) -> Result<(), Fail> {
    let (board, mut first, mut second) = pair(&rt, rt.alloc())?;
    send(&board, &mut first);
    assert_eq!(rt; not_yet(&rt, &board, &mut first), 1);
    send(&board, &mut second);
    ready(&rt, &board, &mut first);
    assert_eq!(rt; take_from(&board, &mut first, 1), 10_100);
    ready(&rt, &board, &mut second);

    // The first goes on into a period of the other bank, while the second still has to take from the last one.
    send(&board, &mut first);
    assert_eq!(rt; not_yet(&rt, &board, &mut first), 3);
    assert_eq!(rt; take_from(&board, &mut second, 0), 10_001);
    send(&board, &mut second);
    ready(&rt, &board, &mut first);
    ready(&rt, &board, &mut second);
    assert_eq!(rt; take_from(&board, &mut first, 1), 20_100);
    assert_eq!(rt; take_from(&board, &mut second, 0), 20_001);
    assert_eq!(rt;
        (board.parties(), first.number(), second.arrivals()),
        (2, 0, 2)
    );
    Ok(())
}

/// Works so many periods of a party, and says how many mails were not what was put.
fn serve(rt: &impl Wait, board: &Board<Note>, mut pass: Pass<Note>, periods: u32) -> u64
    requires board { IsPassOf board.now pass }
    requires rest { IsAtRest (account pass) }
    requires none { (account pass).arrivals ≡ 0 }
{
    let mut wrong = 0;
    for period in 0..periods {
        send(board, &mut pass);
        board.wait_ready(rt, &mut pass);
        wrong += u64::from(receive(board, &mut pass));
    }
    wrong
}

/// Works so many periods of a board, each party in a thread of its own, and says how many mails were not what was put.
fn crowd<R: Threads + Wait + Sync>(
    rt: &R,
    alloc: Global,
    parties: u32,
    periods: u32,
) -> Result<u64, NoMemory>
    requires some_party { 1 ≤ parties }
    requires few_parties { parties ≤ 33 }
{
    let (board, passes) = Board::<Note>::make(alloc, parties, &9)?;
    let counts = thread::map_vec(
        rt,
        passes,
        &|pass: Pass<Note>| -> u64
            requires { IsPassOf board pass × IsAtRest (account pass) × ((account pass).arrivals ≡ 0) }
        { serve(rt, &board, pass, periods) },
    )?;
    let mut wrong = 0_u64;
    for count in counts {
        wrong = wrong.saturating_add(count);
    }
    Ok(wrong)
}

#[test]
fn parties_in_threads_take_what_was_put(rt: HostRuntime) -> Result<(), Fail> {
    for (parties, periods) in [(1, 100), (2, 1_000), (5, 1_000), (33, 10_000)] {
        assert_eq!(rt;
            crowd(&rt, rt.alloc(), parties, periods)?,
            0,
            "with {parties} parties"
        );
    }
    Ok(())
}
