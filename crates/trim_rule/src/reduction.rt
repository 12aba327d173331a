ghost use Rattle.std.specs.Prelude.{◌≡◌, ◌/◌, length, map, filter, take, nat_lt, IfOk};
ghost use Rattle.std.specs.Ordering.{is_lt};
ghost use Rattle.std.specs.List.Sorted.{IsPermutation};
ghost use Rattle.trim_rule.specs.Reduction.{dropped_names, goes_before, lemma_reasons};
ghost use Rattle.trim_rule.specs.Laws.{MayBeDropped, HaveOtherReasons, IsInOrder};

use clause_pool::{Pool, Tally};
use lit_base::{Entry, List, Name, NoMemory};
use std::alloc::Global;
use std::cmp::Ordering;
use trail_book::Trail;

/// The clauses that a reduction drops, in the order in which they go: of the lemmas that have more than two literals and
/// are no reason on the trail the first half, rounded down, by uses rising, then by length falling, then by names rising
/// (halving the learnt clauses: Eén and Sörensson 2003; the order is this product's own).
///
/// Memory is taken for the names of reasons and for a tally of each lemma; `NoMemory` where there is none. The lemmas are
/// gone through once and sorted, and the originals that the pool finds by index aren't looked at.
pub fn choose(alloc: Global, pool: &Pool, trail: &Trail) -> Result<List<Name>, NoMemory>
    ensures names { IfOk result (λ names. names ≡ dropped_names pool.now.held trail.now.entries) }
    // They are as `Pool::drop_names` asks for.
    ensures dropped { IfOk result (λ names. MayBeDropped pool.now.held names) }
    ensures reasons { IfOk result (λ names. HaveOtherReasons trail.now.entries names) }
{
    let reasons = lemma_reasons(alloc, trail.entries())?;
    let mut tallies = pool.tallies(alloc, &reasons)?;
    keep_long(&mut tallies);
    put_in_order(&mut tallies);
    first_half(alloc, &tallies)
}

/// The names of the lemmas that are reasons of entries.
fn lemma_reasons(alloc: Global, entries: &[Entry]) -> Result<Vec<Name>, NoMemory>
    ensures { IfOk result (λ names. names.items ≡ lemma_reasons entries.now) }
{
    let mut names = Vec::new(alloc);
    for entry in entries {
        if let Some(name) = entry.reason {
            if name.period != 0 {
                names.push(name)?;
            }
        }
    }
    Ok(names)
}

/// Takes out the clauses of at most two literals.
fn keep_long(tallies: &mut Vec<Tally>)
    ensures { tallies.new.items ≡ filter (λ t. nat_lt 2 t.size) tallies.old.items }
{
    tallies.retain(|tally| tally.size > 2);
}

/// Sorts candidates, those first that go first.
fn put_in_order(tallies: &mut [Tally])
    ensures permutation { IsPermutation tallies.old tallies.new }
    ensures sorted { IsInOrder goes_before tallies.new }
{
    tallies.sort_unstable_by(|a, b| order_of(a, b));
}

/// Less exactly where the first of two clauses goes before the second.
fn order_of(a: &Tally, b: &Tally) -> Ordering
    ensures { is_lt result ≡ goes_before a.now b.now }
{
    a.uses
        .cmp(&b.uses)
        .then(b.size.cmp(&a.size))
        .then(a.name.cmp(&b.name))
}

/// The names of the first half, rounded down.
fn first_half(alloc: Global, tallies: &[Tally]) -> Result<List<Name>, NoMemory>
    ensures { IfOk result (λ names. names ≡ map (λ t. t.name) (take (length tallies.now / 2) tallies.now)) }
{
    let mut names = List::new(alloc);
    for tally in &tallies[..tallies.len() / 2] {
        names.push(tally.name)?;
    }
    Ok(names)
}
