ghost use Rattle.std.specs.Prelude.{◌≡◌, ◌+◌, ◌^◌, ◌<◌, ◌≤◌, ◌↔◌, [], ◌∷◌, length, reverse, take, slice_range, IsTrue, Some, OnOk, OnErr};
ghost use Rattle.clause_pool.specs.Arena.{end_of, literals_in};
ghost use Rattle.clause_pool.specs.Spans.{span_at, laid};

use crate::arena::part;
use crate::span::Span;
use lit_base::{Lit, NoMemory};
use std::alloc::Global;
use std::marker::Model;

/// An end counts the literals up to it in 32 bits.
const MOST_LITERALS: usize = 4_294_967_295;

/// Clauses that are found by their index, seen by contracts as the list of their literals, the newest first.
///
/// A clause takes the 4 bytes of its end beside its literals, of which there are fewer than 2^32 in all.
#[derive(Debug, Drop)]
pub(crate) struct Originals {
    literals: Vec<Lit>,
    ends: Vec<u32>,
}

impl Model for Originals {
    ghost use Rattle.std.specs.Prelude.{List, reverse};
    ghost use Rattle.lit_base.specs.Literal.{Literal};

    ghost Value = { List (List Literal) };

    ghost use Rattle.clause_pool.specs.Arena.{parts_of, IsArena};

    ghost view = { λ o. parts_of o.literals.items (reverse o.ends.items) };

    ghost invariant = { λ o. IsArena o.literals.items (reverse o.ends.items) };
}

impl Originals {
    /// No clauses; takes no memory.
    pub(crate) fn new(alloc: Global) -> Originals
        ensures { result ≡ [] }
    {
        Originals {
            literals: Vec::new(alloc),
            ends: Vec::new(alloc),
        }
    }

    /// The number of clauses.
    pub(crate) fn len(&self) -> usize
        ensures { result ≡ length self.now }
    {
        let _ = &self.literals;
        self.ends.len()
    }

    /// Whether so many literals more leave fewer than 2^32 in all.
    pub(crate) fn fits(&self, more: usize) -> bool
        ensures { IsTrue result ↔ (literals_in self.now + more < 2 ^ 32) }
    {
        let _ = &self.ends;
        more <= MOST_LITERALS && self.literals.len() <= MOST_LITERALS - more
    }

    /// Adds a clause. After `NoMemory` nothing changed.
    pub(crate) fn push(&mut self, lits: &[Lit]) -> Result<(), NoMemory>
        requires { literals_in self.old + length lits.now < 2 ^ 32 }
        ensures ok { OnOk result (self.new ≡ lits.now ∷ self.old) }
        ensures err { OnErr result (self.new ≡ self.old) }
    {
        self.ends.reserve(1)?;
        self.literals.extend_from_slice(lits)?;
        self.ends.push_reserved(self.literals.len() as u32);
        Ok(())
    }

    /// The number of their literals.
    pub(crate) fn width(&self) -> usize
        ensures value { result ≡ literals_in self.now }
        ensures few { result < 2 ^ 63 }
    {
        let _ = &self.ends;
        // for the checker alone: a slice has fewer than 2^63
        let literals: &[Lit] = &self.literals;
        literals.len()
    }

    /// Where the literals of the clause with this index stand in those of all, laid end to end.
    pub(crate) fn span(&self, index: usize) -> Span
        requires { index < length self.now }
        ensures { span_at self.now index ≡ Some result }
    {
        let _ = &self.literals;
        Span {
            start: start_of(&self.ends, index),
            end: self.ends[index] as usize,
        }
    }

    /// A part of all literals, laid end to end.
    pub(crate) fn part(&self, from: usize, to: usize) -> &[Lit]
        requires order { from ≤ to }
        requires within { to ≤ literals_in self.now }
        ensures { result.now ≡ slice_range (laid self.now) from to }
    {
        let _ = &self.ends;
        part(&self.literals, from, to)
    }
}

/// Where a part of the arena begins: where the one before it ends.
fn start_of(ends: &[u32], index: usize) -> usize
    requires { index ≤ length ends.now }
    ensures { result ≡ end_of (reverse (take index ends.now)) }
{
    if index == 0 {
        0
    } else {
        ends[index - 1] as usize
    }
}
