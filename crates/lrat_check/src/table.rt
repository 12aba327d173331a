ghost use Rattle.std.specs.Prelude.{◌≡◌, ℕ, ◌≤◌, ◌==◌, Some, None, IfSome, OnOk, if◌then◌else◌};
ghost use Rattle.lrat_check.specs.Table.{long, part_of, part_at, span_at};

use lit_base::NoMemory;
use std::alloc::Global;
use std::collections::BTreeMap;

/// A part of the arena: the place where it begins, and that where it ends. One that ends before it begins stands for none.
#[derive(Clone, Copy, Debug)]
pub(crate) struct Span {
    pub(crate) from: usize,
    pub(crate) to: usize,
}

impl Span {
    /// Stands for no part.
    pub(crate) const NONE: Span = Span { from: 1, to: 0 };
}

/// A span in half the bytes, where its places are below 2^32.
#[derive(Clone, Copy, Debug)]
pub(crate) struct ShortSpan {
    from: u32,
    to: u32,
}

impl ShortSpan {
    /// Stands for no part.
    const NONE: ShortSpan = ShortSpan { from: 1, to: 0 };

    /// The span, where it fits.
    pub(crate) fn of(span: Span) -> Option<ShortSpan>
        ensures { IfSome result (λ short. long short ≡ span) }
    {
        match (u32::try_from(span.from), u32::try_from(span.to)) {
            (Ok(from), Ok(to)) => Some(ShortSpan { from, to }),
            _ => None,
        }
    }

    /// The span in full.
    #[inline(always)]
    pub(crate) fn long(self) -> Span
        ensures { result ≡ long self }
    {
        Span {
            from: self.from as usize,
            to: self.to as usize,
        }
    }
}

/// The parts of the arena by id.
///
/// An id that isn't far above the number of clauses is a place in an array. The few others, which leap, are kept in a
/// tree by their order, so that memory follows the number of clauses and never an id, and no file can aim at a bucket. The
/// tree also has the parts that don't fit into a short span.
#[derive(Debug, Drop)]
pub(crate) struct Table {
    pub(crate) spans: Vec<ShortSpan>,
    pub(crate) leaps: BTreeMap<u64, Span>,
}

impl Table {
    /// No parts; takes no memory.
    pub(crate) fn new(alloc: Global) -> Table
        ensures { (n : ℕ) → span_at result n ≡ None }
    {
        Table {
            spans: Vec::new(alloc),
            leaps: BTreeMap::new(alloc),
        }
    }

    /// The part of an id.
    #[inline(always)]
    pub(crate) fn get(&self, id: u64) -> Option<Span>
        ensures { result ≡ span_at self.now id }
    {
        match part_at(&self.spans, id) {
            Some(span) => Some(span),
            None => part_of(self.leaps.get(&id).copied()),
        }
    }

    /// Puts a part under an id, in the array where the id is below `places`. After `NoMemory` nothing is said of the table.
    pub(crate) fn put(&mut self, id: u64, span: Span, places: u64) -> Result<(), NoMemory>
        requires { span.from ≤ span.to }
        ensures { OnOk result ((n : ℕ) → span_at self.new n ≡ (if id == n then Some span else span_at self.old n)) }
    {
        match ShortSpan::of(span) {
            Some(short) if id < places => put_at(&mut self.spans, id as usize, short)?,
            _ => {
                clear_at(&mut self.spans, id);
                self.leaps.insert(id, span)?;
            }
        }
        Ok(())
    }

    /// Takes the part of an id out.
    pub(crate) fn remove(&mut self, id: u64)
        ensures { (n : ℕ) → span_at self.new n ≡ (if id == n then None else span_at self.old n) }
    {
        clear_at(&mut self.spans, id);
        self.leaps.remove(&id);
    }
}

/// The part that a span stands for.
#[inline(always)]
fn part_of(span: Option<Span>) -> Option<Span>
    ensures { result ≡ part_of span }
{
    match span {
        Some(span) if span.from <= span.to => Some(span),
        _ => None,
    }
}

/// The part of an id in the array.
#[inline(always)]
fn part_at(spans: &[ShortSpan], id: u64) -> Option<Span>
    ensures { result ≡ part_at spans.now id }
{
    match spans.get(id as usize) {
        Some(short) => part_of(Some(short.long())),
        None => None,
    }
}

/// Puts a part at a place of the array, which grows where it ends before.
fn put_at(spans: &mut Vec<ShortSpan>, place: usize, short: ShortSpan) -> Result<(), NoMemory>
    requires { short.from ≤ short.to }
    ensures { OnOk result ((n : ℕ) → part_at spans.new.items n ≡ (if place == n then Some (long short) else part_at spans.old.items n)) }
{
    if place < spans.len() {
        spans[place] = short;
    } else {
        spans.resize(place, ShortSpan::NONE)?;
        spans.push(short)?;
    }
    Ok(())
}

/// Takes the part of an id out of the array.
fn clear_at(spans: &mut Vec<ShortSpan>, id: u64)
    ensures { (n : ℕ) → part_at spans.new.items n ≡ (if id == n then None else part_at spans.old.items n) }
{
    let place = id as usize;
    if place < spans.len() {
        spans[place] = ShortSpan::NONE;
    }
}
