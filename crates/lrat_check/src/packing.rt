ghost use Rattle.std.specs.Prelude.{◌≡◌, ℕ, Some, IfOk, OnOk};
ghost use Rattle.std.specs.Ordering.{nat_cmp};
ghost use Rattle.std.specs.BTreeMap.{get};
ghost use Rattle.lrat_check.specs.Table.{long, part_of, part_at};
ghost use Rattle.lrat_check.specs.Packing.{IsMoved, Grows};

use crate::clauses::{part, put_literals};
use crate::table::{ShortSpan, Span};
use lit_base::{Lit, NoMemory};
use std::alloc::Global;
use std::collections::BTreeMap;

/// Moves the literals of the parts of an array behind those of a packed arena.
pub(crate) fn pack_spans(
    literals: &[Lit],
    spans: &mut Vec<ShortSpan>,
    packed: &mut Vec<Lit>,
) -> Result<(), NoMemory>
    ensures { OnOk result ((n : ℕ) → IsMoved literals.now packed.new.items (part_at spans.old.items n) (part_at spans.new.items n)) }
{
    for place in 0..spans.len() {
        spans[place] = move_short(literals, spans[place], packed)?;
    }
    Ok(())
}

/// Moves the literals of the parts of a map behind those of a packed arena.
pub(crate) fn pack_leaps(
    alloc: Global,
    literals: &[Lit],
    leaps: &mut BTreeMap<u64, Span>,
    packed: &mut Vec<Lit>,
) -> Result<(), NoMemory>
    ensures moved { OnOk result ((n : ℕ) → IsMoved literals.now packed.new.items (part_of (get nat_cmp leaps.old n)) (part_of (get nat_cmp leaps.new n))) }
    ensures grown { OnOk result (Grows packed.old.items packed.new.items) }
{
    let mut moved = BTreeMap::new(alloc);
    while let Some((id, span)) = leaps.pop_first() {
        moved.insert(id, move_part(literals, span, packed)?)?;
    }
    *leaps = moved;
    Ok(())
}

/// Moves the literals of a part that has a short span.
///
/// The parts of the array stand apart and below 2^32, and are packed first: so each fits again, and `NoMemory` comes only
/// for want of memory.
fn move_short(
    literals: &[Lit],
    short: ShortSpan,
    packed: &mut Vec<Lit>,
) -> Result<ShortSpan, NoMemory>
    ensures moved { IfOk result (λ new. IsMoved literals.now packed.new.items (part_of (Some (long short))) (part_of (Some (long new)))) }
    ensures grown { OnOk result (Grows packed.old.items packed.new.items) }
{
    let moved = move_part(literals, short.long(), packed)?;
    match ShortSpan::of(moved) {
        Some(new) => Ok(new),
        None => Err(NoMemory),
    }
}

/// Moves the literals of a part behind those of a packed arena, and answers where they are there.
fn move_part(literals: &[Lit], span: Span, packed: &mut Vec<Lit>) -> Result<Span, NoMemory>
    ensures moved { IfOk result (λ new. IsMoved literals.now packed.new.items (part_of (Some span)) (part_of (Some new))) }
    ensures grown { OnOk result (Grows packed.old.items packed.new.items) }
{
    let Some(lits) = part(literals, span) else {
        return Ok(Span::NONE);
    };
    let moved = put_literals(packed, lits)?;
    Ok(moved)
}
