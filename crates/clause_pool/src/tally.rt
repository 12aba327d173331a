ghost use Rattle.std.specs.Prelude.{◌≡◌, ◌&&◌, not, List, reverse, map, length, IfOk};
ghost use Rattle.lit_base.specs.Literal.{Literal};
ghost use Rattle.lit_base.specs.Held.{is_original, is_among};
ghost use Rattle.lit_base.specs.declared.name.Name.{Name as NameIs};
ghost use Rattle.clause_pool.specs.Arena.{AreEnds, IsArena};
ghost use Rattle.clause_pool.specs.Slots.{ends_of, clauses_in};
ghost use Rattle.clause_pool.specs.Tallies.{tallies_but};

use crate::slot::Slot;
use lit_base::{Name, NoMemory};
use std::alloc::Global;

/// A held clause without its literals: its name, the number of its literals, and how often it was a hint since the uses
/// were cleared.
#[derive(Clone, Copy, Debug)]
pub struct Tally {
    pub name: Name,
    pub size: usize,
    pub uses: u64,
}

/// The tallies of the lemmas whose flag is low, the oldest first.
pub(crate) fn tallies_of(
    alloc: Global,
    slots: &[Slot],
    flags: &[bool],
) -> Result<Vec<Tally>, NoMemory>
    requires ends { AreEnds (ends_of (reverse slots.now)) }
    requires size { length flags.now ≡ length slots.now }
    // Over any arena, and for any names that the flags are raised for.
    ensures { IfOk result (λ tallies. (literals : List Literal) (names : List NameIs) → IsArena literals (ends_of (reverse slots.now)) →
        flags.now ≡ map (λ s. is_among names s.name) slots.now → reverse tallies.items ≡ tallies_but names (clauses_in literals (reverse slots.now))) }
{
    let mut tallies = Vec::new(alloc);
    let mut start = 0;
    for place in 0..slots.len() {
        let slot = slots[place];
        let size = slot.end - start;
        start = slot.end;
        if !is_low_lemma(slot.name, flags[place]) {
            continue;
        }
        tallies.push(Tally {
            name: slot.name,
            size,
            uses: slot.uses,
        })?;
    }
    Ok(tallies)
}

/// Whether the name is a lemma's, and its flag low.
fn is_low_lemma(name: Name, flag: bool) -> bool
    ensures { result ≡ (not (is_original name) && not flag) }
{
    name.period != 0 && !flag
}
