ghost use Rattle.std.specs.Prelude.{◌≡◌, ◌<◌, ◌^◌, ◌≤◌, length, reverse, map, replicate, false};
ghost use Rattle.lit_base.specs.Held.{is_among, without_names, volume_of};
ghost use Rattle.clause_pool.specs.Arena.{IsArena};
ghost use Rattle.clause_pool.specs.Slots.{ends_of, clauses_in, slot_names, AreApart, kept};
ghost use Rattle.clause_pool.specs.Links.{IsLinked};

use crate::arena::weight_of;
use crate::chains::find;
use crate::slot::Slot;
use lit_base::{Lit, Name};

/// Raises the flags of the slots with these names, and lowers all others.
pub(crate) fn flag(heads: &[u32], slots: &[Slot], names: &[Name], flags: &mut [bool])
    requires linked { length slots.now < 2 ^ 32 → IsLinked heads.now (reverse slots.now) }
    requires apart { AreApart (slot_names (reverse slots.now)) }
    requires size { length flags.old ≡ length slots.now }
    ensures { flags.new ≡ map (λ s. is_among names.now s.name) slots.now }
{
    clear(flags);
    for name in names {
        if let Some(place) = find(heads, slots, *name) {
            flags[place] = true;
        }
    }
}

/// Lowers all flags.
fn clear(flags: &mut [bool])
    ensures { flags.new ≡ replicate (length flags.old) false }
{
    for flag in flags.iter_mut() {
        *flag = false;
    }
}

/// Takes out the slots whose flag is raised, and moves the literals of the others together; answers the number of lemmas
/// among these.
pub(crate) fn pack(literals: &mut Vec<Lit>, slots: &mut Vec<Slot>, flags: &[bool]) -> u64
    requires arena { IsArena literals.old.items (ends_of (reverse slots.old.items)) }
    requires size { length flags.now ≡ length slots.old.items }
    ensures rows { clauses_in literals.new.items (reverse slots.new.items) ≡ kept (reverse flags.now) (clauses_in literals.old.items (reverse slots.old.items)) }
    ensures arena { IsArena literals.new.items (ends_of (reverse slots.new.items)) }
    ensures volume { result ≡ volume_of (clauses_in literals.new.items (reverse slots.new.items)) }
    ensures size { length slots.new.items ≤ length slots.old.items }
{
    let mut packed = 0;
    let mut end = 0;
    let mut from = 0;
    let mut volume = 0;
    for place in 0..slots.len() {
        let slot = slots[place];
        let start = from;
        from = slot.end;
        if flags[place] {
            continue;
        }
        literals.copy_within(start..slot.end, end);
        end += slot.end - start;
        slots[packed] = Slot { end, ..slot };
        packed += 1;
        volume += weight_of(slot.name);
    }
    slots.truncate(packed);
    literals.truncate(end);
    volume
}
