//! Room for one clause more.
ghost use Rattle.std.specs.Prelude.{◌≡◌, ◌≤◌, ◌<◌, ◌+◌, ℕ, OnOk, vec_len, vec_capacity};
ghost use Rattle.round_prop.specs.Attached.{AreRoomy};
ghost use Rattle.round_prop.specs.Room.{HaveSameItems};

use crate::fresh::Fresh;
use crate::short::Short;
use crate::table::Table;
use lit_base::NoMemory;

/// The most nodes that lists can have: a number of 32 bits is left that ends a list.
const MOST_NODES: usize = 4_294_967_295;

/// Takes room for one fresh clause more: among the fresh ones, as a row or a short one, and for a note of it.
pub(crate) fn make_room(
    table: &mut Table,
    shorts: &mut Vec<Short>,
    fresh: &mut Vec<Fresh>,
) -> Result<(), NoMemory>
    requires { (variables : ℕ) × AreRoomy variables table.old (vec_len shorts.old) (vec_capacity shorts.old) (vec_len fresh.old) }
    ensures table { HaveSameItems table.old table.new }
    ensures shorts { shorts.new.items ≡ shorts.old.items }
    ensures fresh { fresh.new.items ≡ fresh.old.items }
    ensures kept { (variables : ℕ) → AreRoomy variables table.old (vec_len shorts.old) (vec_capacity shorts.old) (vec_len fresh.old) →
        AreRoomy variables table.new (vec_len shorts.new) (vec_capacity shorts.new) (vec_len fresh.new) }
    ensures more { OnOk result ((variables : ℕ) →
        AreRoomy variables table.old (vec_len shorts.old) (vec_capacity shorts.old) (vec_len fresh.old) →
        AreRoomy variables table.new (vec_len shorts.new) (vec_capacity shorts.new) (vec_len fresh.new + 1)) }
    ensures room { OnOk result (vec_len fresh.new < vec_capacity fresh.new) }
{
    let count = fresh.len() + 1;
    if table.links.nodes.len() + 2 * count > MOST_NODES {
        return Err(NoMemory);
    }
    fresh.reserve(1)?;
    shorts.reserve(count)?;
    table.rows.reserve(count)?;
    table.links.nodes.reserve(2 * count)?;
    table.noted.flags.reserve(count)?;
    table
        .noted
        .notes
        .reserve(table.rows.len() + shorts.len() + count)?;
    Ok(())
}
