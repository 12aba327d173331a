//! Items dealt in turn to groups, and gathered again in their order.
ghost use Rattle.std.specs.Prelude.{◌≡◌, ◌≤◌, ◌<◌, List, [], All, length, OnOk, IfOk};
ghost use Rattle.crew.specs.Groups.{AreDealt, lists_of};

use crossbeam_utils::CachePadded;
use lit_base::NoMemory;
use std::alloc::Global;

/// So many empty groups, each with room for so many items.
fn empty_groups<T: Drop>(
    alloc: Global,
    count: usize,
    room: usize,
) -> Result<Vec<CachePadded<Vec<T>>>, NoMemory>
    ensures count { IfOk result (λ groups. length groups.items ≡ count) }
    ensures empty { IfOk result (λ groups. All (λ group. group ≡ []) (lists_of groups.items)) }
{
    let mut groups = Vec::with_capacity(alloc, count)?;
    for _ in 0..count {
        groups.push(CachePadded::new(Vec::with_capacity(alloc, room)?))?;
    }
    Ok(groups)
}

/// Deals the items to so many groups, at least one: that at place `i` to the group at place `i` modulo their number.
///
/// In each group they stand in the opposite order.
pub(crate) fn deal<T: Drop>(
    alloc: Global,
    items: &mut Vec<T>,
    count: usize,
) -> Result<Vec<CachePadded<Vec<T>>>, NoMemory>
    requires { 1 ≤ count }
    ensures emptied { OnOk result (items.new.items ≡ []) }
    ensures count { IfOk result (λ groups. length groups.items ≡ count) }
    ensures dealt { IfOk result (λ groups. AreDealt 0 items.old.items (lists_of groups.items)) }
{
    let mut groups = empty_groups(alloc, count, items.len().div_ceil(count))?;
    while let Some(item) = items.pop() {
        groups[items.len() % count].push(item)?;
    }
    Ok(groups)
}

/// Gathers so many items that were dealt to the groups, in the order in which they stood. No memory is taken where the list
/// has the room.
///
/// There is a group, and the list is empty.
pub(crate) fn gather<T: Drop>(
    groups: &mut [CachePadded<Vec<T>>],
    items: &mut Vec<T>,
    total: usize,
) -> Result<(), NoMemory>
    requires some { 1 ≤ length groups.old }
    requires empty { items.old.items ≡ [] }
    ensures { OnOk result ((dealt : List T) → length dealt ≡ total → AreDealt 0 dealt (lists_of groups.old) → items.new.items ≡ dealt) }
{
    let count = groups.len();
    for place in 0..total {
        if let Some(item) = groups[place % count].pop() {
            items.push(item)?;
        }
    }
    Ok(())
}
