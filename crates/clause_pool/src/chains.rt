ghost use Rattle.std.specs.Prelude.{◌≡◌, ◌<◌, ◌+◌, ◌^◌, length, reverse, map, replicate, slice_set, slice_index_or};
ghost use Rattle.clause_pool.specs.Slots.{slot_names, place_at, unlinked};
ghost use Rattle.clause_pool.specs.Links.{chain_of, IsLinked};

use crate::slot::Slot;
use lit_base::Name;

/// A link tells the places before this one. A pool that has more lemmas has hundreds of gigabytes of them, and searches.
const MOST_LINKED: usize = 4_294_967_295;

/// The chain of a name, of so many.
///
/// Names are made by the cores and never by the input, so no file can aim at one chain: multiplying spreads them enough.
fn chain_of(name: Name, count: usize) -> usize
    requires { 0 < count }
    ensures value { result ≡ chain_of count name }
    ensures within { result < count }
{
    let parts = u64::from(name.period) * 4_294_967_296 + u64::from(name.index);
    let core = u64::from(name.core).wrapping_mul(14_029_467_366_897_019_727);
    let hash = parts
        .wrapping_add(core)
        .wrapping_mul(11_400_714_819_323_198_485);
    ((u128::from(hash) * count as u128) >> 64) as usize
}

/// The place of the slot with this name.
pub(crate) fn find(heads: &[u32], slots: &[Slot], name: Name) -> Option<usize>
    requires linked { length slots.now < 2 ^ 32 → IsLinked heads.now (reverse slots.now) }
    ensures { result ≡ place_at (slot_names (reverse slots.now)) name }
{
    if slots.len() > MOST_LINKED {
        find_by_search(slots, name)
    } else {
        find_by_links(heads, slots, name)
    }
}

fn find_by_links(heads: &[u32], slots: &[Slot], name: Name) -> Option<usize>
    requires few { length slots.now < 2 ^ 32 }
    requires linked { IsLinked heads.now (reverse slots.now) }
    ensures { result ≡ place_at (slot_names (reverse slots.now)) name }
{
    if heads.is_empty() {
        return None;
    }
    let mut link = heads[chain_of(name, heads.len())];
    while link != 0 {
        let place = link as usize - 1;
        let slot = &slots[place];
        if slot.name == name {
            return Some(place);
        }
        link = slot.link;
    }
    None
}

fn find_by_search(slots: &[Slot], name: Name) -> Option<usize>
    ensures { result ≡ place_at (slot_names (reverse slots.now)) name }
{
    for place in (0..slots.len()).rev() {
        if slots[place].name == name {
            return Some(place);
        }
    }
    None
}

/// Lets the chain of a name begin at this place, and answers where it began before.
pub(crate) fn begin_chain(heads: &mut [u32], place: usize, name: Name) -> u32
    requires { 0 < length heads.old }
    ensures within { place + 1 < 2 ^ 32 → chain_of (length heads.old) name < length heads.old }
    ensures link { place + 1 < 2 ^ 32 → result ≡ slice_index_or heads.old (chain_of (length heads.old) name) 0 }
    ensures heads { place + 1 < 2 ^ 32 → heads.new ≡ slice_set heads.old (chain_of (length heads.old) name) (place + 1) }
{
    if place >= MOST_LINKED {
        return 0;
    }
    let head = &mut heads[chain_of(name, heads.len())];
    let link = *head;
    *head = place as u32 + 1;
    link
}

/// Links all slots anew.
pub(crate) fn link_all(heads: &mut [u32], slots: &mut [Slot])
    requires some { 0 < length slots.old → 0 < length heads.old }
    ensures size { length heads.new ≡ length heads.old }
    ensures slots { map unlinked slots.new ≡ map unlinked slots.old }
    ensures linked { length slots.new < 2 ^ 32 → IsLinked heads.new (reverse slots.new) }
{
    clear(heads);
    for place in 0..slots.len() {
        slots[place].link = begin_chain(heads, place, slots[place].name);
    }
}

/// Ends all chains.
fn clear(heads: &mut [u32])
    ensures { heads.new ≡ replicate (length heads.old) 0 }
{
    for head in heads.iter_mut() {
        *head = 0;
    }
}
