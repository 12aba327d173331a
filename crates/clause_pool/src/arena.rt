ghost use Rattle.std.specs.Prelude.{◌≡◌, ◌≤◌, length, slice_range, if◌then◌else◌};
ghost use Rattle.lit_base.specs.Held.{is_original};

use lit_base::{Lit, Name};

/// A part of the arena.
pub(crate) fn part(literals: &[Lit], from: usize, to: usize) -> &[Lit]
    requires order { from ≤ to }
    requires within { to ≤ length literals.now }
    ensures { result.now ≡ slice_range literals.now from to }
{
    &literals[from..to]
}

/// What a clause of this name counts in the volume: an original nothing, a lemma one.
pub(crate) fn weight_of(name: Name) -> u64
    ensures { result ≡ (if is_original name then 0 else 1) }
{
    if name.period == 0 { 0 } else { 1 }
}
