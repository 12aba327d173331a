//! How literals stand on a trail, and which of a clause's literals are to be its links.
ghost use Rattle.std.specs.Prelude.{◌≡◌, false};
ghost use Rattle.lit_base.specs.Literal.{same};
ghost use Rattle.lit_base.specs.Quiet.{IsOneOf};
ghost use Rattle.lit_base.specs.Trail.{is_false};
ghost use Rattle.round_prop.specs.Linked.{place_in, IsLatest, IsOther};

use lit_base::Lit;
use trail_book::Trail;

/// Whether the literal is false on the trail.
pub(crate) fn is_false(trail: &Trail, lit: Lit) -> bool
    ensures { result ≡ is_false trail.now.entries lit }
{
    trail.standing(lit) >= Trail::FALSE
}

/// The place of the literal's variable on the trail, and 0 where it has none.
///
/// A standing is the place, `FREE`, or the place and twice `FREE`.
pub(crate) fn place(trail: &Trail, lit: Lit) -> u32
    ensures { result ≡ place_in trail.now.entries lit }
{
    trail.standing(lit) % Trail::FREE
}

/// A literal of a clause that is neither false nor this one, sought from the end: the literals that stood in front were
/// links before.
pub(crate) fn other_link(trail: &Trail, lits: &[Lit], other: Lit) -> Option<Lit>
    ensures { IsOther trail.now.entries lits.now other result }
{
    for index in (0..lits.len()).rev() {
        let lit = lits[index];
        if !is_false(trail, lit) && lit != other {
            return Some(lit);
        }
    }
    None
}

/// Of a clause's literals but one, the one whose variable has the greatest place; `first` is any of them.
pub(crate) fn latest(trail: &Trail, lits: &[Lit], first: Lit, other: Lit) -> Lit
    requires held { IsOneOf lits.now first }
    requires apart { same first other ≡ false }
    ensures { IsLatest trail.now.entries lits.now other result }
{
    let mut last = first;
    let mut greatest = place(trail, first);
    for lit in lits {
        let found = place(trail, *lit);
        if found > greatest && *lit != other {
            last = *lit;
            greatest = found;
        }
    }
    last
}
