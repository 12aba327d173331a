//! Jumps: entries leave the trail, and their variables come back into the order.
ghost use Rattle.std.specs.Prelude.{◌≡◌, List, length};
ghost use Rattle.lit_base.specs.Quiet.{AreQuietBelow};
ghost use Rattle.lit_base.specs.Rounds.{NamedClause};
ghost use Rattle.round_prop.specs.Attached.{IsAttachedTo};
ghost use Rattle.round_prop.specs.Spanned.{IsPlacedIn};
ghost use Rattle.trail_book.specs.TrailState.{jumped};
ghost use Rattle.var_order.specs.Order.{HasAllFree};

use round_prop::Rounds;
use trail_book::Trail;
use var_order::Order;

/// Cuts the trail to a level, at which no clause was left unit or falsified, puts the variables that leave it back into
/// the order, and tells propagation.
pub(crate) fn jump_back(trail: &mut Trail, rounds: &mut Rounds, order: &mut Order, level: u32)
    requires same { length order.old.activities ≡ length trail.old.saved }
    requires present { HasAllFree order.old trail.old.entries }
    ensures trail { trail.new ≡ jumped level trail.old }
    ensures attached { (clauses : List NamedClause) → IsAttachedTo rounds.old clauses trail.old.entries →
        AreQuietBelow trail.old.entries clauses → IsAttachedTo rounds.new clauses trail.new.entries }
    ensures placed { (added : List NamedClause) → IsPlacedIn rounds.old added → IsPlacedIn rounds.new added }
    ensures variables { rounds.new.variables ≡ rounds.old.variables }
    ensures activities { order.new.activities ≡ order.old.activities }
    ensures present { HasAllFree order.new trail.new.entries }
{
    take_off(trail, order, level);
    rounds.jumped(trail);
}

/// Lets the entries above a level leave the trail, and puts the variable of each back into the order.
fn take_off(trail: &mut Trail, order: &mut Order, level: u32)
    requires same { length order.old.activities ≡ length trail.old.saved }
    requires present { HasAllFree order.old trail.old.entries }
    ensures trail { trail.new ≡ jumped level trail.old }
    ensures activities { order.new.activities ≡ order.old.activities }
    ensures present { HasAllFree order.new trail.new.entries }
{
    for _ in 0..trail.len() {
        match trail.leave(level) {
            Some(entry) => order.put_back(entry.lit.var()),
            None => return,
        }
    }
}
