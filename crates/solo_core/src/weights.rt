//! What a conflict does to the activities.
ghost use Rattle.std.specs.Prelude.{◌≡◌, ◌≤◌, ◌^◌, ◌==◌, length};
ghost use Rattle.std.specs.List.{IsDistinct};
ghost use Rattle.core_rows.specs.Rows.{IsInRange};
ghost use Rattle.solo_core.specs.Turn.{raised, weighed};
ghost use Rattle.solo_core.specs.Searching.{AreActivitiesUpTo, AreVariables};

use crate::search::Search;
use var_order::Order;

impl Search {
    /// Raises the activities of these variables, which are distinct, by the row's weight, and halves all activities where
    /// the conflicts are a multiple of the row's number.
    pub(crate) fn weigh(&mut self, touched: &[u32])
        requires within { AreVariables (length self.old.state.activities) touched.now }
        requires distinct { IsDistinct (λ v w. v == w) touched.now }
        requires few { AreActivitiesUpTo (2 ^ 63) self.old.state.activities }
        requires row { IsInRange self.old.frame.row }
        ensures { self.new ≡ record self.old { state = weighed self.old.frame touched.now self.old.state } }
    {
        raise(&mut self.order, touched, self.row.weight);
        if self.conflicts % self.row.halve == 0 {
            self.order.halve();
        }
    }
}

/// Raises the activities of these variables, which are distinct, by a weight.
fn raise(order: &mut Order, touched: &[u32], weight: u64)
    requires within { AreVariables (length order.old.activities) touched.now }
    requires distinct { IsDistinct (λ v w. v == w) touched.now }
    requires few { AreActivitiesUpTo (2 ^ 63) order.old.activities }
    requires weight { weight ≤ 5 }
    ensures { order.new ≡ record order.old { activities = raised weight touched.now order.old.activities } }
{
    for var in touched {
        order.bump(*var, weight);
    }
}
