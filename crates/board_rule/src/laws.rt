//! That each step keeps the rule: functions that do nothing, whose contracts state it over the definitions alone,
//! for whatever a board carries. A state is any words, slots and views of seats.
ghost use Rattle.board_rule.specs.Laws.{StartMeets, ArriveKeeps, LookKeeps, FillKeeps, LayKeeps, TakeKeeps, EmptyKeeps, SplitKeeps};
ghost use Rattle.board_rule.specs.Laws.{SlotsApart, SlotsBelow, UsesCounted, PeriodsFound};

use crate::rule::Rule;
use crate::steps::{Arrived, Emptied, LaidDown, LiftedToFill, LiftedToTake, Looked, SeatGiven};
use crate::told::Told;
use crate::views::{Terms, View};
use atomic_table::{Play, Split, TableRule};

type Known<T> = View<<T as Told>::Occasion>;

type Agreed<T> = Terms<<T as Told>::Occasion>;

/// No two mailboxes share a slot. A bank is used once more by each period that is its turn, and by no other one, so the
/// number of uses of its bank tells a period.
pub fn law_mailboxes()
    ensures apart { SlotsApart }
    ensures below { SlotsBelow }
    ensures uses { UsesCounted }
    ensures periods { PeriodsFound }
{}

/// A table whose words are all 0 and whose slots are all empty meets the rule, with the maker's seat alone.
pub fn law_start<T: Told>()
    ensures { StartMeets ⟦<Rule<T> as TableRule<Option<T>, Known<T>, Agreed<T>>>⟧.holds ⟦<Rule<T> as TableRule<Option<T>, Known<T>, Agreed<T>>>⟧.first }
{}

/// To arrive keeps the rule.
pub fn law_arrive<T: Told>()
    ensures { ArriveKeeps ⟦<Rule<T> as TableRule<Option<T>, Known<T>, Agreed<T>>>⟧.holds ⟦<Arrived as Play<Option<T>, Known<T>>>⟧.then }
{}

/// To look keeps the rule, whoever looks.
pub fn law_look<T: Told>()
    ensures { LookKeeps ⟦<Rule<T> as TableRule<Option<T>, Known<T>, Agreed<T>>>⟧.holds ⟦<Looked as Play<Option<T>, Known<T>>>⟧.then }
{}

/// To lift an empty slot keeps the rule.
pub fn law_lift_fill<T: Told>()
    ensures { FillKeeps ⟦<Rule<T> as TableRule<Option<T>, Known<T>, Agreed<T>>>⟧.holds ⟦<LiftedToFill as Play<Option<T>, Known<T>>>⟧.then }
{}

/// To lay a slot down with a mail that fits keeps the rule.
pub fn law_laid<T: Told>()
    ensures { LayKeeps T.fits ⟦<Rule<T> as TableRule<Option<T>, Known<T>, Agreed<T>>>⟧.holds ⟦<LaidDown as Play<Option<T>, Known<T>>>⟧.then }
{}

/// To lift a slot with its mail keeps the rule, and the mail fits.
pub fn law_lift_take<T: Told>()
    ensures { TakeKeeps ⟦<Rule<T> as TableRule<Option<T>, Known<T>, Agreed<T>>>⟧.holds ⟦<LiftedToTake as Play<Option<T>, Known<T>>>⟧.then }
{}

/// To lay an emptied slot down keeps the rule.
pub fn law_emptied<T: Told>()
    ensures { EmptyKeeps ⟦<Rule<T> as TableRule<Option<T>, Known<T>, Agreed<T>>>⟧.holds ⟦<Emptied as Play<Option<T>, Known<T>>>⟧.then }
{}

/// To give the first party without a seat its seat keeps the rule.
pub fn law_split<T: Told>()
    ensures { SplitKeeps ⟦<Rule<T> as TableRule<Option<T>, Known<T>, Agreed<T>>>⟧.holds ⟦<SeatGiven as Split<Known<T>>>⟧.left ⟦<SeatGiven as Split<Known<T>>>⟧.right }
{}
