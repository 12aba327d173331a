use crate::told::Told;
use crate::views::{Terms, View};
use atomic_table::TableRule;
use std::marker::PhantomData;

/// The rule of a board that carries `T`. Its table's first seat is the maker's, which gives each party its seat.
pub struct Rule<T> {
    marker: PhantomData<T>,
}

impl<T: Told> TableRule<Option<T>, View<T::Occasion>, Terms<T::Occasion>> for Rule<T> {
    ghost use Rattle.board_rule.specs.Accounts.{maker_view};
    ghost use Rattle.board_rule.specs.Board.{BoardRule};

    ghost holds = { λ terms. BoardRule T.fits terms.parties terms.occasion.value };

    ghost first = { λ terms. maker_view terms.occasion.value terms.parties 0 };
}
