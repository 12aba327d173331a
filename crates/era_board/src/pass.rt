ghost use Rattle.std.specs.Prelude.{◌≡◌, ◌<◌, ◌≤◌, ◌^◌, [], length};
ghost use Rattle.board_rule.specs.Accounts.{account_of};
ghost use Rattle.board_rule.specs.declared.views.Moving.TheVariants.{Still};
ghost use Rattle.board_rule.specs.declared.views.View.TheVariants.{Party};

use atomic_table::Seat;
use board_rule::{Told, View};

/// The right to act for one party of a board, at one place at a time. Contracts see its account.
///
/// It is the pass of a board that carries `T` on an occasion of type `O`; `Pass` names it by `T` alone.
#[derive(Drop)]
pub struct Seated<T, O> {
    pub(crate) seat: Seat<Option<T>, View<O>>,
    pub(crate) number: u32,
    pub(crate) arrivals: u64,
    ghost party: { seat.me ≡ (Party (account_of seat.me.0), []) },
    ghost still: { (account_of seat.me.0).moving ≡ Still },
    ghost number_is: { number ≡ (account_of seat.me.0).number },
    ghost arrivals_are: { arrivals ≡ (account_of seat.me.0).arrivals },
    pub ghost within: { (account_of seat.me.0).number < (account_of seat.me.0).parties },
    pub ghost few_parties: { (account_of seat.me.0).parties ≤ 33 },
    pub ghost few_arrivals: { (account_of seat.me.0).arrivals ≤ 2 ^ 40 },
    pub ghost laid_long: { length (account_of seat.me.0).laid ≡ (account_of seat.me.0).parties },
    pub ghost taken_long: { length (account_of seat.me.0).taken ≡ (account_of seat.me.0).parties },
}

/// A pass of a board that carries `T`.
pub type Pass<T> = Seated<T, <T as Told>::Occasion>;
