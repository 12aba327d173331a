ghost use Rattle.std.specs.Prelude.{◌≡◌, ◌≤◌};

use atomic_table::Table;
use board_rule::{Rule, Terms, Told, View};
use std::alloc::Global;

/// A board of 1 to 33 parties. It is shared by a `&`, and ends by being dropped, as do its passes.
#[derive(Drop)]
pub struct Board<T: Told> {
    pub(crate) table: Table<Option<T>, View<T::Occasion>, Terms<T::Occasion>, Rule<T>, Global>,
    pub(crate) parties: u32,
    pub ghost words: { table.shared.table_id.words ≡ 2194 },
    pub ghost slots: { table.shared.table_id.slots ≡ 2178 },
    pub ghost some_party: { 1 ≤ parties },
    pub ghost few_parties: { parties ≤ 33 },
}
