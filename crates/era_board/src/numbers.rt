ghost use Rattle.std.specs.Prelude.{◌≡◌};
ghost use Rattle.era_board.specs.Passes.{account};

use crate::pass::Seated;

impl<T, O> Seated<T, O> {
    /// The number of the party, from 0 to 32.
    pub fn number(&self) -> u32
        ensures { result ≡ (account self.now).number }
    {
        self.number
    }

    /// How often the party has arrived.
    pub fn arrivals(&self) -> u64
        ensures { result ≡ (account self.now).arrivals }
    {
        self.arrivals
    }
}
