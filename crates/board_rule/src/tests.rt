ghost use Rattle.std.specs.Prelude.{◌≡◌};

use crate::{
    Told, law_arrive, law_emptied, law_laid, law_lift_fill, law_lift_take, law_look, law_mailboxes,
    law_split, law_start,
};

/// A number that tells its period, on an occasion of no content.
#[derive(Drop)]
struct Note(u64);

impl Told for Note {
    type Occasion = ();

    ghost fits = { λ occasion from to period note. note.0 ≡ period };
}

#[test]
fn the_rule_is_kept_for_numbers_that_tell_their_period(_rt: HostRuntime) {
    law_mailboxes();
    law_start::<Note>();
    law_split::<Note>();
    law_arrive::<Note>();
    law_look::<Note>();
    law_lift_fill::<Note>();
    law_laid::<Note>();
    law_lift_take::<Note>();
    law_emptied::<Note>();
}
