use crate::{Tempo, law_luby, law_restarts, luby};
use std::test::Fail;

#[test]
fn values_and_restarts_are_those_of_the_sequence(rt: HostRuntime) -> Result<(), Fail> {
    law_luby();
    law_restarts();
    let values = [1, 1, 2, 1, 1, 2, 4, 1, 1, 2, 1, 1, 2, 4, 8];
    for (i, value) in values.iter().enumerate() {
        let place = i as u32 + 1;
        assert_eq!(rt; luby(place), *value, "the value at {place}");
    }
    // Restarts are due after 2, 2, 4, 2, 2, 4 and 8 conflicts.
    let due = [2, 4, 8, 10, 12, 16, 24];
    let mut tempo = Tempo::new(2);
    for n in 1..25_u32 {
        assert_eq!(rt; tempo.conflict(), due.contains(&n), "conflict {n}");
    }
    Ok(())
}
