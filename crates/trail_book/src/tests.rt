use crate::{Trail, law_jump};
use lit_base::{Lit, Name, Value};
use std::process::Abort;
use std::test::Fail;

/// Decides a literal, once it was seen to be free.
fn decide(rt: &impl Abort, trail: &mut Trail, lit: Lit) {
    assert!(rt; trail.value(lit) == Value::Free && lit.var() <= trail.variables());
    trail.decide(lit);
}

/// Implies a literal, once it was seen to be free.
fn imply(rt: &impl Abort, trail: &mut Trail, lit: Lit, reason: Name) {
    assert!(rt; trail.value(lit) == Value::Free && lit.var() <= trail.variables());
    trail.imply(lit, reason);
}

/// Jumps to a level, once the trail was seen to have it.
fn jump(rt: &impl Abort, trail: &mut Trail, level: u32) {
    assert!(rt; level <= trail.level());
    trail.jump(level);
}

/// Whether the entry at this place has this number, level and reason.
fn is_entry(trail: &Trail, place: usize, number: i32, level: u32, reason: Option<Name>) -> bool {
    if place >= trail.len() {
        return false;
    }
    let entry = trail.entry(place);
    entry.lit.number() == number && entry.level == level && entry.reason == reason
}

#[test]
fn a_trail_goes_forth_and_back(rt: HostRuntime) -> Result<(), Fail> {
    law_jump();
    let mut trail = Trail::with_room(rt.alloc(), 3)?;
    imply(&rt, &mut trail, Lit::of(2, false), Name::lemma(1, 0, 7));
    decide(&rt, &mut trail, Lit::of(1, true));
    decide(&rt, &mut trail, Lit::of(3, false));
    assert_eq!(rt; (trail.variables(), trail.level(), trail.len()), (3, 2, 3));
    assert!(rt; trail.full());
    assert!(rt; is_entry(&trail, 0, -2, 0, Some(Name::lemma(1, 0, 7))));
    assert!(rt; is_entry(&trail, 2, -3, 2, None));
    jump(&rt, &mut trail, 1);
    assert_eq!(rt;
        (trail.level(), trail.len(), trail.entries().len()),
        (1, 2, 2)
    );
    assert!(rt; !trail.full());
    for (var, value, level, place, last) in [
        (1, Value::True, Some(1), Some(1), Some(true)),
        (2, Value::False, Some(0), Some(0), Some(false)),
        (3, Value::Free, None, None, Some(false)),
        (4, Value::Free, None, None, None),
    ] {
        assert!(rt;
            trail.value(Lit::of(var, true)) == value,
            "the value of {var}"
        );
        assert_eq!(rt; trail.is_free(var), place.is_none(), "{var} is free");
        assert_eq!(rt; trail.level_of(var), level, "the level of {var}");
        assert_eq!(rt; trail.place(var), place, "the place of {var}");
        assert_eq!(rt; trail.last(var), last, "the last value of {var}");
    }
    Ok(())
}

#[test]
fn each_entry_that_leaves_is_given_once(rt: HostRuntime) -> Result<(), Fail> {
    let mut trail = Trail::with_room(rt.alloc(), 4)?;
    imply(&rt, &mut trail, Lit::of(4, true), Name::lemma(1, 0, 7));
    decide(&rt, &mut trail, Lit::of(1, true));
    decide(&rt, &mut trail, Lit::of(3, false));
    imply(&rt, &mut trail, Lit::of(2, true), Name::lemma(1, 0, 8));
    for (level, left) in [
        (1, Some(2)),
        (1, Some(-3)),
        (1, None),
        (0, Some(1)),
        (0, None),
    ] {
        let entry = trail.leave(level);
        assert_eq!(rt;
            entry.map(|entry| entry.lit.number()),
            left,
            "to level {level}"
        );
    }
    assert_eq!(rt; (trail.level(), trail.len()), (0, 1));
    Ok(())
}
