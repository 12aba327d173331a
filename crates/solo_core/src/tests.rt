ghost use Rattle.std.specs.Prelude.{◌≡◌, ◌≤◌, ◌<◌};
ghost use Rattle.solo_core.specs.First.{AreInRange};

use super::*;
use lit_base::{Clause, Formula, Lit, NoMemory};
use std::alloc::Global;
use std::process::Abort;
use std::test::Fail;

/// Adds the clause of these numbers, which are within the variables.
fn push(
    rt: &impl Abort,
    alloc: Global,
    formula: &mut Formula,
    numbers: &[i32],
) -> Result<(), NoMemory> {
    let mut lits = Vec::new(alloc);
    for number in numbers {
        lits.push(Lit::new(*number).expect(rt, "a literal"))?;
    }
    let clause = Clause::of(alloc, &lits)?;
    assert!(rt; clause.is_within(formula.variables()) && formula.len() < 100);
    formula.push(clause)
}

/// The formula of these clauses over three variables.
fn formula(rt: &impl Abort, alloc: Global, clauses: &[&[i32]]) -> Result<Formula, NoMemory> {
    let mut formula = Formula::new(alloc, 3);
    for numbers in clauses {
        push(rt, alloc, &mut formula, numbers)?;
    }
    Ok(formula)
}

/// The settings of sixteen cores, whose limit is from 1 to 1000.
fn settings(limit: u32) -> Settings
    requires some { 1 ≤ limit }
    requires few { limit ≤ 1000 }
    ensures range { AreInRange result }
    ensures cores { result.cores ≡ 16 }
{
    Settings {
        cores: 16,
        period: 300,
        share: 8,
        limit,
        seed: 7,
    }
}

/// The sheet of a core after a stretch over a formula, with a limit and a quota from 1 to 1000.
fn sheet_of(
    rt: &impl Abort,
    alloc: Global,
    formula: &Formula,
    core: u32,
    limit: u32,
    quota: u32,
) -> Result<Sheet, NoMemory>
    requires core { core < 16 }
    requires some { 1 ≤ limit }
    requires few { limit ≤ 1000 }
    requires quota { 1 ≤ quota }
{
    let mut searching = Core::make(alloc, formula, &settings(limit), core)?;
    let end = searching.stretch(quota)?;
    let (period, conflicts, volume) = (
        searching.period(),
        searching.conflicts(),
        searching.volume(),
    );
    let sheet = searching.sheet()?;
    assert_eq!(rt; sheet.mail.end, end);
    assert_eq!(rt;
        (sheet.mail.core, sheet.mail.period, sheet.mail.conflicts),
        (core, period, conflicts)
    );
    assert_eq!(rt; sheet.mail.volume, volume);
    assert_eq!(rt; searching.conflicts(), conflicts);
    Ok(sheet)
}

#[test]
fn a_core_solves_small_formulas(rt: HostRuntime) -> Result<(), Fail> {
    let square = [[1, 2].as_slice(), &[1, -2], &[-1, 2], &[-1, -2]];
    let keeper = [[1, 2].as_slice(), &[1, -2], &[3]];
    let stepped = [[1, 2, 3].as_slice(), &[1, 2, -3]];
    let forked = [[1].as_slice(), &[-1, 2, 3], &[-1, 2, -3]];
    let aside = [[2, 3].as_slice(), &[2, -3], &[1, -2, -3]];
    for (core, clauses, end, lemmas, volume, values) in [
        (0, square.as_slice(), End::Unsat, 2, 1, [].as_slice()),
        (0, keeper.as_slice(), End::Sat, 1, 1, &[true, true, true]),
        (0, stepped.as_slice(), End::Sat, 1, 1, &[false, true, true]),
        (0, forked.as_slice(), End::Sat, 1, 1, &[true, true, true]),
        // variables 2 and 3 were touched, and 3 is picked before 1
        (0, aside.as_slice(), End::Sat, 1, 1, &[true, true, true]),
        // a variable that never had a value has the phase of the row
        (0, [].as_slice(), End::Sat, 0, 0, &[false, false, false]),
        (1, [].as_slice(), End::Sat, 0, 0, &[true, true, true]),
    ] {
        assert!(rt; core < 16);
        let formula = formula(&rt, rt.alloc(), clauses)?;
        let sheet = sheet_of(&rt, rt.alloc(), &formula, core, 10, 10)?;
        assert_eq!(rt; sheet.mail.end, end);
        assert_eq!(rt; sheet.lemmas.len(), lemmas);
        assert_eq!(rt; sheet.mail.conflicts as usize, lemmas);
        assert_eq!(rt; sheet.mail.volume, volume);
        assert_eq!(rt; sheet.model.is_some(), end == End::Sat);
        if let Some(model) = &sheet.model {
            assert_eq!(rt; model.values(), values);
        }
    }
    Ok(())
}

#[test]
fn a_stretch_ends_at_its_quota_or_at_the_limit(rt: HostRuntime) -> Result<(), Fail> {
    let square = [[1, 2].as_slice(), &[1, -2], &[-1, 2], &[-1, -2]];
    let formula = formula(&rt, rt.alloc(), &square)?;
    let quota = sheet_of(&rt, rt.alloc(), &formula, 0, 10, 1)?;
    let spent = sheet_of(&rt, rt.alloc(), &formula, 0, 1, 10)?;
    let both = sheet_of(&rt, rt.alloc(), &formula, 0, 1, 1)?;
    for (sheet, end) in [
        (&quota, End::Quota),
        (&spent, End::Spent),
        (&both, End::Spent),
    ] {
        assert_eq!(rt; sheet.mail.end, end);
        assert_eq!(rt; (sheet.mail.conflicts, sheet.mail.volume), (1, 1));
        assert_eq!(rt; sheet.lemmas.len(), 1);
        assert!(rt; sheet.model.is_none());
    }
    Ok(())
}

#[test]
fn laws_can_be_called(_rt: HostRuntime) {
    law_first_state_is_sound();
    law_turn_keeps_soundness();
    law_conflict_asserts();
    law_stretch_is_sound();
    law_model_satisfies_formula();
    law_derived_lemmas_are_true();
    law_derived_lemmas_check();
    law_any_free_variable_may_be_decided();
    law_any_jump_may_be_made();
    law_any_clause_may_be_dropped();
    law_any_clause_may_be_added();
    law_uses_may_change();
    law_period_may_end();
    law_posts_may_be_imported();
    law_import_keeps_soundness();
    law_model_stands_exactly_at_sat();
    law_mail_counts_the_period();
    law_derived_from_more();
    law_turns_suffice();
    law_spent_core_does_nothing();
    law_stretch_ends_by_rule();
    law_square_is_refuted();
    law_square_is_given_up_at_the_limit();
    law_jump_to_level_one();
    law_root_reason_is_a_hint();
    law_last_value_is_kept();
    law_touched_variable_is_picked_first();
}
