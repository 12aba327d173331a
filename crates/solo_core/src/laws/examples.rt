//! What core 0 does with small formulas, computed.
ghost use Rattle.std.specs.Prelude.{◌≡◌, true, false, List, [], ◌∷◌, Some, None};
ghost use Rattle.lit_base.specs.Examples.{plain, square, forked};
ghost use Rattle.lit_base.specs.Rounds.{original};
ghost use Rattle.lit_base.specs.Trail.{model_of};
ghost use Rattle.solo_core.specs.State.{lemma_name};
ghost use Rattle.solo_core.specs.Sheet.{mail_of, sheet_of};
ghost use Rattle.solo_core.specs.Laws.{alone, first_stretch, learnt_lemma, keeper, stepped, aside};
ghost use Rattle.solo_core.specs.declared.sheet.End.TheVariants.{Sat, Unsat, Spent};

/// The four clauses of two variables: a lemma of one literal, then the empty one, and no more.
pub fn law_square_is_refuted()
    ensures ended { (first_stretch square 10).ended ≡ Unsat }
    ensures lemmas { (first_stretch square 10).state.lemmas ≡
        learnt_lemma 0 (plain 1 ∷ []) (original 0 ∷ original 1 ∷ [])
        ∷ learnt_lemma 1 [] (lemma_name 1 0 0 ∷ original 2 ∷ original 3 ∷ []) ∷ [] }
    ensures model { (sheet_of (alone square 10) (first_stretch square 10)).model ≡ None }
{}

/// The same with a limit of one conflict: the core ends with the first lemma, at level 0.
pub fn law_square_is_given_up_at_the_limit()
    ensures ended { (first_stretch square 1).ended ≡ Spent }
    ensures lemmas { (first_stretch square 1).state.lemmas ≡
        learnt_lemma 0 (plain 1 ∷ []) (original 0 ∷ original 1 ∷ []) ∷ [] }
    ensures trail { (first_stretch square 1).state.trail ≡ [] }
    ensures mail { mail_of (alone square 1) (first_stretch square 1) ≡
        record {
          core = 0;
          period = 1;
          end = Spent;
          conflicts = 1;
          volume = 1;
          posted = record { name = lemma_name 1 0 0; lits = plain 1 ∷ [] } ∷ [];
        } }
{}

/// A lemma of levels 2 and 1: the core jumps to level 1, where the lemma is unit.
pub fn law_jump_to_level_one()
    ensures ended { (first_stretch stepped 10).ended ≡ Sat }
    ensures lemmas { (first_stretch stepped 10).state.lemmas ≡
        learnt_lemma 0 (plain 2 ∷ plain 1 ∷ []) (original 0 ∷ original 1 ∷ []) ∷ [] }
    ensures model { (sheet_of (alone stepped 10) (first_stretch stepped 10)).model ≡
        Some (false ∷ true ∷ true ∷ []) }
{}

/// A literal of level 0 goes from the lemma, and its reason stands in the hints.
pub fn law_root_reason_is_a_hint()
    ensures ended { (first_stretch forked 10).ended ≡ Sat }
    ensures lemmas { (first_stretch forked 10).state.lemmas ≡
        learnt_lemma 0 (plain 2 ∷ []) (original 0 ∷ original 1 ∷ original 2 ∷ []) ∷ [] }
    ensures model { (sheet_of (alone forked 10) (first_stretch forked 10)).model ≡
        Some (true ∷ true ∷ true ∷ []) }
{}

/// A variable that left the trail is decided with the value that it last had.
pub fn law_last_value_is_kept()
    ensures ended { (first_stretch keeper 10).ended ≡ Sat }
    ensures lemmas { (first_stretch keeper 10).state.lemmas ≡
        learnt_lemma 0 (plain 1 ∷ []) (original 0 ∷ original 1 ∷ []) ∷ [] }
    ensures model { (sheet_of (alone keeper 10) (first_stretch keeper 10)).model ≡
        Some (true ∷ true ∷ []) }
{}

/// A variable that a conflict touched is picked before one of a lower number.
pub fn law_touched_variable_is_picked_first()
    ensures ended { (first_stretch aside 10).ended ≡ Sat }
    ensures lemmas { (first_stretch aside 10).state.lemmas ≡
        learnt_lemma 0 (plain 2 ∷ []) (original 0 ∷ original 1 ∷ []) ∷ [] }
    ensures model { (sheet_of (alone aside 10) (first_stretch aside 10)).model ≡
        Some (true ∷ true ∷ true ∷ []) }
{}
