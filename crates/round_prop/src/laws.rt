//! Laws of attached clauses: functions that do nothing, whose contracts state them.
ghost use Rattle.std.specs.Prelude.{◌≡◌, ◌∷◌, List, None};
ghost use Rattle.lit_base.specs.Rounds.{NamedClause};
ghost use Rattle.lit_base.specs.Held.{HeldClause, clause_of, clauses_of, with_clause, without_names, with_named, clauses_without};
ghost use Rattle.lit_base.specs.declared.trail.Entry.{Entry};
ghost use Rattle.lit_base.specs.declared.name.Name.{Name};
ghost use Rattle.lit_base.specs.Named.{lits_at};
ghost use Rattle.round_prop.specs.Attached.{RoundsState, IsAttached};
ghost use Rattle.round_prop.specs.Spanned.{IsPlacedIn};

/// What is told of attached clauses is determined: which these are with their literals, which are fresh, and what was seen.
pub fn law_attached_is_determined()
    ensures attached { (r : RoundsState) (attached others : List NamedClause) (fresh names : List Name) (seen entries : List Entry) →
        IsAttached r attached fresh seen → IsAttached r others names entries → attached ≡ others }
    ensures fresh { (r : RoundsState) (attached others : List NamedClause) (fresh names : List Name) (seen entries : List Entry) →
        IsAttached r attached fresh seen → IsAttached r others names entries → fresh ≡ names }
    ensures seen { (r : RoundsState) (attached others : List NamedClause) (fresh names : List Name) (seen entries : List Entry) →
        IsAttached r attached fresh seen → IsAttached r others names entries → seen ≡ entries }
{}

/// The held clauses change at `Pool::add` and at a drop as the attached ones do at `attach` and `detach`.
pub fn law_attached_follow_held()
    ensures held { (c : HeldClause) (held : List HeldClause) →
        clauses_of (with_clause c held) ≡ with_named (clause_of c) (clauses_of held) }
    ensures dropped { (names : List Name) (held : List HeldClause) →
        clauses_of (without_names names held) ≡ clauses_without names (clauses_of held) }
{}

/// A clause that is added under a new name leaves where the others stand.
pub fn law_places_stay_at_an_add()
    ensures { (r : RoundsState) (c : NamedClause) (added : List NamedClause) → lits_at added c.name ≡ None → IsPlacedIn r added →
        IsPlacedIn r (c ∷ added) }
{}
