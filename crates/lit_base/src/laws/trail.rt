//! Laws of the trail, of models and of jumps.
ghost use Rattle.lit_base.specs.Laws.{FullTrailSatisfies, ModelHasEachValue};
ghost use Rattle.std.specs.Prelude.{◌≡◌, ◌≤◌, ℕ, List, Option};
ghost use Rattle.lit_base.specs.Literal.{Literal};
ghost use Rattle.lit_base.specs.Trail.{level_now};
ghost use Rattle.lit_base.specs.Backjump.{cut};
ghost use Rattle.lit_base.specs.Fits.{IsFitting};
ghost use Rattle.lit_base.specs.declared.trail.Entry.{Entry};
ghost use Rattle.lit_base.specs.declared.name.Name.{Name};

/// A trail that leaves no variable free and falsifies no clause gives a model of the formula.
pub fn law_full_trail_satisfies()
    ensures { FullTrailSatisfies }
{}

/// The model that a trail gives so many variables has so many values.
pub fn law_model_has_each_value()
    ensures { ModelHasEachValue }
{}

/// A trail that is cut to a level that it has still fits its clauses, and its newest entry is of that level.
pub fn law_jump_fits()
    ensures fits { (look : Name → Option (List Literal)) (level : ℕ) (trail : List Entry) →
        IsFitting look trail → IsFitting look (cut level trail) }
    ensures level { (look : Name → Option (List Literal)) (level : ℕ) (trail : List Entry) →
        IsFitting look trail → level ≤ level_now trail → level_now (cut level trail) ≡ level }
{}
