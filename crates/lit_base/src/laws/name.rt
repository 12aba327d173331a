//! Laws of names.
ghost use Rattle.std.specs.Prelude.{◌≡◌, ◌↔◌, IsTrue};
ghost use Rattle.std.specs.declared.cmp.Ordering.{Ordering};
ghost use Rattle.lit_base.specs.Held.{is_before};
ghost use Rattle.lit_base.specs.declared.name.Name.{Name};

/// The order by which maps and sorts compare names is that of a dictionary: by period, then by
/// core, then by index.
pub fn law_names_are_ordered()
    ensures { (a b : Name) →
        (⟦<crate::name::Name as Ord>⟧.cmp a b ≡ Ordering.Less) ↔ IsTrue (is_before a b) }
{}
