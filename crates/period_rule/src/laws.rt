//! What holds of the rule: a function that does nothing, whose contract states it.
ghost use Rattle.std.specs.Prelude.{◌≡◌, ℕ, ◌+◌, ◌-◌, ◌*◌, ◌^◌, ◌<◌, ◌≤◌, ◌↔◌};
ghost use Rattle.period_rule.specs.Period.{next_period};

/// What is added to the base is the greatest whole number whose product with the largest volume is at most the product
/// of the base with what the volume lacks of the largest; nothing is added where no core holds anything.
///
/// So the period never falls and at most doubles. It stays at the fullest core, doubles at one that holds
/// nothing beside one that holds something, and at a fuller core it is no longer. Then worked values.
pub fn law_next_period()
    ensures greatest { (a v m n : ℕ) → 0 < m → (a + n ≤ next_period a v m) ↔ (n * m ≤ a * (m - v)) }
    ensures none_held { (a v : ℕ) → next_period a v 0 ≡ a }

    ensures never_falls { (a v m : ℕ) → v ≤ m → a ≤ next_period a v m }
    ensures at_most_doubles { (a v m : ℕ) → v ≤ m → next_period a v m ≤ 2 * a }
    ensures fullest_keeps { (a m : ℕ) → next_period a m m ≡ a }
    ensures empty_doubles { (a m : ℕ) → 0 < m → next_period a 0 m ≡ 2 * a }
    ensures fuller_waits_no_longer { (a v w m : ℕ) → v ≤ w → w ≤ m → next_period a w m ≤ next_period a v m }

    ensures all_of_100 { next_period 300 100 100 ≡ 300 }
    ensures half_of_100 { next_period 300 50 100 ≡ 450 }
    ensures none_of_100 { next_period 300 0 100 ≡ 600 }
    ensures all_of_3 { next_period 300 3 3 ≡ 300 }
    ensures two_of_3 { next_period 300 2 3 ≡ 400 }
    ensures nothing_held { next_period 300 0 0 ≡ 300 }
    ensures one_of_many { next_period 100000 1 (2 ^ 40) ≡ 199999 }
{}
