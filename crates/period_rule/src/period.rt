ghost use Rattle.std.specs.Prelude.{◌≡◌, ◌≤◌, ◌^◌};
ghost use Rattle.period_rule.specs.Period.{next_period};

/// How many conflicts a core has in its next period, from `base` to `2 * base`.
///
/// `base` is the first period of every core, from 1 to 100,000, `volume` how much this core holds, and
/// `largest` how much the fullest core holds, at most 2^40. Takes no memory. The rule is this product's own,
/// in the manner of the deterministic portfolio of Hamadi, Jabbour, Piette and Sais (2011), whose cores with
/// fewer lemmas go on for longer before the barrier.
pub fn next_period(base: u32, volume: u64, largest: u64) -> u32
    requires some { 1 ≤ base }
    requires few { base ≤ 100000 }
    requires within { volume ≤ largest }
    requires fits { largest ≤ 2 ^ 40 }
    ensures { result ≡ next_period base volume largest }
{
    if largest == 0 {
        return base;
    }
    let more = u64::from(base) * (largest - volume) / largest;
    base + more as u32
}
