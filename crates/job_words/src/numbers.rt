ghost use Rattle.std.specs.Prelude.{◌≡◌, ◌≤◌, option_map, IfSome};
ghost use Rattle.job_words.specs.Numbers.{is_number, number_of, number_given};

use lit_base::is_digits;

/// The most digits of a number.
const DIGITS: usize = 20;

/// The number of a text that may be there, where it is one from `low` to `high`, or else `otherwise`.
pub(crate) fn number_given(text: Option<&str>, low: u64, high: u64, otherwise: u64) -> Option<u64>
    requires low { low ≤ otherwise }
    requires high { otherwise ≤ high }
    ensures number { result ≡ number_given low high otherwise (option_map (λ t. t.now) text.entry) }
    ensures within { IfSome result (λ n. (low ≤ n) × (n ≤ high)) }
{
    match text {
        Some(text) => number_of(text, low, high),
        None => Some(otherwise),
    }
}

/// The number of a text of 1 to 20 digits, where it is one from `low` to `high`.
pub(crate) fn number_of(text: &str, low: u64, high: u64) -> Option<u64>
    ensures number { result ≡ number_of low high text.now }
    ensures within { IfSome result (λ n. (low ≤ n) × (n ≤ high)) }
{
    if !is_number(text) {
        return None;
    }
    let Ok(number) = text.parse::<u64>() else {
        return None;
    };
    if low <= number && number <= high {
        Some(number)
    } else {
        None
    }
}

/// Whether a text is 1 to 20 digits.
fn is_number(text: &str) -> bool
    ensures { result ≡ is_number text.now }
{
    !text.is_empty() && text.len() <= DIGITS && is_digits(text.as_bytes())
}
