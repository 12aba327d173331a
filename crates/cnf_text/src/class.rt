ghost use Rattle.std.specs.Prelude.{◌≡◌, ℕ, ◌≤◌, min, true};
ghost use Rattle.std.specs.List.{list_all};
ghost use Rattle.std.specs.Char.{is_ascii_digit};
ghost use Rattle.lit_base.specs.Numeral.{value_from};
ghost use Rattle.cnf_text.specs.Class.{class_of, digits_class, capped};

use lit_base::is_digits;

/// Above this value no number is told from another: every limit of the format is lower.
const MOST_VALUE: u64 = 100_000_000;

/// What a token is.
#[derive(Clone, Copy, Debug, PartialEq, Eq)]
pub(crate) enum Class {
    /// `p`.
    Magic,
    /// `cnf`.
    Format,
    /// Digits, behind a `-` where it isn't positive; a value above a hundred million counts as that.
    Number { positive: bool, value: u32 },
    /// Anything else.
    Other,
}

/// What the token is.
pub(crate) fn class_of(token: &[u8]) -> Class
    ensures { result ≡ capped (class_of token.now) }
{
    if token == b"p".as_slice() {
        return Class::Magic;
    }
    if token == b"cnf".as_slice() {
        return Class::Format;
    }
    match token.split_first() {
        Some((first, digits)) if *first == b'-' => digits_class(false, digits),
        _ => digits_class(true, token),
    }
}

/// The number of this sign that the bytes are, where they are digits.
fn digits_class(positive: bool, digits: &[u8]) -> Class
    ensures { result ≡ capped (digits_class positive digits.now) }
{
    if digits.is_empty() || !is_digits(digits) {
        return Class::Other;
    }
    Class::Number {
        positive,
        value: value_of(digits),
    }
}

/// The value of the digits, or a hundred million where it is greater.
fn value_of(digits: &[u8]) -> u32
    requires { list_all is_ascii_digit digits.now ≡ true }
    ensures { result ≡ min (value_from 0 digits.now) 100000000 }
{
    let mut value: u64 = 0;
    for digit in digits {
        value = (value * 10 + u64::from(*digit - b'0')).min(MOST_VALUE);
    }
    value as u32
}
