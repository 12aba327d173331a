ghost use Rattle.std.specs.Prelude.{◌≡◌, ◌≤◌, ◌<◌, ◌^◌, IfSome};
ghost use Rattle.std.specs.List.{list_all};
ghost use Rattle.std.specs.Char.{is_ascii_digit};
ghost use Rattle.lit_base.specs.Lines.{is_blank};
ghost use Rattle.lit_base.specs.Numeral.{IsLeading, IsSign, IsAtFront};

/// Digits at the front of a text.
#[derive(Clone, Copy, Debug, PartialEq, Eq)]
pub(crate) struct Digits {
    pub value: u64,
    pub count: usize,
}

/// A number at the front of a text, and the blank behind it.
#[derive(Clone, Copy, Debug, PartialEq, Eq)]
pub struct Numeral {
    /// Whether it has no `-`.
    pub positive: bool,
    /// The value of its digits.
    pub value: u64,
    /// How many bytes it has, its sign among them.
    pub len: usize,
    /// The byte behind it.
    pub blank: u8,
}

/// Whether the byte is a blank: space, LF, tab or CR.
#[inline(always)]
pub fn is_blank(byte: u8) -> bool
    ensures { result ≡ is_blank byte }
{
    byte == b' ' || byte == b'\n' || byte == b'\t' || byte == b'\r'
}

/// Whether all bytes are decimal digits.
pub fn is_digits(bytes: &[u8]) -> bool
    ensures { result ≡ list_all is_ascii_digit bytes.now }
{
    bytes.iter().all(|byte| byte.is_ascii_digit())
}

/// The number that the text begins with, where a blank follows it: an optional `-` and at most so many digits.
///
/// A number of more digits is left out. So many digits are a `u64`, whichever they are: `most` is at most 19.
#[inline(always)]
pub fn numeral_at_front(bytes: &[u8], most: usize) -> Option<Numeral>
    requires { most ≤ 19 }
    ensures front { IfSome result (λ numeral. IsAtFront numeral bytes.now) }
    ensures small { IfSome result (λ numeral. numeral.value < 10 ^ most) }
{
    let sign = sign_len(bytes);
    let digits = leading_digits(&bytes[sign..], most);
    let len = sign + digits.count;
    if digits.count == 0 || len >= bytes.len() || !is_blank(bytes[len]) {
        return None;
    }
    Some(Numeral {
        positive: sign == 0,
        value: digits.value,
        len,
        blank: bytes[len],
    })
}

/// 1 where the text begins with a `-`, else 0.
#[inline(always)]
fn sign_len(bytes: &[u8]) -> usize
    ensures value { IsSign bytes.now result }
{
    match bytes.first() {
        Some(byte) => usize::from(*byte == b'-'),
        None => 0,
    }
}

/// Digits that the text begins with, at most so many.
#[inline(always)]
fn leading_digits(bytes: &[u8], most: usize) -> Digits
    requires { most ≤ 19 }
    ensures leading { IsLeading result bytes.now }
    ensures small { result.value < 10 ^ most }
{
    let front = &bytes[..most.min(bytes.len())];
    let mut digits = Digits { value: 0, count: 0 };
    for byte in front {
        if !byte.is_ascii_digit() {
            return digits;
        }
        digits.value = digits.value * 10 + u64::from(*byte - b'0');
        digits.count += 1;
    }
    digits
}
