ghost use Rattle.std.specs.Prelude.{◌≡◌};
ghost use Rattle.lrat_text.specs.Class.{with_digit, with_byte_pushed};
ghost use Rattle.lrat_text.specs.Machine.{is_empty};
ghost use Rattle.lrat_text.specs.declared.token.Token.TheVariants.{Empty};

/// From this value on no value is told from another: every id and every literal is lower.
const MOST_VALUE: u64 = 9_223_372_036_854_775_808;

/// What the bytes of a token so far are.
///
/// A token may be as long as its line, since leading zeros are accepted, so its bytes aren't kept.
#[derive(Clone, Copy, Debug, PartialEq, Eq)]
pub(crate) enum Token {
    /// No bytes.
    Empty,
    /// `d`.
    Deletion,
    /// `-`.
    Minus,
    /// Digits, behind a `-` where it isn't positive; a value above 2^63 counts as that.
    Number { positive: bool, value: u64 },
    /// Anything else.
    Other,
}

impl Token {
    /// The token with one byte more at its end.
    pub(crate) fn with_byte(self, byte: u8) -> Token
        ensures { result ≡ with_byte_pushed self byte }
    {
        match self {
            Token::Empty => first_byte(byte),
            Token::Deletion => Token::Other,
            Token::Minus => with_digit(false, 0, byte),
            Token::Number { positive, value } => with_digit(positive, value, byte),
            Token::Other => Token::Other,
        }
    }

    pub(crate) fn is_empty(self) -> bool
        ensures { result ≡ is_empty self }
    {
        match self {
            Token::Empty => true,
            Token::Deletion => false,
            Token::Minus => false,
            Token::Number {
                positive: _,
                value: _,
            } => false,
            Token::Other => false,
        }
    }
}

/// The token of this one byte.
fn first_byte(byte: u8) -> Token
    ensures { result ≡ with_byte_pushed Empty byte }
{
    if byte == b'd' {
        return Token::Deletion;
    }
    if byte == b'-' {
        return Token::Minus;
    }
    with_digit(true, 0, byte)
}

/// The number of this sign and value with a digit behind it.
fn with_digit(positive: bool, value: u64, byte: u8) -> Token
    ensures { result ≡ with_digit positive value byte }
{
    if !byte.is_ascii_digit() {
        return Token::Other;
    }
    let digit = u64::from(byte - b'0');
    let value = value
        .saturating_mul(10)
        .saturating_add(digit)
        .min(MOST_VALUE);
    Token::Number { positive, value }
}
