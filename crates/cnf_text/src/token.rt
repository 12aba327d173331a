ghost use Rattle.std.specs.Prelude.{◌≡◌, ℕ, ◌≤◌, ◌<◌, ◌==◌, List, [], ◌∷◌, ◌++◌, length};

use std::marker::Model;

/// The most bytes of a token.
pub(crate) const MOST_TOKEN_BYTES: usize = 64;

/// The bytes of a token that isn't whole yet.
#[derive(Debug, Drop)]
pub(crate) struct Token {
    bytes: [u8; 64],
    len: usize,
}

impl Model for Token {
    ghost use Rattle.std.specs.Prelude.{ℕ, ◌≤◌, List, take};

    ghost Value = { List ℕ };

    ghost view = { λ t. take t.len t.bytes };

    ghost invariant = { λ t. t.len ≤ 64 };
}

impl Token {
    /// A token without bytes.
    pub(crate) fn new() -> Token
        ensures { result ≡ [] }
    {
        Token {
            bytes: [0; 64],
            len: 0,
        }
    }

    pub(crate) fn len(&self) -> usize
        ensures value { result ≡ length self.now }
        ensures short { result ≤ 64 }
    {
        self.len
    }

    pub(crate) fn is_empty(&self) -> bool
        ensures { result ≡ (length self.now == 0) }
    {
        self.len == 0
    }

    /// The bytes, at most 64.
    pub(crate) fn as_slice(&self) -> &[u8]
        ensures value { result.now ≡ self.now }
        ensures short { length self.now ≤ 64 }
    {
        &self.bytes[..self.len]
    }

    pub(crate) fn clear(&mut self)
        ensures { self.new ≡ [] }
    {
        self.len = 0;
    }

    /// Adds a byte at the end.
    pub(crate) fn push(&mut self, byte: u8)
        requires { length self.old < 64 }
        ensures { self.new ≡ self.old ++ byte ∷ [] }
    {
        self.bytes[self.len] = byte;
        self.len += 1;
    }
}
