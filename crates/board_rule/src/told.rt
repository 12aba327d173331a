ghost use Rattle.std.specs.Prelude.{ℕ};

/// What a board carries: each value is put by one party for another one, and taken by it.
pub trait Told: Send + Drop {
    /// What all parties of a board work on.
    type Occasion;

    /// Whether a value may go from one party to another one in a period: of the occasion, the number of the sender,
    /// the number of the receiver, the period, and the value.
    ghost fits: { Self.Occasion → ℕ → ℕ → ℕ → Self → Type 0 };
}
