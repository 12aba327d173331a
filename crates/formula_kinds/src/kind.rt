ghost use Rattle.std.specs.Prelude.{◌≡◌};
ghost use Rattle.formula_kinds.specs.Kinds.{kind_named, kind_word, most_of};

/// The kinds of formulas that are generated, each for a number `n` from 1 to `most_of` its kind.
#[derive(Clone, Copy, Debug, PartialEq, Eq)]
pub enum Kind {
    /// `n + 1` pigeons sit in `n` holes, no two of them in one hole.
    Hole,
    /// Each cell of `n` rows and `n` columns has one of three colours, and no two neighbours have the same.
    Grid,
    /// A quarter of `17 n` clauses, each of three random literals over `n` variables.
    Rand,
}

/// The greatest `n` of a kind.
pub fn most_of(kind: Kind) -> u32
    ensures { result ≡ most_of kind }
{
    match kind {
        Kind::Hole => 100,
        Kind::Grid => 300,
        Kind::Rand => 100_000,
    }
}

/// The word for a kind: `hole`, `grid` or `rand`.
pub fn word_of(kind: Kind) -> &'static str
    ensures { result.now ≡ kind_word kind }
{
    match kind {
        Kind::Hole => "hole",
        Kind::Grid => "grid",
        Kind::Rand => "rand",
    }
}

/// The kind of which this is the word; None where it is the word of none.
pub fn kind_named(word: &str) -> Option<Kind>
    ensures { result ≡ kind_named word.now }
{
    match word {
        "hole" => Some(Kind::Hole),
        "grid" => Some(Kind::Grid),
        "rand" => Some(Kind::Rand),
        _ => None,
    }
}
