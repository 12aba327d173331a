use lit_base::{Lit, Name};

/// A clause that may be unit or falsified: all its literals but this one are false, and the empty clause has none.
///
/// `row` is that of the clause, and 4,294,967,295 where it has none.
#[derive(Clone, Copy)]
pub(crate) struct Note {
    pub(crate) name: Name,
    pub(crate) lit: Option<Lit>,
    pub(crate) row: u32,
}
