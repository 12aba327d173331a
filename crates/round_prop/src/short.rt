use lit_base::{Lit, Name};

/// A clause of one literal, or of none.
#[derive(Clone, Copy, Debug)]
pub(crate) struct Short {
    pub(crate) name: Name,
    pub(crate) lit: Option<Lit>,
}
