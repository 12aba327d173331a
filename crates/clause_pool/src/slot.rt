use lit_base::Name;

/// A clause that is found by its name: the link to an older slot of its chain, where its literals end in the arena, and
/// how often it was a hint.
///
/// It takes 32 bytes, so that a line of the cache has all that is asked of a clause but its literals.
#[derive(Clone, Copy, Debug)]
pub(crate) struct Slot {
    pub(crate) name: Name,
    pub(crate) link: u32,
    pub(crate) end: usize,
    pub(crate) uses: u64,
}
