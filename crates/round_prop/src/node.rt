use lit_base::Lit;

/// A node of a list: the literal by which its clause is linked here, and where the list goes on.
///
/// `next` is the number of the next node, and 4,294,967,295 at the end of a list.
#[derive(Clone, Copy)]
pub(crate) struct Node {
    pub(crate) next: u32,
    pub(crate) lit: Lit,
}
