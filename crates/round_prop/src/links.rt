ghost use Rattle.std.specs.Prelude.{◌≡◌, ◌+◌, ◌<◌, ◌≤◌, ℕ, [], ◌∷◌, ◌++◌, List, All, set, length, vec_len, vec_capacity};
ghost use Rattle.lit_base.specs.Literal.{Literal};
ghost use Rattle.trail_book.specs.Arrays.{index_of};
ghost use Rattle.round_prop.specs.Chains.{no_node, nexts_of, lits_of, list_at, times, last_of, onto, AreLists, AreThreaded, IsChain, IsFront};

use crate::node::Node;
use lit_base::Lit;

/// The number that no node has: a list ends there.
pub(crate) const NO_NODE: u32 = u32::MAX;

/// Lists of nodes, one for each literal by its index, where each clause that is linked has two.
///
/// `heads` has the first node of each list; nodes 2 r and 2 r + 1 are of row r. List 0 is of no literal, and empty.
#[derive(Drop)]
pub(crate) struct Links {
    pub(crate) heads: Vec<u32>,
    pub(crate) nodes: Vec<Node>,
}

impl Links {
    /// The node behind `last` in a list, and the first one where `last` is no node; None where the list ends there.
    pub(crate) fn behind(&self, list: usize, last: u32) -> Option<u32>
        requires { list < length self.now.heads.items }
        ensures { (lists : List (List ℕ)) (met rest : List ℕ) → AreLists self.now.heads.items (nexts_of self.now.nodes.items) lists →
            list_at lists list ≡ onto met rest → last ≡ last_of met → IsFront rest result }
    {
        let next = self.next(list, last);
        if (next as usize) < self.nodes.len() {
            return Some(next);
        }
        None
    }

    /// What is told behind a node, or in front of a list where there is no such node.
    fn next(&self, list: usize, last: u32) -> u32
        requires { list < length self.now.heads.items }
        ensures { (lists : List (List ℕ)) (met rest : List ℕ) → AreLists self.now.heads.items (nexts_of self.now.nodes.items) lists →
            list_at lists list ≡ onto met rest → last ≡ last_of met → IsChain (nexts_of self.now.nodes.items) result rest }
    {
        if (last as usize) < self.nodes.len() {
            return self.nodes[last as usize].next;
        }
        self.heads[list]
    }

    /// Takes the node behind `last` out of a list, or the first one where `last` is no node.
    pub(crate) fn unlink(&mut self, list: usize, last: u32, node: u32)
        requires list { list < length self.old.heads.items }
        requires node { node < length self.old.nodes.items }
        ensures unlinked { (lists : List (List ℕ)) (met later : List ℕ) → AreLists self.old.heads.items (nexts_of self.old.nodes.items) lists →
            list_at lists list ≡ onto met (node ∷ later) → last ≡ last_of met → AreLists self.new.heads.items (nexts_of self.new.nodes.items) (set lists list (onto met later)) }
        ensures lits { lits_of self.new.nodes.items ≡ lits_of self.old.nodes.items }
        ensures heads { length self.new.heads.items ≡ length self.old.heads.items }
        ensures room { vec_capacity self.new.nodes ≡ vec_capacity self.old.nodes }
    {
        let next = self.nodes[node as usize].next;
        if (last as usize) < self.nodes.len() {
            self.nodes[last as usize].next = next;
            return;
        }
        self.heads[list] = next;
    }

    /// Puts a node that is in no list in front of one, linked by this literal.
    pub(crate) fn put(&mut self, list: usize, node: u32, lit: Lit)
        requires list { list < length self.old.heads.items }
        requires node { node < length self.old.nodes.items }
        ensures pushed { (lists : List (List ℕ)) → AreLists self.old.heads.items (nexts_of self.old.nodes.items) lists →
            times node lists ≡ 0 → AreLists self.new.heads.items (nexts_of self.new.nodes.items) (set lists list (node ∷ list_at lists list)) }
        ensures lits { lits_of self.new.nodes.items ≡ set (lits_of self.old.nodes.items) node lit }
        ensures heads { length self.new.heads.items ≡ length self.old.heads.items }
        ensures room { vec_capacity self.new.nodes ≡ vec_capacity self.old.nodes }
    {
        let next = self.heads[list];
        self.nodes[node as usize] = Node { next, lit };
        self.heads[list] = node;
    }

    /// A node more, in reserved room, in the list of its literal.
    pub(crate) fn add(&mut self, lit: Lit)
        requires room { vec_len self.old.nodes < vec_capacity self.old.nodes }
        requires few { length self.old.nodes.items < no_node }
        requires list { index_of lit < length self.old.heads.items }
        ensures threaded { AreThreaded self.old.heads.items self.old.nodes.items → AreThreaded self.new.heads.items self.new.nodes.items }
        ensures lits { lits_of self.new.nodes.items ≡ lits_of self.old.nodes.items ++ lit ∷ [] }
        ensures heads { length self.new.heads.items ≡ length self.old.heads.items }
        ensures room { vec_capacity self.new.nodes ≡ vec_capacity self.old.nodes }
    {
        let node = self.nodes.len() as u32;
        self.nodes.push_reserved(Node { next: NO_NODE, lit });
        self.put(lit.index(), node, lit);
    }

    /// Threads all nodes anew by their literals.
    pub(crate) fn thread(&mut self)
        requires few { vec_len self.old.nodes ≤ no_node }
        requires begun { 0 < vec_len self.old.heads }
        requires wide { All (λ n. index_of n.lit < vec_len self.old.heads) self.old.nodes.items }
        ensures threaded { AreThreaded self.new.heads.items self.new.nodes.items }
        ensures lits { lits_of self.new.nodes.items ≡ lits_of self.old.nodes.items }
        ensures room { (vec_capacity self.new.nodes ≡ vec_capacity self.old.nodes) × (vec_len self.new.heads ≡ vec_len self.old.heads) }
    {
        self.heads.fill(NO_NODE);
        for node in 0..self.nodes.len() {
            let lit = self.nodes[node].lit;
            self.put(lit.index(), node as u32, lit);
        }
    }
}
