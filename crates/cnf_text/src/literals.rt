ghost use Rattle.std.specs.Prelude.{◌≡◌, ◌==◌, List, [], ◌∷◌, ◌++◌, length, OnOk, OnErr};

use lit_base::{Lit, NoMemory};
use std::alloc::Global;
use std::marker::Model;

/// The literals of the open clause, in a buffer that every clause uses again.
#[derive(Debug, Drop)]
pub(crate) struct Literals {
    lits: Vec<Lit>,
}

impl Model for Literals {
    ghost use Rattle.std.specs.Prelude.{List};
    ghost use Rattle.lit_base.specs.Literal.{Literal};

    ghost Value = { List Literal };

    ghost view = { λ l. l.lits.items };
}

impl Literals {
    /// No literals; takes no memory.
    pub(crate) fn new(alloc: Global) -> Literals
        ensures { result ≡ [] }
    {
        Literals {
            lits: Vec::new(alloc),
        }
    }

    pub(crate) fn is_empty(&self) -> bool
        ensures { result ≡ (length self.now == 0) }
    {
        self.lits.is_empty()
    }

    pub(crate) fn as_slice(&self) -> &[Lit]
        ensures { result.now ≡ self.now }
    {
        self.lits.as_slice()
    }

    /// Drops the literals, and keeps the buffer.
    pub(crate) fn clear(&mut self)
        ensures { self.new ≡ [] }
    {
        self.lits.clear();
    }

    /// Adds a literal at the end.
    pub(crate) fn push(&mut self, lit: Lit) -> Result<(), NoMemory>
        ensures ok { OnOk result (self.new ≡ self.old ++ lit ∷ []) }
        ensures err { OnErr result (self.new ≡ self.old) }
    {
        self.lits.push(lit)?;
        Ok(())
    }
}
