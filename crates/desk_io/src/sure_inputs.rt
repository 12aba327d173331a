ghost use Rattle.std.specs.Prelude.{◌≡◌, ◌<◌, length, Some, IsOkAnd, IsOk};
ghost use Rattle.desk_io.specs.Told.{fresh_inputs, raised};
ghost use Rattle.desk_io.specs.Inputs.{Begins, Reads, TakesFirst};
ghost use Rattle.desk_io.specs.Memory.{count_read};
ghost use Rattle.desk_io.specs.Sure.{held_by_slot, sure_slot, sure_inputs_told};

use crate::bytes::read_from;
use crate::{Failed, Inputs, Slot};
use lit_base::List;

/// Bytes in memory, that a slot holds under every name. No call fails.
#[derive(Drop)]
pub struct SureInputs {
    formula: SureSlot,
    proof: SureSlot,
}

/// The bytes of a slot, how many of them were read since the last `begin`, if there was one, and
/// how often it was begun.
#[derive(Drop)]
struct SureSlot {
    bytes: List<u8>,
    position: Option<usize>,
    begins: u64,
}

impl SureInputs {
    /// The bytes of the formula and those of the proof. Before its first `begin` a slot gives none.
    pub fn new(formula: List<u8>, proof: List<u8>) -> SureInputs
        ensures { ⟦<SureInputs as Inputs>⟧.told result ≡ fresh_inputs (held_by_slot formula proof) }
    {
        SureInputs {
            formula: SureSlot {
                bytes: formula,
                position: None,
                begins: 0,
            },
            proof: SureSlot {
                bytes: proof,
                position: None,
                begins: 0,
            },
        }
    }
}

/// Goes back to the first byte.
fn begin_slot(slot: &mut SureSlot)
    ensures bytes { slot.new.bytes ≡ slot.old.bytes }
    ensures position { slot.new.position ≡ Some 0 }
    ensures begins { slot.new.begins ≡ raised slot.old.begins }
{
    slot.position = Some(0);
    slot.begins = slot.begins.saturating_add(1);
}

/// Reads on from where the last read ended.
fn read_slot(slot: &mut SureSlot, buf: &mut [u8]) -> usize
    requires { 0 < length buf.old }
    ensures gives { result ≡ count_read (sure_slot slot.old).left (length buf.new) buf.new }
    ensures bytes { slot.new.bytes ≡ slot.old.bytes }
    ensures begins { slot.new.begins ≡ slot.old.begins }
    ensures begun { (sure_slot slot.new).begun ≡ (sure_slot slot.old).begun }
    ensures left { TakesFirst result buf.new (sure_slot slot.old).left (sure_slot slot.new).left }
{
    let Some(position) = slot.position else {
        return 0;
    };
    let taken = read_from(slot.bytes.as_slice(), position, buf.len(), buf);
    slot.position = Some(position + taken);
    taken
}

impl Inputs for SureInputs {
    ghost told = { sure_inputs_told };

    fn begin(&mut self, slot: Slot, name: &str) -> Result<(), Failed>
        ensures begins { Begins slot name.now (sure_inputs_told self.old) (sure_inputs_told self.new) result }
        ensures never_fails { IsOk result }
    {
        match slot {
            Slot::Formula => begin_slot(&mut self.formula),
            Slot::Proof => begin_slot(&mut self.proof),
        }
        Ok(())
    }

    fn read(&mut self, slot: Slot, buf: &mut [u8]) -> Result<usize, Failed>
        requires { 0 < length buf.old }
        ensures reads { Reads slot buf.new (sure_inputs_told self.old) (sure_inputs_told self.new) result }
        ensures gives { IsOkAnd result (λ n.
            n ≡ count_read ((sure_inputs_told self.old).at slot).left (length buf.new) buf.new) }
    {
        Ok(match slot {
            Slot::Formula => read_slot(&mut self.formula, buf),
            Slot::Proof => read_slot(&mut self.proof, buf),
        })
    }
}
