ghost use Rattle.std.specs.Prelude.{◌≡◌, ◌≤◌, length, IfOk, OnErr};
ghost use Rattle.desk_io.specs.Told.{fresh_inputs, raised, Rose};
ghost use Rattle.desk_io.specs.Real.{nothing_held, real_inputs_told};

use crate::standard_streams::fill_closed_streams;
use crate::{Failed, Inputs, Slot};
use std::fs::File;
use std::io::Read;

/// Files of the system. Of their bytes nothing is told, only how often a call failed: what a file
/// gives is the system's word.
#[derive(Drop)]
pub struct RealInputs {
    rt: HostRuntime,
    formula: OpenSlot,
    proof: OpenSlot,
}

/// What a slot has open, and its counts.
#[derive(Drop)]
struct OpenSlot {
    file: Option<File>,
    begins: u64,
    faults: u64,
}

impl RealInputs {
    /// No file is open yet. From here on no file takes the place of a standard stream that was
    /// closed.
    pub fn new(rt: HostRuntime) -> RealInputs
        ensures { ⟦<RealInputs as Inputs>⟧.told result ≡ fresh_inputs nothing_held }
    {
        fill_closed_streams(&rt);
        RealInputs {
            rt,
            formula: closed(),
            proof: closed(),
        }
    }
}

fn closed() -> OpenSlot
    ensures begins { result.begins ≡ 0 }
    ensures faults { result.faults ≡ 0 }
{
    OpenSlot {
        file: None,
        begins: 0,
        faults: 0,
    }
}

/// Opens the file of that name, in place of the one that was open.
fn begin_file(rt: &HostRuntime, slot: &mut OpenSlot, name: &str) -> Result<(), Failed>
    ensures begins { slot.new.begins ≡ raised slot.old.begins }
    ensures later { slot.old.faults ≤ slot.new.faults }
    ensures failed { OnErr result (Rose slot.old.faults slot.new.faults) }
{
    slot.begins = slot.begins.saturating_add(1);
    slot.file = File::open(rt, name).ok();
    if slot.file.is_some() {
        return Ok(());
    }
    slot.faults = slot.faults.saturating_add(1);
    Err(Failed)
}

/// Reads from the file that is open; where none is, the read fails.
fn read_file(slot: &mut OpenSlot, buf: &mut [u8]) -> Result<usize, Failed>
    ensures begins { slot.new.begins ≡ slot.old.begins }
    ensures within { IfOk result (λ n. n ≤ length buf.new) }
    ensures later { slot.old.faults ≤ slot.new.faults }
    ensures failed { OnErr result (Rose slot.old.faults slot.new.faults) }
{
    if let Some(file) = &mut slot.file
        && let Ok(taken) = file.read(buf)
    {
        return Ok(taken);
    }
    slot.faults = slot.faults.saturating_add(1);
    Err(Failed)
}

impl Inputs for RealInputs {
    ghost told = { real_inputs_told };

    fn begin(&mut self, slot: Slot, name: &str) -> Result<(), Failed> {
        match slot {
            Slot::Formula => begin_file(&self.rt, &mut self.formula, name),
            Slot::Proof => begin_file(&self.rt, &mut self.proof, name),
        }
    }

    fn read(&mut self, slot: Slot, buf: &mut [u8]) -> Result<usize, Failed> {
        match slot {
            Slot::Formula => read_file(&mut self.formula, buf),
            Slot::Proof => read_file(&mut self.proof, buf),
        }
    }
}
