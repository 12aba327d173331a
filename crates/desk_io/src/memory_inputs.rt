ghost use Rattle.std.specs.Prelude.{◌≡◌, ◌↔◌, ◌⊎◌, IsTrue, IsErr, IsNone, Contains, ◌<◌, ◌≤◌, length, IfOk, OnErr, option_copied};
ghost use Rattle.desk_io.specs.Told.{raised, Rose, fresh_inputs};
ghost use Rattle.desk_io.specs.Inputs.{Begins, Reads, Takes};
ghost use Rattle.desk_io.specs.Memory.{place_in, held_by_name, bytes_at, reading_slot, inputs_over, SlotIsToFail, CountsSlotCall, count_read, faults_after};

use crate::bytes::read_from;
use crate::{Failed, Inputs, Slot};
use lit_base::List;

/// Files in memory, a name and its bytes each, that every slot holds. Of two files of one name the
/// first counts.
#[derive(Drop)]
pub struct MemoryInputs {
    files: List<(List<u8>, List<u8>)>,
    grain: usize,
    failing: List<(Slot, u64)>,
    formula: Reading,
    proof: Reading,
    ghost reads_some: { 0 < grain },
}

/// Which file a slot has open, how much of it was read, and the counts of the slot.
#[derive(Drop)]
struct Reading {
    file: Option<usize>,
    position: usize,
    calls: u64,
    begins: u64,
    faults: u64,
}

impl MemoryInputs {
    ghost use Rattle.desk_io.specs.Shown.{shown_inputs};

    /// A call of `read` gives at most `grain` bytes, and none where no file is open. The calls on a
    /// slot are numbered from 1; one whose number stands in `failing` fails, and so does `begin` of
    /// a name that no file has.
    pub fn new(
        files: List<(List<u8>, List<u8>)>,
        grain: usize,
        failing: List<(Slot, u64)>,
    ) -> MemoryInputs
        requires { 0 < grain }
        ensures told { ⟦<MemoryInputs as Inputs>⟧.told result ≡ fresh_inputs (held_by_name files) }
        ensures shown { shown_inputs result ≡ inputs_over files grain failing }
    {
        MemoryInputs {
            files,
            grain,
            failing,
            formula: unread(),
            proof: unread(),
        }
    }
}

fn unread() -> Reading
    ensures file { result.file ≡ None }
    ensures calls { result.calls ≡ 0 }
    ensures begins { result.begins ≡ 0 }
    ensures faults { result.faults ≡ 0 }
{
    Reading {
        file: None,
        position: 0,
        calls: 0,
        begins: 0,
        faults: 0,
    }
}

/// The place of the first file of that name.
fn place_of(files: &[(List<u8>, List<u8>)], name: &[u8]) -> Option<usize>
    ensures { result ≡ place_in files.now name.now }
{
    files.iter().position(|file| file.0.as_slice() == name)
}

/// The bytes of the file at a place.
fn bytes_of(files: &[(List<u8>, List<u8>)], place: Option<usize>) -> Option<&[u8]>
    ensures { option_copied result ≡ bytes_at files.now place }
{
    let (_, bytes) = files.get(place?)?;
    Some(bytes.as_slice())
}

/// Counts a call on the slot, and answers whether it is to fail.
fn fails_now(reading: &mut Reading, slot: Slot, failing: &[(Slot, u64)]) -> bool
    ensures counted { reading.new ≡ record reading.old { calls = raised reading.old.calls } }
    ensures answer { IsTrue result ↔ Contains failing.now (slot, reading.new.calls) }
{
    reading.calls = reading.calls.saturating_add(1);
    failing.contains(&(slot, reading.calls))
}

/// A call that fails counts it.
fn count_fault(reading: &mut Reading) -> Failed
    ensures counted { reading.new ≡ record reading.old { faults = raised reading.old.faults } }
    ensures later { reading.old.faults ≤ reading.new.faults }
{
    reading.faults = reading.faults.saturating_add(1);
    Failed
}

/// Opens the first file of that name, from its first byte on. It fails where there is none, and
/// where it is to fail.
fn begin_file(
    reading: &mut Reading,
    slot: Slot,
    failing: &[(Slot, u64)],
    files: &[(List<u8>, List<u8>)],
    name: &str,
) -> Result<(), Failed>
    ensures fails { IsErr result ↔ (Contains failing.now (slot, raised reading.old.calls)
        ⊎ IsNone (held_by_name files.now slot name.now)) }
    ensures file { reading.new.file ≡ place_in files.now name.now }
    ensures position { reading.new.position ≡ 0 }
    ensures calls { reading.new.calls ≡ raised reading.old.calls }
    ensures begins { reading.new.begins ≡ raised reading.old.begins }
    ensures faults { reading.new.faults ≡ faults_after reading.old.faults result }
    ensures later { reading.old.faults ≤ reading.new.faults }
    ensures failed { OnErr result (Rose reading.old.faults reading.new.faults) }
{
    let place = place_of(files, name.as_bytes());
    reading.file = place;
    reading.position = 0;
    reading.begins = reading.begins.saturating_add(1);
    let fails = fails_now(reading, slot, failing);
    if fails || place.is_none() {
        return Err(count_fault(reading));
    }
    Ok(())
}

/// Reads at most `grain` bytes of the file that is open, and none where none is. It fails where it
/// is to fail.
fn read_file(
    reading: &mut Reading,
    slot: Slot,
    failing: &[(Slot, u64)],
    files: &[(List<u8>, List<u8>)],
    grain: usize,
    buf: &mut [u8],
) -> Result<usize, Failed>
    requires grain { 0 < grain }
    requires room { 0 < length buf.old }
    ensures fails { IsErr result ↔ Contains failing.now (slot, raised reading.old.calls) }
    ensures gives { IfOk result (λ n. n ≡ count_read (reading_slot files.now reading.old).left grain buf.new) }
    ensures file { reading.new.file ≡ reading.old.file }
    ensures calls { reading.new.calls ≡ raised reading.old.calls }
    ensures begins { reading.new.begins ≡ reading.old.begins }
    ensures left { Takes buf.new (reading_slot files.now reading.old).left
        (reading_slot files.now reading.new).left result }
    ensures faults { reading.new.faults ≡ faults_after reading.old.faults result }
    ensures later { reading.old.faults ≤ reading.new.faults }
    ensures failed { OnErr result (Rose reading.old.faults reading.new.faults) }
{
    if fails_now(reading, slot, failing) {
        return Err(count_fault(reading));
    }
    let Some(bytes) = bytes_of(files, reading.file) else {
        return Ok(0);
    };
    let taken = read_from(bytes, reading.position, grain, buf);
    reading.position += taken;
    Ok(taken)
}

impl Inputs for MemoryInputs {
    ghost use Rattle.desk_io.specs.Shown.{shown_inputs};

    ghost told = { λ s. (shown_inputs s).told };

    fn begin(&mut self, slot: Slot, name: &str) -> Result<(), Failed>
        ensures begins { Begins slot name.now (shown_inputs self.old).told (shown_inputs self.new).told result }
        ensures counted { CountsSlotCall slot (shown_inputs self.old) (shown_inputs self.new) }

        // No other call of `begin` fails, and want of memory is no cause: none is asked for.
        ensures fails { IsErr result ↔ (SlotIsToFail slot (shown_inputs self.old)
            ⊎ IsNone ((shown_inputs self.old).told.held slot name.now)) }
        ensures faults { ((shown_inputs self.new).told.at slot).faults
            ≡ faults_after ((shown_inputs self.old).told.at slot).faults result }
    {
        let files = self.files.as_slice();
        let failing = self.failing.as_slice();
        match slot {
            Slot::Formula => begin_file(&mut self.formula, slot, failing, files, name),
            Slot::Proof => begin_file(&mut self.proof, slot, failing, files, name),
        }
    }

    fn read(&mut self, slot: Slot, buf: &mut [u8]) -> Result<usize, Failed>
        requires { 0 < length buf.old }
        ensures reads { Reads slot buf.new (shown_inputs self.old).told (shown_inputs self.new).told result }
        ensures counted { CountsSlotCall slot (shown_inputs self.old) (shown_inputs self.new) }
        ensures fails { IsErr result ↔ SlotIsToFail slot (shown_inputs self.old) }
        ensures gives { IfOk result (λ n. n ≡ count_read ((shown_inputs self.old).told.at slot).left
            (shown_inputs self.old).grain buf.new) }
        ensures faults { ((shown_inputs self.new).told.at slot).faults
            ≡ faults_after ((shown_inputs self.old).told.at slot).faults result }
    {
        let files = self.files.as_slice();
        let failing = self.failing.as_slice();
        match slot {
            Slot::Formula => read_file(&mut self.formula, slot, failing, files, self.grain, buf),
            Slot::Proof => read_file(&mut self.proof, slot, failing, files, self.grain, buf),
        }
    }
}
