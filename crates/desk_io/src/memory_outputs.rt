ghost use Rattle.std.specs.Prelude.{◌≡◌, ◌↔◌, IsTrue, IsErrOf, OnOk, IfOk, Contains, ◌<◌, ◌≤◌, [], length, Some};
ghost use Rattle.desk_io.specs.Told.{fresh_outputs, raised, Rose};
ghost use Rattle.desk_io.specs.Outputs.{Creates, Writes, Grows, OnFailed, names_after, created};
ghost use Rattle.desk_io.specs.Memory.{outputs_with, PortIsToFail, CountsPortCall, port_faults_after};

use crate::bytes::{keep_name, keep_some};
use crate::{Outputs, Port, PortFault};
use lit_base::{List, Text};
use std::alloc::Global;

/// Ports that keep in memory what is written to them, and the names that are given to `create`.
#[derive(Drop)]
pub struct MemoryOutputs {
    alloc: Global,
    grain: usize,
    failing: List<(Port, u64)>,
    answer: Kept,
    log: Kept,
    complaint: Kept,
    names: List<Text>,
    creates: u64,
    ghost writes_some: { 0 < grain },
}

/// The bytes that were written to a port, and the counts of the port.
#[derive(Drop)]
struct Kept {
    bytes: List<u8>,
    calls: u64,
    faults: u64,
}

impl MemoryOutputs {
    ghost use Rattle.desk_io.specs.Shown.{shown_outputs};

    /// A call of `write` takes at most `grain` bytes, and fewer where memory runs out. The calls on
    /// a port are numbered from 1; one whose number stands in `failing` fails.
    pub fn new(alloc: Global, grain: usize, failing: List<(Port, u64)>) -> MemoryOutputs
        requires { 0 < grain }
        ensures told { ⟦<MemoryOutputs as Outputs>⟧.told result ≡ fresh_outputs (Some []) (Some []) }
        ensures shown { shown_outputs result ≡ outputs_with grain failing }
    {
        MemoryOutputs {
            alloc,
            grain,
            failing,
            answer: unwritten(alloc),
            log: unwritten(alloc),
            complaint: unwritten(alloc),
            names: List::new(alloc),
            creates: 0,
        }
    }

    /// The bytes that stand on the port.
    pub fn kept(&self, port: Port) -> &[u8]
        ensures { ((⟦<MemoryOutputs as Outputs>⟧.told self.now).at port).written ≡ Some result.now }
    {
        match port {
            Port::Answer => self.answer.bytes.as_slice(),
            Port::Log => self.log.bytes.as_slice(),
            Port::Complaint => self.complaint.bytes.as_slice(),
        }
    }

    /// The names that `create` was given, in order.
    pub fn kept_names(&self) -> &[Text]
        ensures { (⟦<MemoryOutputs as Outputs>⟧.told self.now).names ≡ Some result.now }
    {
        self.names.as_slice()
    }
}

fn unwritten(alloc: Global) -> Kept
    ensures bytes { result.bytes ≡ [] }
    ensures calls { result.calls ≡ 0 }
    ensures faults { result.faults ≡ 0 }
{
    Kept {
        bytes: List::new(alloc),
        calls: 0,
        faults: 0,
    }
}

/// Counts a call on the port, and answers whether it is to fail.
fn fails_now(kept: &mut Kept, port: Port, failing: &[(Port, u64)]) -> bool
    ensures counted { kept.new ≡ record kept.old { calls = raised kept.old.calls } }
    ensures answer { IsTrue result ↔ Contains failing.now (port, kept.new.calls) }
{
    kept.calls = kept.calls.saturating_add(1);
    failing.contains(&(port, kept.calls))
}

/// A call that fails counts it.
fn count_fault(kept: &mut Kept) -> PortFault
    ensures failed { result ≡ PortFault.Failed }
    ensures counted { kept.new ≡ record kept.old { faults = raised kept.old.faults } }
    ensures later { kept.old.faults ≤ kept.new.faults }
{
    kept.faults = kept.faults.saturating_add(1);
    PortFault::Failed
}

/// Keeps at most `grain` bytes of the front of the piece.
fn write_kept(
    kept: &mut Kept,
    port: Port,
    failing: &[(Port, u64)],
    grain: usize,
    piece: &[u8],
) -> Result<usize, PortFault>
    requires grain { 0 < grain }
    requires some { 0 < length piece.now }
    ensures fails { IsErrOf result PortFault.Failed ↔ Contains failing.now (port, raised kept.old.calls) }
    ensures takes { IfOk result (λ n. n ≤ grain) }
    ensures written { Grows piece.now (Some kept.old.bytes) (Some kept.new.bytes) result }
    ensures calls { kept.new.calls ≡ raised kept.old.calls }
    ensures faults { kept.new.faults ≡ port_faults_after kept.old.faults result }
    ensures later { kept.old.faults ≤ kept.new.faults }
    ensures failed { OnFailed result (Rose kept.old.faults kept.new.faults) }
{
    if fails_now(kept, port, failing) {
        return Err(count_fault(kept));
    }
    Ok(keep_some(&mut kept.bytes, piece, grain)?)
}

/// Keeps the name, and then empties the log.
fn create_kept(
    alloc: Global,
    log: &mut Kept,
    failing: &[(Port, u64)],
    names: &mut List<Text>,
    name: &str,
) -> Result<(), PortFault>
    ensures ok { OnOk result (¬ Contains failing.now (Port.Log, raised log.old.calls)) }
    ensures fails { OnFailed result (Contains failing.now (Port.Log, raised log.old.calls)) }
    ensures names { Some names.new ≡ names_after (Some names.old) name.now result }
    ensures written { Some log.new.bytes ≡ created (Some log.old.bytes) result }
    ensures calls { log.new.calls ≡ raised log.old.calls }
    ensures faults { log.new.faults ≡ port_faults_after log.old.faults result }
    ensures later { log.old.faults ≤ log.new.faults }
    ensures failed { OnFailed result (Rose log.old.faults log.new.faults) }
{
    let fails = fails_now(log, Port::Log, failing);
    keep_name(alloc, names, name)?;
    if fails {
        return Err(count_fault(log));
    }
    log.bytes = List::new(alloc);
    Ok(())
}

impl Outputs for MemoryOutputs {
    ghost use Rattle.desk_io.specs.Shown.{shown_outputs};

    ghost told = { λ s. (shown_outputs s).told };

    fn create(&mut self, port: Port, name: &str) -> Result<(), PortFault>
        requires { port ≡ Port.Log }
        ensures creates { Creates port name.now (shown_outputs self.old).told (shown_outputs self.new).told result }
        ensures counted { CountsPortCall port (shown_outputs self.old) (shown_outputs self.new) }

        // Memory may run out for the name, also in a call that is to fail.
        ensures ok { OnOk result (¬ PortIsToFail port (shown_outputs self.old)) }
        ensures fails { OnFailed result (PortIsToFail port (shown_outputs self.old)) }
        ensures faults { ((shown_outputs self.new).told.at port).faults
            ≡ port_faults_after ((shown_outputs self.old).told.at port).faults result }
    {
        self.creates = self.creates.saturating_add(1);
        let failing = self.failing.as_slice();
        create_kept(self.alloc, &mut self.log, failing, &mut self.names, name)
    }

    fn write(&mut self, port: Port, piece: &[u8]) -> Result<usize, PortFault>
        requires { 0 < length piece.now }
        ensures writes { Writes port piece.now (shown_outputs self.old).told (shown_outputs self.new).told result }
        ensures counted { CountsPortCall port (shown_outputs self.old) (shown_outputs self.new) }
        ensures fails { IsErrOf result PortFault.Failed ↔ PortIsToFail port (shown_outputs self.old) }
        ensures takes { IfOk result (λ n. n ≤ (shown_outputs self.old).grain) }
        ensures faults { ((shown_outputs self.new).told.at port).faults
            ≡ port_faults_after ((shown_outputs self.old).told.at port).faults result }
    {
        let failing = self.failing.as_slice();
        match port {
            Port::Answer => write_kept(&mut self.answer, port, failing, self.grain, piece),
            Port::Log => write_kept(&mut self.log, port, failing, self.grain, piece),
            Port::Complaint => write_kept(&mut self.complaint, port, failing, self.grain, piece),
        }
    }
}
