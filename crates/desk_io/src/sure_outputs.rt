ghost use Rattle.std.specs.Prelude.{◌≡◌, ◌<◌, [], length, Some};
ghost use Rattle.desk_io.specs.Told.{fresh_outputs, raised};
ghost use Rattle.desk_io.specs.Outputs.{Creates, Writes, OnFailed};
ghost use Rattle.desk_io.specs.Sure.{sure_outputs_told};

use crate::bytes::{keep_name, keep_some};
use crate::{Outputs, Port, PortFault};
use lit_base::{List, Text};
use std::alloc::Global;

/// Ports that keep in memory what is written to them, and the names that are given to `create`. No
/// call fails but for want of memory.
#[derive(Drop)]
pub struct SureOutputs {
    alloc: Global,
    answer: List<u8>,
    log: List<u8>,
    complaint: List<u8>,
    names: List<Text>,
    creates: u64,
}

impl SureOutputs {
    /// Nothing is kept yet.
    pub fn new(alloc: Global) -> SureOutputs
        ensures { ⟦<SureOutputs as Outputs>⟧.told result ≡ fresh_outputs (Some []) (Some []) }
    {
        SureOutputs {
            alloc,
            answer: List::new(alloc),
            log: List::new(alloc),
            complaint: List::new(alloc),
            names: List::new(alloc),
            creates: 0,
        }
    }

    /// The bytes that stand on the port.
    pub fn kept(&self, port: Port) -> &[u8]
        ensures { ((⟦<SureOutputs as Outputs>⟧.told self.now).at port).written ≡ Some result.now }
    {
        match port {
            Port::Answer => self.answer.as_slice(),
            Port::Log => self.log.as_slice(),
            Port::Complaint => self.complaint.as_slice(),
        }
    }

    /// The names that `create` was given, in order.
    pub fn kept_names(&self) -> &[Text]
        ensures { (⟦<SureOutputs as Outputs>⟧.told self.now).names ≡ Some result.now }
    {
        self.names.as_slice()
    }
}

impl Outputs for SureOutputs {
    ghost told = { sure_outputs_told };

    fn create(&mut self, port: Port, name: &str) -> Result<(), PortFault>
        requires { port ≡ Port.Log }
        ensures creates { Creates port name.now (sure_outputs_told self.old) (sure_outputs_told self.new) result }
        ensures never_failed { OnFailed result ⊥ }
    {
        self.creates = self.creates.saturating_add(1);
        keep_name(self.alloc, &mut self.names, name)?;
        self.log = List::new(self.alloc);
        Ok(())
    }

    fn write(&mut self, port: Port, piece: &[u8]) -> Result<usize, PortFault>
        requires { 0 < length piece.now }
        ensures writes { Writes port piece.now (sure_outputs_told self.old) (sure_outputs_told self.new) result }
        ensures never_failed { OnFailed result ⊥ }
    {
        let taken = match port {
            Port::Answer => keep_some(&mut self.answer, piece, piece.len()),
            Port::Log => keep_some(&mut self.log, piece, piece.len()),
            Port::Complaint => keep_some(&mut self.complaint, piece, piece.len()),
        }?;
        Ok(taken)
    }
}
