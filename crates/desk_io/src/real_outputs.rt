ghost use Rattle.std.specs.Prelude.{◌≡◌, ◌<◌, ◌≤◌, length, IfOk, None};
ghost use Rattle.desk_io.specs.Told.{fresh_outputs, Rose};
ghost use Rattle.desk_io.specs.Outputs.{OnFailed};
ghost use Rattle.desk_io.specs.Real.{real_outputs_told};

use crate::standard_streams::fill_closed_streams;
use crate::{Outputs, Port, PortFault};
use std::fs::File;
use std::io;
use std::io::{ErrorKind, Write};

/// Standard output, a log file and standard error. Of the bytes that stand there nothing is told,
/// only how often a call failed: what became of a write is the system's word.
#[derive(Drop)]
pub struct RealOutputs {
    rt: HostRuntime,
    log: Option<File>,
    creates: u64,
    answer_faults: u64,
    log_faults: u64,
    complaint_faults: u64,
}

impl RealOutputs {
    /// There is no log yet. From here on no file takes the place of a standard stream that was
    /// closed, and each write to such a stream fails.
    pub fn new(rt: HostRuntime) -> RealOutputs
        ensures { ⟦<RealOutputs as Outputs>⟧.told result ≡ fresh_outputs None None }
    {
        fill_closed_streams(&rt);
        RealOutputs {
            rt,
            log: None,
            creates: 0,
            answer_faults: 0,
            log_faults: 0,
            complaint_faults: 0,
        }
    }
}

/// The answer to an error of the system, which is counted.
fn refused(faults: &mut u64, error: &io::Error) -> PortFault
    ensures later { faults.old ≤ faults.new }
    ensures rose { Rose faults.old faults.new }
{
    *faults = faults.saturating_add(1);
    if error.kind() == ErrorKind::OutOfMemory {
        PortFault::NoMemory
    } else {
        PortFault::Failed
    }
}

/// One write to a stream or a file. A write of no byte is a fault.
fn write_to<W: Write>(writer: &mut W, faults: &mut u64, piece: &[u8]) -> Result<usize, PortFault>
    ensures some { IfOk result (λ n. 0 < n) }
    ensures within { IfOk result (λ n. n ≤ length piece.now) }
    ensures later { faults.old ≤ faults.new }
    ensures failed { OnFailed result (Rose faults.old faults.new) }
{
    match writer.write(piece) {
        Ok(0) => {
            *faults = faults.saturating_add(1);
            Err(PortFault::Failed)
        }
        Ok(taken) => Ok(taken),
        Err(error) => Err(refused(faults, &error)),
    }
}

/// One write to the log. Where none was made it is a fault.
fn write_to_log(log: &mut Option<File>, faults: &mut u64, piece: &[u8]) -> Result<usize, PortFault>
    ensures some { IfOk result (λ n. 0 < n) }
    ensures within { IfOk result (λ n. n ≤ length piece.now) }
    ensures later { faults.old ≤ faults.new }
    ensures failed { OnFailed result (Rose faults.old faults.new) }
{
    let Some(file) = log else {
        *faults = faults.saturating_add(1);
        return Err(PortFault::Failed);
    };
    write_to(file, faults, piece)
}

/// Makes the log file, in place of the one that was open.
fn create_log(
    rt: &HostRuntime,
    log: &mut Option<File>,
    faults: &mut u64,
    name: &str,
) -> Result<(), PortFault>
    ensures later { faults.old ≤ faults.new }
    ensures failed { OnFailed result (Rose faults.old faults.new) }
{
    match File::create(rt, name) {
        Ok(file) => {
            *log = Some(file);
            Ok(())
        }
        Err(error) => Err(refused(faults, &error)),
    }
}

impl Outputs for RealOutputs {
    ghost told = { real_outputs_told };

    fn create(&mut self, _port: Port, name: &str) -> Result<(), PortFault> {
        self.creates = self.creates.saturating_add(1);
        create_log(&self.rt, &mut self.log, &mut self.log_faults, name)
    }

    fn write(&mut self, port: Port, piece: &[u8]) -> Result<usize, PortFault> {
        match port {
            Port::Answer => write_to(&mut self.rt.stdout(), &mut self.answer_faults, piece),
            Port::Log => write_to_log(&mut self.log, &mut self.log_faults, piece),
            Port::Complaint => write_to(&mut self.rt.stderr(), &mut self.complaint_faults, piece),
        }
    }
}
