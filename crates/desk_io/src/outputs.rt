ghost use Rattle.std.specs.Prelude.{◌≡◌, ◌<◌, length};
ghost use Rattle.desk_io.specs.Told.{OutputsTold};
ghost use Rattle.desk_io.specs.Outputs.{Creates, Writes, WritesWhole};

use crate::{Port, PortFault};

/// The places that bytes are written to. A port counts its faults, and the outputs count the calls
/// of `create`; a count stands still at `u64::MAX`. A call on one port leaves the others as they
/// were.
pub trait Outputs {
    ghost told: { Self → OutputsTold };

    /// Makes the log, empty, under `name`. The other two ports are there from the start.
    fn create(&mut self, port: Port, name: &str) -> Result<(), PortFault>
        requires { port ≡ Port.Log }
        ensures { Creates port name.now (told self.old) (told self.new) result };

    /// Writes some bytes of the front of `piece`, at least one, and answers how many.
    fn write(&mut self, port: Port, piece: &[u8]) -> Result<usize, PortFault>
        requires { 0 < length piece.now }
        ensures { Writes port piece.now (told self.old) (told self.new) result };
}

/// Writes all of `text`, in as many calls of `write` as that takes. After a refusal a front of
/// `text` has been written.
pub fn write_whole<O: Outputs>(outputs: &mut O, port: Port, text: &[u8]) -> Result<(), PortFault>
    ensures { WritesWhole port text.now (O.told outputs.old) (O.told outputs.new) result }
{
    let mut rest = text;
    while !rest.is_empty() {
        let taken = outputs.write(port, rest)?;
        rest = &rest[taken..];
    }
    Ok(())
}
