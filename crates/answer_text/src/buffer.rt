ghost use Rattle.std.specs.Prelude.{◌≡◌, [], ◌++◌, decimal, IfOk, OnOk};
ghost use Rattle.log_merge.specs.Writing.{on_port};
ghost use Rattle.desk_io.specs.declared.Port.TheVariants.{Answer};
ghost use Rattle.desk_io.specs.Outputs.{WritesWhole};
ghost use Rattle.answer_text.specs.Gathering.{Passes};

use desk_io::{Outputs, Port, PortFault, write_whole};
use itoa::Buffer;
use lit_base::NoMemory;
use log_merge::Stop;
use std::alloc::Global;

/// So many bytes are gathered before they are written.
const FULL: usize = 65_536;

/// More bytes than the lines take that are added between two looks at whether the buffer is full.
const LINES: usize = 4_096;

/// An empty buffer that has room for all that is gathered in it.
pub(crate) fn empty_buffer(alloc: Global) -> Result<Vec<u8>, NoMemory>
    ensures { IfOk result (λ buffer. buffer.items ≡ []) }
{
    Ok(Vec::with_capacity(alloc, FULL + LINES)?)
}

/// Writes all that the buffer holds to the answer port.
pub(crate) fn flush<O: Outputs>(buffer: &mut Vec<u8>, outputs: &mut O) -> Result<(), PortFault>
    ensures writes { WritesWhole Answer buffer.old.items (O.told outputs.old) (O.told outputs.new) result }
    ensures emptied { OnOk result (buffer.new.items ≡ []) }
{
    write_whole(outputs, Port::Answer, buffer.as_slice())?;
    buffer.clear();
    Ok(())
}

/// Writes what the buffer holds where it is full.
pub(crate) fn make_room<O: Outputs>(buffer: &mut Vec<u8>, outputs: &mut O) -> Result<(), PortFault>
    ensures { Passes buffer.old.items buffer.new.items (O.told outputs.old) (O.told outputs.new) result }
{
    if buffer.len() < FULL {
        return Ok(());
    }
    flush(buffer, outputs)
}

/// Adds a mark and a number.
pub(crate) fn push_word(buffer: &mut Vec<u8>, mark: &[u8], number: u64) -> Result<(), NoMemory>
    ensures { OnOk result (buffer.new.items ≡ buffer.old.items ++ (mark.now ++ decimal number)) }
{
    buffer.extend_from_slice(mark)?;
    push_number(buffer, number)
}

/// Adds a number.
pub(crate) fn push_number(buffer: &mut Vec<u8>, number: u64) -> Result<(), NoMemory>
    ensures { OnOk result (buffer.new.items ≡ buffer.old.items ++ decimal number) }
{
    let mut digits = Buffer::new();
    buffer.extend_from_slice(digits.format(number).as_bytes())?;
    Ok(())
}

/// Adds a text.
pub(crate) fn push_text(buffer: &mut Vec<u8>, text: &[u8]) -> Result<(), NoMemory>
    ensures { OnOk result (buffer.new.items ≡ buffer.old.items ++ text.now) }
{
    buffer.extend_from_slice(text)?;
    Ok(())
}

/// How writing ended, in the words of a run.
pub(crate) fn ended(written: Result<(), PortFault>) -> Result<(), Stop>
    ensures { on_port result ≡ written }
{
    match written {
        Ok(()) => Ok(()),
        Err(PortFault::Failed) => Err(Stop::WriteFault),
        Err(PortFault::NoMemory) => Err(Stop::NoMemory),
    }
}
