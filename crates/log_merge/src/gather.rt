ghost use Rattle.std.specs.Prelude.{◌≡◌, [], ◌++◌, decimal, OnOk};
ghost use Rattle.log_merge.specs.Writing.{Gathers};

use desk_io::{Outputs, Port, PortFault, write_whole};
use itoa::Buffer;
use lit_base::NoMemory;

/// So many bytes are gathered before they are written.
pub(crate) const FULL: usize = 65_536;

/// Writes all that the buffer holds to the log.
pub(crate) fn flush<O: Outputs>(buffer: &mut Vec<u8>, outputs: &mut O) -> Result<(), PortFault>
    ensures gathers { Gathers [] buffer.old.items buffer.new.items (O.told outputs.old) (O.told outputs.new) result }
    ensures emptied { OnOk result (buffer.new.items ≡ []) }
{
    write_whole(outputs, Port::Log, buffer.as_slice())?;
    buffer.clear();
    Ok(())
}

/// Writes what the buffer holds where it is full.
fn make_room<O: Outputs>(buffer: &mut Vec<u8>, outputs: &mut O) -> Result<(), PortFault>
    ensures { Gathers [] buffer.old.items buffer.new.items (O.told outputs.old) (O.told outputs.new) result }
{
    if buffer.len() < FULL {
        return Ok(());
    }
    flush(buffer, outputs)
}

/// Adds a mark and a number.
fn push_word(buffer: &mut Vec<u8>, mark: &[u8], number: u64) -> Result<(), NoMemory>
    ensures { OnOk result (buffer.new.items ≡ buffer.old.items ++ (mark.now ++ decimal number)) }
{
    let mut digits = Buffer::new();
    buffer.extend_from_slice(mark)?;
    buffer.extend_from_slice(digits.format(number).as_bytes())?;
    Ok(())
}

/// Adds a mark.
fn push_mark(buffer: &mut Vec<u8>, mark: &[u8]) -> Result<(), NoMemory>
    ensures { OnOk result (buffer.new.items ≡ buffer.old.items ++ mark.now) }
{
    buffer.extend_from_slice(mark)?;
    Ok(())
}

/// Gathers a mark and a number.
pub(crate) fn put_word<O: Outputs>(
    buffer: &mut Vec<u8>,
    mark: &[u8],
    number: u64,
    outputs: &mut O,
) -> Result<(), PortFault>
    ensures { Gathers (mark.now ++ decimal number) buffer.old.items buffer.new.items (O.told outputs.old) (O.told outputs.new) result }
{
    make_room(buffer, outputs)?;
    push_word(buffer, mark, number)?;
    Ok(())
}

/// Gathers a mark.
pub(crate) fn put_mark<O: Outputs>(
    buffer: &mut Vec<u8>,
    mark: &[u8],
    outputs: &mut O,
) -> Result<(), PortFault>
    ensures { Gathers mark.now buffer.old.items buffer.new.items (O.told outputs.old) (O.told outputs.new) result }
{
    make_room(buffer, outputs)?;
    push_mark(buffer, mark)?;
    Ok(())
}
