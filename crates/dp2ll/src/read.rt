ghost use Rattle.std.specs.Prelude.{◌≡◌, ℕ, [], ◌<◌, ◌≤◌, List, IfOk, length, vec_len};
ghost use Rattle.cnf_text.specs.Reader.{HasRead};
ghost use Rattle.desk_io.specs.declared.Slot.TheVariants.{Formula as FormulaSlot};
ghost use Rattle.dp2ll.specs.Reading.{BeginsFormula, Finds, KeepsBegun, ReadsPiece, ReadsPieces, StopsBy};

use crate::ending::ReadStop;
use cnf_text::{CnfFault, Reader, read_bytes_are_few, read_bytes_are_sound};
use desk_io::{Inputs, Slot};
use lit_base::{Formula, NoMemory};
use std::alloc::Global;

/// How many bytes are asked for at a time.
pub(crate) const PIECE: usize = 65_536;

/// More turns than a formula may have bytes, each of which takes at least one.
const MOST_TURNS: u64 = 268_435_457;

/// Reads the file as a formula, piece by piece, up to its end or the line that ends the input.
///
/// Each piece is judged before the next is read, and nothing is read behind the line that ends the input.
pub(crate) fn read_formula<I: Inputs>(
    alloc: Global,
    file: &str,
    inputs: &mut I,
) -> Result<Formula, ReadStop>
    ensures begun { BeginsFormula file.now (I.told inputs.old) (I.told inputs.new) }
    ensures found { Finds ((I.told inputs.old).held FormulaSlot file.now)
        ((I.told inputs.old).at FormulaSlot) ((I.told inputs.new).at FormulaSlot) result }
{
    read_bytes_are_sound();
    let mut reader = Reader::new(alloc);
    if inputs.begin(Slot::Formula, file).is_err() {
        return Err(ReadStop::ReadFault);
    }
    let mut buffer = match zeros(alloc) {
        Ok(buffer) => buffer,
        Err(_) => return Err(ReadStop::NoMemory),
    };
    read_pieces(inputs, &mut reader, buffer.as_mut_slice())?;
    match reader.end() {
        Ok(formula) => Ok(formula),
        Err(fault) => Err(stop_of(fault)),
    }
}

/// How reading stops by a fault of the reader.
fn stop_of(fault: CnfFault) -> ReadStop
    ensures { StopsBy fault result }
{
    match fault {
        CnfFault::NoMemory => ReadStop::NoMemory,
        _ => ReadStop::NoFormula(fault),
    }
}

/// A buffer for one piece.
pub(crate) fn zeros(alloc: Global) -> Result<Vec<u8>, NoMemory>
    ensures { IfOk result (λ buffer. vec_len buffer ≡ PIECE) }
{
    Ok(vec![in alloc; 0; PIECE]?)
}

/// Reads one piece and judges it. `Ok(true)` stops the reading: the file ends, or the line that ends the input was met.
fn read_piece<I: Inputs>(
    inputs: &mut I,
    reader: &mut Reader,
    buffer: &mut [u8],
) -> Result<bool, ReadStop>
    requires room { 0 < length buffer.old }
    requires piece { length buffer.old ≤ PIECE }
    ensures kept { KeepsBegun (I.told inputs.old) (I.told inputs.new) }
    ensures piece { (taken : List ℕ) → HasRead reader.old taken
        → ReadsPiece ((I.told inputs.old).at FormulaSlot) ((I.told inputs.new).at FormulaSlot) reader.new taken result }
{
    let count = match inputs.read(Slot::Formula, buffer) {
        Ok(count) => count,
        Err(_) => return Err(ReadStop::ReadFault),
    };
    if count == 0 {
        return Ok(true);
    }
    match reader.feed(&buffer[..count]) {
        Ok(()) => Ok(reader.done()),
        Err(fault) => Err(stop_of(fault)),
    }
}

/// Reads pieces until reading stops. Each takes at least a byte, so the limit of bytes ends the loop.
fn read_pieces<I: Inputs>(
    inputs: &mut I,
    reader: &mut Reader,
    buffer: &mut [u8],
) -> Result<(), ReadStop>
    requires room { 0 < length buffer.old }
    requires piece { length buffer.old ≤ PIECE }
    requires fresh { HasRead reader.old [] }
    ensures kept { KeepsBegun (I.told inputs.old) (I.told inputs.new) }
    ensures pieces { ReadsPieces ((I.told inputs.old).at FormulaSlot) ((I.told inputs.new).at FormulaSlot) reader.new result }
{
    read_bytes_are_sound();
    read_bytes_are_few();
    for _ in 0..MOST_TURNS {
        if read_piece(inputs, reader, buffer)? {
            return Ok(());
        }
    }
    unreachable!()
}
