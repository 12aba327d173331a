ghost use Rattle.std.specs.Prelude.{◌≡◌, ◌+◌, ◌-◌, ◌*◌, ◌/◌, ◌≤◌, ◌++◌, ◌∷◌, length, take, drop, OnOk};
ghost use Rattle.lit_base.specs.Literal.{literal_text};
ghost use Rattle.lit_base.specs.Text.{value_words, spaced, value_line, values_text};
ghost use Rattle.answer_text.specs.Gathering.{Passes};

use crate::buffer::{make_room, push_word};
use desk_io::{Outputs, PortFault};
use lit_base::{Model, NoMemory};

/// The most words that a `v` line has.
const WORDS: usize = 16;

/// Adds the `v` lines of a model, and writes what fills the buffer.
pub(crate) fn put_model<O: Outputs>(
    buffer: &mut Vec<u8>,
    model: &Model,
    outputs: &mut O,
) -> Result<(), PortFault>
    ensures { Passes (buffer.old.items ++ values_text model.now) buffer.new.items (O.told outputs.old) (O.told outputs.new) result }
{
    let values = model.values();
    let lines = values.len() / WORDS + 1;
    for line in 0..lines {
        push_line(buffer, values, line)?;
        make_room(buffer, outputs)?;
    }
    Ok(())
}

/// Adds the `v` line of this number, counted from 0: sixteen words, or those that are left with the 0 that ends them.
fn push_line(buffer: &mut Vec<u8>, values: &[bool], line: usize) -> Result<(), NoMemory>
    requires { line ≤ length values.now / 16 }
    ensures { OnOk result (buffer.new.items ≡ buffer.old.items ++ value_line (take 16 (drop (16 * line) (value_words 1 values.now)))) }
{
    let start = WORDS * line;
    let end = values.len().min(start + WORDS);
    let ending = if end < start + WORDS {
        b" 0\n".as_slice()
    } else {
        b"\n".as_slice()
    };
    buffer.push(b'v')?;
    push_values(buffer, values, start, end)?;
    buffer.extend_from_slice(ending)?;
    Ok(())
}

/// Adds the words of the values from `start` to before `end`, each after a blank.
fn push_values(
    buffer: &mut Vec<u8>,
    values: &[bool],
    start: usize,
    end: usize,
) -> Result<(), NoMemory>
    requires order { start ≤ end }
    requires within { end ≤ length values.now }
    ensures { OnOk result (buffer.new.items ≡ buffer.old.items ++ spaced (take (end - start) (drop start (value_words 1 values.now)))) }
{
    for index in start..end {
        push_value(buffer, index + 1, values[index])?;
    }
    Ok(())
}

/// Adds a blank and the literal of this variable and sign.
fn push_value(buffer: &mut Vec<u8>, variable: usize, positive: bool) -> Result<(), NoMemory>
    ensures { OnOk result (buffer.new.items ≡ buffer.old.items ++ 32 ∷ literal_text (record { variable = variable; positive = positive })) }
{
    let mark = if positive {
        b" ".as_slice()
    } else {
        b" -".as_slice()
    };
    push_word(buffer, mark, variable as u64)
}
