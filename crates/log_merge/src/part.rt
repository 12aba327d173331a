ghost use Rattle.std.specs.Prelude.{◌≡◌, [], ◌∷◌, All, IfOk, decimal};
ghost use Rattle.lit_base.specs.Literal.{literal_text};
ghost use Rattle.desk_io.specs.Outputs.{WritesWhole};
ghost use Rattle.log_merge.specs.Numbering.{number_of, HasNumber};
ghost use Rattle.log_merge.specs.Part.{literals_text, hints_text, line_text, part_text, HasNumbers, AllHaveNumbers};
ghost use Rattle.log_merge.specs.Writing.{Gathers, WritesPart};

use crate::gather::{FULL, flush, put_mark, put_word};
use crate::numbers::Numbers;
use crate::stop::Stop;
use desk_io::{Outputs, Port, PortFault};
use lit_base::{Lit, Name, NoMemory};
use solo_core::Lemma;
use std::alloc::Global;

/// More bytes than a mark and a number ever take.
const WORD: usize = 32;

/// Writes the lines of some lemmas to the log, each with its number and the numbers of its hints.
///
/// The text is gathered in one buffer of some 64 KiB, however long it is, and this buffer is all the
/// memory that is taken here. `WriteFault` says that the log could not be written, and `NoMemory` that
/// memory ran out, here or at the outputs; a front of the text has then been written.
pub fn write_part<O: Outputs>(
    alloc: Global,
    numbers: &Numbers,
    lemmas: &[Lemma],
    outputs: &mut O,
) -> Result<(), Stop>
    requires { AllHaveNumbers numbers.now lemmas.now }
    ensures { WritesPart (part_text numbers.now lemmas.now) (O.told outputs.old) (O.told outputs.new) result }
{
    match write_lines(alloc, numbers, lemmas, outputs) {
        Ok(()) => Ok(()),
        Err(PortFault::Failed) => Err(Stop::WriteFault),
        Err(PortFault::NoMemory) => Err(Stop::NoMemory),
    }
}

/// Writes the lines of some lemmas through a buffer.
fn write_lines<O: Outputs>(
    alloc: Global,
    numbers: &Numbers,
    lemmas: &[Lemma],
    outputs: &mut O,
) -> Result<(), PortFault>
    requires { AllHaveNumbers numbers.now lemmas.now }
    ensures { WritesWhole Port.Log (part_text numbers.now lemmas.now) (O.told outputs.old) (O.told outputs.new) result }
{
    let mut buffer = empty_buffer(alloc)?;
    put_lines(&mut buffer, numbers, lemmas, outputs)?;
    flush(&mut buffer, outputs)
}

/// An empty buffer that has room for all that is gathered in it.
fn empty_buffer(alloc: Global) -> Result<Vec<u8>, NoMemory>
    ensures { IfOk result (λ buffer. buffer.items ≡ []) }
{
    Ok(Vec::with_capacity(alloc, FULL + WORD)?)
}

/// Gathers the lines of some lemmas.
fn put_lines<O: Outputs>(
    buffer: &mut Vec<u8>,
    numbers: &Numbers,
    lemmas: &[Lemma],
    outputs: &mut O,
) -> Result<(), PortFault>
    requires { AllHaveNumbers numbers.now lemmas.now }
    ensures { Gathers (part_text numbers.now lemmas.now) buffer.old.items buffer.new.items (O.told outputs.old) (O.told outputs.new) result }
{
    for lemma in lemmas {
        put_line(buffer, numbers, lemma, outputs)?;
    }
    Ok(())
}

/// Gathers the line of a lemma.
fn put_line<O: Outputs>(
    buffer: &mut Vec<u8>,
    numbers: &Numbers,
    lemma: &Lemma,
    outputs: &mut O,
) -> Result<(), PortFault>
    requires { HasNumbers numbers.now lemma.now }
    ensures { Gathers (line_text numbers.now lemma.now) buffer.old.items buffer.new.items (O.told outputs.old) (O.told outputs.new) result }
{
    put_word(buffer, b"", numbers.number(lemma.name), outputs)?;
    put_literals(buffer, lemma.lits.as_slice(), outputs)?;
    put_mark(buffer, b" 0", outputs)?;
    put_hints(buffer, numbers, lemma.hints.as_slice(), outputs)?;
    put_mark(buffer, b" 0\n", outputs)
}

/// Gathers literals, each after a blank.
fn put_literals<O: Outputs>(
    buffer: &mut Vec<u8>,
    lits: &[Lit],
    outputs: &mut O,
) -> Result<(), PortFault>
    ensures { Gathers (literals_text lits.now) buffer.old.items buffer.new.items (O.told outputs.old) (O.told outputs.new) result }
{
    for lit in lits {
        put_literal(buffer, *lit, outputs)?;
    }
    Ok(())
}

/// Gathers a blank and a literal.
fn put_literal<O: Outputs>(buffer: &mut Vec<u8>, lit: Lit, outputs: &mut O) -> Result<(), PortFault>
    ensures { Gathers (32 ∷ literal_text lit) buffer.old.items buffer.new.items (O.told outputs.old) (O.told outputs.new) result }
{
    let mark = if lit.is_positive() {
        b" ".as_slice()
    } else {
        b" -".as_slice()
    };
    put_word(buffer, mark, u64::from(lit.var()), outputs)
}

/// Gathers the numbers of hints, each after a blank.
fn put_hints<O: Outputs>(
    buffer: &mut Vec<u8>,
    numbers: &Numbers,
    hints: &[Name],
    outputs: &mut O,
) -> Result<(), PortFault>
    requires { All (HasNumber numbers.now) hints.now }
    ensures { Gathers (hints_text numbers.now hints.now) buffer.old.items buffer.new.items (O.told outputs.old) (O.told outputs.new) result }
{
    for hint in hints {
        put_hint(buffer, numbers, *hint, outputs)?;
    }
    Ok(())
}

/// Gathers a blank and the number of a hint.
fn put_hint<O: Outputs>(
    buffer: &mut Vec<u8>,
    numbers: &Numbers,
    hint: Name,
    outputs: &mut O,
) -> Result<(), PortFault>
    requires { HasNumber numbers.now hint }
    ensures { Gathers (32 ∷ decimal (number_of numbers.now hint)) buffer.old.items buffer.new.items (O.told outputs.old) (O.told outputs.new) result }
{
    put_word(buffer, b" ", numbers.number(hint), outputs)
}
