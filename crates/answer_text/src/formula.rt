ghost use Rattle.std.specs.Prelude.{◌≡◌, ◌++◌, decimal, codes, length, flat_map, OnOk};
ghost use Rattle.lit_base.specs.Literal.{Literal, literal_text};
ghost use Rattle.cnf_text.specs.Spelling.{clause_line, formula_text, header_line};
ghost use Rattle.desk_io.specs.declared.Port.TheVariants.{Answer};
ghost use Rattle.desk_io.specs.Outputs.{WritesWhole};
ghost use Rattle.answer_text.specs.Gathering.{Passes};
ghost use Rattle.answer_text.specs.Writing.{WritesAnswer};

use crate::buffer::{empty_buffer, ended, flush, make_room, push_number, push_text, push_word};
use desk_io::{Outputs, PortFault};
use lit_base::{Clause, Formula, Lit, NoMemory};
use log_merge::Stop;
use std::alloc::Global;

/// Writes a formula to the answer port, in DIMACS CNF: the line `p cnf V C`, and then each clause on a line.
///
/// The text is gathered in one buffer of some 64 KiB, however long it is, and this buffer is all the memory that is taken
/// here. `WriteFault` says that the answer could not be written, and `NoMemory` that memory ran out, here or at the outputs;
/// a front of the text has then been written.
pub fn write_formula<O: Outputs>(
    alloc: Global,
    formula: &Formula,
    outputs: &mut O,
) -> Result<(), Stop>
    ensures { WritesAnswer (formula_text formula.now.variables formula.now.clauses) (O.told outputs.old) (O.told outputs.new) result }
{
    ended(write_gathered(alloc, formula, outputs))
}

/// Writes a formula through a buffer.
fn write_gathered<O: Outputs>(
    alloc: Global,
    formula: &Formula,
    outputs: &mut O,
) -> Result<(), PortFault>
    ensures { WritesWhole Answer (formula_text formula.now.variables formula.now.clauses) (O.told outputs.old) (O.told outputs.new) result }
{
    let mut buffer = empty_buffer(alloc)?;
    put_formula(&mut buffer, formula, outputs)?;
    flush(&mut buffer, outputs)
}

/// Adds a formula, and writes what fills the buffer.
fn put_formula<O: Outputs>(
    buffer: &mut Vec<u8>,
    formula: &Formula,
    outputs: &mut O,
) -> Result<(), PortFault>
    ensures { Passes (buffer.old.items ++ formula_text formula.now.variables formula.now.clauses) buffer.new.items (O.told outputs.old) (O.told outputs.new) result }
{
    let clauses = formula.clauses();
    push_header(buffer, formula.variables(), clauses.len())?;
    put_clauses(buffer, clauses, outputs)
}

/// Adds the first line: how many variables and clauses there are.
fn push_header(buffer: &mut Vec<u8>, variables: u32, clauses: usize) -> Result<(), NoMemory>
    ensures { OnOk result (buffer.new.items ≡ buffer.old.items ++ header_line variables clauses) }
{
    push_word(buffer, b"p cnf ", u64::from(variables))?;
    push_word(buffer, b" ", clauses as u64)?;
    push_text(buffer, b"\n")
}

/// Adds clauses, and writes what fills the buffer.
fn put_clauses<O: Outputs>(
    buffer: &mut Vec<u8>,
    clauses: &[Clause],
    outputs: &mut O,
) -> Result<(), PortFault>
    ensures { Passes (buffer.old.items ++ flat_map clause_line clauses.now) buffer.new.items (O.told outputs.old) (O.told outputs.new) result }
{
    for clause in clauses {
        put_clause(buffer, clause.lits(), outputs)?;
    }
    Ok(())
}

/// Adds the line of a clause, and writes what fills the buffer.
fn put_clause<O: Outputs>(
    buffer: &mut Vec<u8>,
    lits: &[Lit],
    outputs: &mut O,
) -> Result<(), PortFault>
    ensures { Passes (buffer.old.items ++ clause_line lits.now) buffer.new.items (O.told outputs.old) (O.told outputs.new) result }
{
    put_lits(buffer, lits, outputs)?;
    push_text(buffer, b"0\n")?;
    Ok(())
}

/// Adds literals, each with a blank behind it, and writes what fills the buffer.
fn put_lits<O: Outputs>(
    buffer: &mut Vec<u8>,
    lits: &[Lit],
    outputs: &mut O,
) -> Result<(), PortFault>
    ensures { Passes (buffer.old.items ++ flat_map (λ (l : Literal). literal_text l ++ codes " ") lits.now) buffer.new.items (O.told outputs.old) (O.told outputs.new) result }
{
    for lit in lits {
        push_lit(buffer, *lit)?;
        make_room(buffer, outputs)?;
    }
    Ok(())
}

/// Adds a literal and a blank.
fn push_lit(buffer: &mut Vec<u8>, lit: Lit) -> Result<(), NoMemory>
    ensures { OnOk result (buffer.new.items ≡ buffer.old.items ++ (literal_text lit ++ codes " ")) }
{
    if !lit.is_positive() {
        buffer.push(b'-')?;
    }
    push_number(buffer, u64::from(lit.var()))?;
    buffer.push(b' ')?;
    Ok(())
}
