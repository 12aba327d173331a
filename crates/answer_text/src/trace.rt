ghost use Rattle.std.specs.Prelude.{◌≡◌, ◌≤◌, ◌<◌, ◌++◌, OnOk};
ghost use Rattle.core_rows.specs.Rows.{row_of};
ghost use Rattle.solo_core.specs.First.{AreInRange, share_of_core};
ghost use Rattle.answer_text.specs.Answer.{trace_text};
ghost use Rattle.answer_text.specs.Gathering.{Passes};
ghost use Rattle.answer_text.specs.Trace.{core_line, core_line_of, core_lines, era_line, era_lines, winner_line};

use crate::buffer::{make_room, push_text, push_word};
use core_rows::{Row, share_of, shipped};
use crew::{Outcome, TraceRow};
use desk_io::{Outputs, PortFault};
use lit_base::NoMemory;
use solo_core::Settings;

/// Adds the trace of a run where it is wanted, and writes what fills the buffer.
pub(crate) fn put_trace<O: Outputs>(
    buffer: &mut Vec<u8>,
    outcome: &Outcome,
    settings: &Settings,
    trace: bool,
    outputs: &mut O,
) -> Result<(), PortFault>
    requires { AreInRange settings.now }
    ensures { Passes (buffer.old.items ++ trace_text outcome.now settings.now trace) buffer.new.items (O.told outputs.old) (O.told outputs.new) result }
{
    if !trace {
        return Ok(());
    }
    push_cores(buffer, settings)?;
    put_rows(buffer, outcome.trace.as_slice(), outputs)?;
    push_winner(buffer, outcome.winner)?;
    Ok(())
}

/// Adds the lines of the cores, which say how they differ.
fn push_cores(buffer: &mut Vec<u8>, settings: &Settings) -> Result<(), NoMemory>
    requires { AreInRange settings.now }
    ensures { OnOk result (buffer.new.items ≡ buffer.old.items ++ core_lines settings.now) }
{
    for core in 0..settings.cores {
        push_core_of(buffer, settings, core)?;
    }
    Ok(())
}

/// Adds the line of the core of this number.
fn push_core_of(buffer: &mut Vec<u8>, settings: &Settings, core: u32) -> Result<(), NoMemory>
    requires { core < 16 }
    ensures { OnOk result (buffer.new.items ≡ buffer.old.items ++ core_line_of settings.now core) }
{
    let row = shipped().row(core as usize);
    push_core(buffer, core, &row, share_of(&row, settings.share))
}

/// Adds the line of a core with this row and this share limit.
fn push_core(buffer: &mut Vec<u8>, core: u32, row: &Row, share: u32) -> Result<(), NoMemory>
    ensures { OnOk result (buffer.new.items ≡ buffer.old.items ++ core_line core row.now share) }
{
    push_word(buffer, b"c core ", u64::from(core))?;
    push_word(buffer, b" phase ", if row.phase { 1 } else { 0 })?;
    push_word(buffer, b" unit ", u64::from(row.unit))?;
    push_word(buffer, b" weight ", row.weight)?;
    push_word(buffer, b" halve ", u64::from(row.halve))?;
    push_word(buffer, b" noise ", u64::from(row.noise))?;
    push_word(buffer, b" share ", u64::from(share))?;
    push_text(buffer, b"\n")
}

/// Adds the lines of the eras, and writes what fills the buffer.
fn put_rows<O: Outputs>(
    buffer: &mut Vec<u8>,
    rows: &[TraceRow],
    outputs: &mut O,
) -> Result<(), PortFault>
    ensures { Passes (buffer.old.items ++ era_lines rows.now) buffer.new.items (O.told outputs.old) (O.told outputs.new) result }
{
    for row in rows {
        push_row(buffer, row)?;
        make_room(buffer, outputs)?;
    }
    Ok(())
}

/// Adds the line of what a core did in an era.
fn push_row(buffer: &mut Vec<u8>, row: &TraceRow) -> Result<(), NoMemory>
    ensures { OnOk result (buffer.new.items ≡ buffer.old.items ++ era_line row.now) }
{
    push_word(buffer, b"c era ", u64::from(row.period))?;
    push_word(buffer, b" ", u64::from(row.core))?;
    push_word(buffer, b" ", u64::from(row.conflicts))?;
    push_word(buffer, b" ", row.volume)?;
    push_word(buffer, b" ", u64::from(row.posted))?;
    push_word(buffer, b" ", u64::from(row.next))?;
    push_text(buffer, b"\n")
}

/// Adds the line that names the winner.
pub(crate) fn push_winner(buffer: &mut Vec<u8>, winner: Option<u32>) -> Result<(), NoMemory>
    ensures { OnOk result (buffer.new.items ≡ buffer.old.items ++ winner_line winner) }
{
    let Some(core) = winner else {
        return push_text(buffer, b"c winner none\n");
    };
    push_word(buffer, b"c winner ", u64::from(core))?;
    push_text(buffer, b"\n")
}
