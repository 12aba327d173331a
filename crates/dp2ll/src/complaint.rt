ghost use Rattle.std.specs.Prelude.{◌≡◌, ◌⊎◌, ◌++◌, IfOk, OnOk, Some, codes, decimal};
ghost use Rattle.dp2ll.specs.declared.ending.ReadStop.TheVariants.{NoFormula};
ghost use Rattle.dp2ll.specs.Ending.{status_of, read_status, complaint_of, read_complaint, flaw_complaint, place_text, proof_complaint, write_complaint};
ghost use Rattle.dp2ll.specs.Answering.{page_of};
ghost use Rattle.dp2ll.specs.Complaint.{Complains};

use crate::ending::{Ending, ProofStop, ReadStop, WriteStop};
use crate::finding::{Finding, Flaw};
use cnf_text::CnfFault;
use desk_io::{Outputs, Port, PortFault, write_whole};
use itoa::Buffer;
use lit_base::NoMemory;
use std::alloc::Global;

/// How to call the program.
const USAGE: &[u8; 107] =
    b"dp2ll: usage\ndp2ll: solve FILE [options] | check FILE PROOF | gen KIND N [options] | race KIND N [options]\n";

/// The complaint of want of memory.
const OUT_OF_MEMORY: &[u8; 21] = b"dp2ll: out of memory\n";

/// The status of want of memory.
const MEMORY_STATUS: u8 = 5;

/// Writes the complaint of an ending, where it has one, and answers the exit status.
///
/// A write that fails changes nothing of the status; want of memory makes it 5.
pub(crate) fn complain<O: Outputs>(alloc: Global, outputs: &mut O, ending: &Ending) -> u8
    ensures complaint { Complains (complaint_of ending.now) (status_of ending.now)
        ((O.told outputs.old).at Port.Complaint) ((O.told outputs.new).at Port.Complaint) result }
    ensures others { page_of (O.told outputs.new) ≡ page_of (O.told outputs.old) }
{
    match ending {
        Ending::Answered(_) | Ending::Judged(Finding::Verified) | Ending::Written => {
            ending.status()
        }
        Ending::Judged(Finding::Flawed(flaw)) => complain_of_flaw(alloc, outputs, *flaw),
        Ending::Usage => complain_aloud(outputs, USAGE.as_slice(), 1),
        Ending::Unread(stop) => complain_of_reading(alloc, outputs, *stop),
        Ending::Unjudged(stop) => complain_aloud(outputs, proof_complaint(*stop), stop.status()),
        Ending::Unwritten(stop) => complain_aloud(outputs, write_complaint(*stop), stop.status()),
        Ending::NoMemory => complain_aloud(outputs, OUT_OF_MEMORY.as_slice(), MEMORY_STATUS),
    }
}

/// Writes this text, the complaint of an ending with this status.
fn complain_aloud<O: Outputs>(outputs: &mut O, text: &[u8], status: u8) -> u8
    ensures complaint { Complains (Some text.now) status
        ((O.told outputs.old).at Port.Complaint) ((O.told outputs.new).at Port.Complaint) result }
    ensures others { page_of (O.told outputs.new) ≡ page_of (O.told outputs.old) }
{
    match write_whole(outputs, Port::Complaint, text) {
        Ok(()) | Err(PortFault::Failed) => status,
        Err(PortFault::NoMemory) => MEMORY_STATUS,
    }
}

/// Writes the complaint of a file that gave no formula.
fn complain_of_reading<O: Outputs>(alloc: Global, outputs: &mut O, stop: ReadStop) -> u8
    ensures complaint { Complains (Some (read_complaint stop)) (read_status stop)
        ((O.told outputs.old).at Port.Complaint) ((O.told outputs.new).at Port.Complaint) result }
    ensures others { page_of (O.told outputs.new) ≡ page_of (O.told outputs.old) }
{
    match stop {
        ReadStop::NoFormula(fault) => complain_of_file(alloc, outputs, fault),
        ReadStop::ReadFault => complain_aloud(
            outputs,
            b"dp2ll: cannot read formula\n".as_slice(),
            stop.status(),
        ),
        ReadStop::NoMemory => { complain_aloud(outputs, OUT_OF_MEMORY.as_slice(), stop.status()) }
    }
}

/// Writes the complaint of a file that is no formula by this fault.
fn complain_of_file<O: Outputs>(alloc: Global, outputs: &mut O, fault: CnfFault) -> u8
    ensures complaint { Complains (Some (read_complaint (NoFormula fault))) 2
        ((O.told outputs.old).at Port.Complaint) ((O.told outputs.new).at Port.Complaint) result }
    ensures others { page_of (O.told outputs.new) ≡ page_of (O.told outputs.old) }
{
    match fault_text(alloc, fault) {
        Ok(text) => complain_aloud(outputs, text.as_slice(), 2),
        Err(_) => MEMORY_STATUS,
    }
}

/// Writes the complaint of a proof that has this flaw.
fn complain_of_flaw<O: Outputs>(alloc: Global, outputs: &mut O, flaw: Flaw) -> u8
    ensures complaint { Complains (Some (flaw_complaint flaw)) 6
        ((O.told outputs.old).at Port.Complaint) ((O.told outputs.new).at Port.Complaint) result }
    ensures others { page_of (O.told outputs.new) ≡ page_of (O.told outputs.old) }
{
    match flaw_text(alloc, flaw) {
        Ok(text) => complain_aloud(outputs, text.as_slice(), 6),
        Err(_) => MEMORY_STATUS,
    }
}

/// The line that names the flaw of a proof.
fn flaw_text(alloc: Global, flaw: Flaw) -> Result<Vec<u8>, NoMemory>
    ensures { IfOk result (λ text. text.items ≡ flaw_complaint flaw) }
{
    match flaw {
        Flaw::Misread(fault) => proof_line(alloc, fault.line(), fault.name(), None),
        Flaw::Misjudged(fault) => proof_line(alloc, fault.line(), fault.name(), fault.place()),
        Flaw::NoEmptyClause => {
            Ok(Vec::from_slice(alloc, b"dp2ll: proof has no empty clause\n")?)
        }
    }
}

/// The line that names a fault of the proof, its line, and its place where it has one.
fn proof_line(
    alloc: Global,
    line: u64,
    name: &[u8],
    place: Option<u64>,
) -> Result<Vec<u8>, NoMemory>
    ensures { IfOk result (λ text. text.items ≡
        codes "dp2ll: proof line " ++ decimal line ++ codes ": " ++ name.now ++ place_text place ++ codes "\n") }
{
    let mut buffer = Buffer::new();
    let mut text = Vec::from_slice(alloc, b"dp2ll: proof line ")?;
    text.extend_from_slice(buffer.format(line).as_bytes())?;
    text.extend_from_slice(b": ")?;
    text.extend_from_slice(name)?;
    push_place(&mut text, place)?;
    text.push(b'\n')?;
    Ok(text)
}

/// Adds the place of a fault, where it has one.
fn push_place(text: &mut Vec<u8>, place: Option<u64>) -> Result<(), NoMemory>
    ensures { OnOk result (text.new.items ≡ text.old.items ++ place_text place) }
{
    let Some(place) = place else {
        return Ok(());
    };
    let mut buffer = Buffer::new();
    text.extend_from_slice(b" at ")?;
    text.extend_from_slice(buffer.format(place).as_bytes())?;
    Ok(())
}

/// The line of a proof that was not judged.
fn proof_complaint(stop: ProofStop) -> &'static [u8]
    ensures { result.now ≡ proof_complaint stop }
{
    match stop {
        ProofStop::ReadFault => b"dp2ll: cannot read proof\n".as_slice(),
        ProofStop::NoMemory => OUT_OF_MEMORY.as_slice(),
    }
}

/// The line of a log or an answer that was not written whole.
fn write_complaint(stop: WriteStop) -> &'static [u8]
    ensures { result.now ≡ write_complaint stop }
{
    match stop {
        WriteStop::LogFault => b"dp2ll: cannot write log\n".as_slice(),
        WriteStop::AnswerFault => b"dp2ll: cannot write answer\n".as_slice(),
        WriteStop::NoMemory => OUT_OF_MEMORY.as_slice(),
    }
}

/// The line that names a fault of the formula and its line.
fn fault_text(alloc: Global, fault: CnfFault) -> Result<Vec<u8>, NoMemory>
    ensures { IfOk result (λ text. text.items ≡ read_complaint (NoFormula fault)) }
{
    let mut line = Buffer::new();
    let mut text = Vec::from_slice(alloc, b"dp2ll: formula line ")?;
    text.extend_from_slice(line.format(fault.line()).as_bytes())?;
    text.extend_from_slice(b": ")?;
    text.extend_from_slice(fault.name())?;
    text.push(b'\n')?;
    Ok(text)
}
