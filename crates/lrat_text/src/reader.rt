ghost use Rattle.std.specs.Prelude.{◌≡◌, ◌≤◌, ◌+◌, ◌<◌, ◌^◌, ℕ, [], ◌++◌, List, length, false, Err, IfSome, IfOk};
ghost use Rattle.lit_base.specs.declared.proof.Line.{Line};
ghost use Rattle.lrat_text.specs.Reader.{HasRead, Feeds, Ends};
ghost use Rattle.lrat_text.specs.Machine.{is_ready, PieceRead, EndRead};

use crate::fault::LineFault;
use crate::scan::Scan;
use lit_base::Line;
use std::alloc::Global;
use std::marker::Model;

/// The most bytes of a proof.
const MOST_BYTES: usize = 1_099_511_627_776;

/// Reads a proof from the pieces of its text, however they are cut, and hands out its lines one by one.
///
/// It keeps no bytes. After a fault every later call answers the same fault.
#[derive(Debug, Drop)]
pub struct LineReader {
    alloc: Global,
    scan: Scan,
    read: usize,
    fault: Option<LineFault>,
}

impl Model for LineReader {
    ghost use Rattle.lrat_text.specs.State.{ReaderState, IsSound};

    ghost Value = { ReaderState };

    ghost view = { λ r. record { scan = r.scan; read = r.read; fault = r.fault } };

    ghost invariant = { λ r. IsSound r.scan r.read };
}

impl LineReader {
    /// A reader that has read nothing; takes no memory.
    pub fn new(alloc: Global) -> LineReader
        ensures { HasRead result [] [] }
    {
        LineReader {
            alloc,
            scan: Scan::new(alloc),
            read: 0,
            fault: None,
        }
    }

    /// Reads on with a piece of the text, up to the end of the first line with a step, and answers how many bytes it took,
    /// and that line; or none, where it took the whole piece without one.
    ///
    /// It answers a fault where one stands in the bytes so far, whatever follows, and `NoMemory` only for want of memory.
    pub fn feed(&mut self, piece: &[u8]) -> Result<(usize, Option<Line>), LineFault>
        ensures feeds { (bytes : List ℕ) (lines : List Line) → HasRead self.old bytes lines → Feeds self.new bytes lines piece.now result }
        ensures within { IfOk result (λ taken. taken.0 ≤ length piece.now) }
        ensures some { 1 ≤ length piece.now → IfOk result (λ taken. 1 ≤ taken.0) }
        ensures again { IfSome self.old.fault (λ fault. (result ≡ Err fault) × (self.new ≡ self.old)) }
    {
        if let Some(fault) = self.fault {
            return Err(fault);
        }
        match read_on(self.alloc, &mut self.scan, &mut self.read, piece) {
            Ok(taken) => Ok(taken),
            Err(fault) => {
                self.fault = Some(fault);
                self.scan.begin_line();
                Err(fault)
            }
        }
    }

    /// The last line of the text, where it has a step but no LF.
    ///
    /// It answers a fault where the text is no proof, and `NoMemory` only for want of memory. After it nothing more is said
    /// of the reader, but that a fault is answered again.
    pub fn end(&mut self) -> Result<Option<Line>, LineFault>
        ensures ends { (bytes : List ℕ) (lines : List Line) → HasRead self.old bytes lines → Ends self.new bytes lines result }
        ensures again { IfSome self.old.fault (λ fault. (result ≡ Err fault) × (self.new ≡ self.old)) }
    {
        if let Some(fault) = self.fault {
            return Err(fault);
        }
        match end_scan(self.alloc, &mut self.scan) {
            Ok(line) => Ok(line),
            Err(fault) => {
                self.fault = Some(fault);
                self.scan.begin_line();
                Err(fault)
            }
        }
    }
}

/// Scans as much of the piece as there is room for, up to the first line that is ready, and takes that line.
fn read_on(
    alloc: Global,
    scan: &mut Scan,
    read: &mut usize,
    piece: &[u8],
) -> Result<(usize, Option<Line>), LineFault>
    requires few { read.old ≤ 1099511627776 }
    requires lines { scan.old.line ≤ read.old + 1 }
    requires idle { is_ready scan.old.place ≡ false }
    ensures judged { PieceRead scan.old read.old piece.now scan.new read.new result }
    ensures some { 1 ≤ length piece.now → IfOk result (λ taken. 1 ≤ taken.0) }
    ensures few { read.new ≤ 1099511627776 }
    ensures lines { scan.new.line ≤ read.new + 1 }
    ensures idle { IfOk result (λ _. is_ready scan.new.place ≡ false) }
{
    let room = (MOST_BYTES - *read).min(piece.len());
    match scan.run(&piece[..room]) {
        Ok(count) => {
            *read += count;
            let line = scan.take_line(alloc)?;
            if line.is_none() && room < piece.len() {
                return Err(LineFault::ProofTooLong(scan.line));
            }
            Ok((count, line))
        }
        Err(fault) => {
            *read += room;
            Err(fault)
        }
    }
}

/// The last line of a text that ends here: it has no LF, and is judged as if it had.
fn end_scan(alloc: Global, scan: &mut Scan) -> Result<Option<Line>, LineFault>
    requires { scan.old.line < 2 ^ 63 }
    ensures judged { EndRead scan.old result }
    ensures lines { scan.new.line ≡ scan.old.line }
    ensures idle { IfOk result (λ _. is_ready scan.new.place ≡ false) }
{
    let line = scan.line;
    let outcome = last_line(alloc, scan);
    scan.line = line;
    outcome
}

/// Reads the LF that the last line lacks, and takes the line.
fn last_line(alloc: Global, scan: &mut Scan) -> Result<Option<Line>, LineFault>
    requires { scan.old.line < 2 ^ 63 }
    ensures judged { EndRead scan.old result }
    ensures idle { IfOk result (λ _. is_ready scan.new.place ≡ false) }
{
    scan.step(b'\n')?;
    Ok(scan.take_line(alloc)?)
}
