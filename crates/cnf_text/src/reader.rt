ghost use Rattle.std.specs.Prelude.{◌≡◌, ◌≤◌, ◌+◌, ◌<◌, ◌-◌, ◌^◌, ℕ, [], ◌++◌, List, length, Err, IfSome, IfOk};
ghost use Rattle.lit_base.specs.Cnf.{IsFormula};
ghost use Rattle.cnf_text.specs.Faults.{Gives};
ghost use Rattle.cnf_text.specs.Machine.{ReadsOn, ends_at};
ghost use Rattle.cnf_text.specs.Reading.{is_ended};
ghost use Rattle.cnf_text.specs.Reader.{HasRead, Feeds, Ends};

use crate::fault::{CnfFault, Which};
use crate::scan::Scan;
use lit_base::Formula;
use std::alloc::Global;
use std::marker::Model;

/// The most bytes of a text.
const MOST_BYTES: usize = 268_435_456;

/// Reads a formula from the pieces of its text, however they are cut.
///
/// It keeps no bytes but those of a token that a piece cuts. After a fault every later call answers the same fault.
#[derive(Debug, Drop)]
pub struct Reader {
    scan: Scan,
    read: usize,
    fault: Option<CnfFault>,
}

impl Model for Reader {
    ghost use Rattle.std.specs.Prelude.{◌≤◌, ◌+◌};
    ghost use Rattle.cnf_text.specs.State.{ReaderState};

    ghost Value = { ReaderState };

    ghost view = { λ r. record { scan = r.scan; read = r.read; fault = r.fault } };

    ghost invariant = { λ r. (r.read ≤ 268435456) × (r.scan.line ≤ r.read + 1) };
}

impl Reader {
    /// A reader that has read nothing; takes no memory.
    pub fn new(alloc: Global) -> Reader
        ensures { HasRead result [] }
    {
        Reader {
            scan: Scan::new(alloc),
            read: 0,
            fault: None,
        }
    }

    /// Reads on with a piece of the text, up to the line that ends the input, if it is met.
    ///
    /// It answers a fault where one stands in the bytes so far, whatever follows, and `NoMemory` only for want of memory.
    pub fn feed(&mut self, piece: &[u8]) -> Result<(), CnfFault>
        ensures feeds { (bytes : List ℕ) → HasRead self.old bytes → Feeds self.new (bytes ++ piece.now) result }
        ensures again { IfSome self.old.fault (λ fault. (result ≡ Err fault) × (self.new ≡ self.old)) }
    {
        if let Some(fault) = self.fault {
            return Err(fault);
        }
        match read_on(&mut self.scan, &mut self.read, piece) {
            Ok(()) => Ok(()),
            Err(fault) => {
                self.fault = Some(fault);
                Err(fault)
            }
        }
    }

    /// Whether the line that ends the input was met: later pieces are ignored.
    pub fn done(&self) -> bool
        ensures { (bytes : List ℕ) → HasRead self.now bytes → result ≡ is_ended bytes }
    {
        self.scan.is_ended()
    }

    /// The formula of the whole text.
    ///
    /// It answers a fault where the text is no formula, and `NoMemory` only for want of memory.
    pub fn end(self) -> Result<Formula, CnfFault>
        ensures ends { (bytes : List ℕ) → HasRead self bytes → Ends bytes result }
        ensures again { IfSome self.fault (λ fault. result ≡ Err fault) }
        ensures formula { IfOk result IsFormula }
    {
        match self.fault {
            Some(fault) => Err(fault),
            None => end_scan(self.scan),
        }
    }
}

/// Scans as much of the piece as there is room for.
fn read_on(scan: &mut Scan, read: &mut usize, piece: &[u8]) -> Result<(), CnfFault>
    requires few { read.old ≤ 268435456 }
    requires lines { scan.old.line ≤ read.old + 1 }
    ensures judged { ReadsOn scan.old read.old piece.now scan.new read.new result }
    ensures few { read.new ≤ 268435456 }
    ensures lines { scan.new.line ≤ read.new + 1 }
{
    let room = (MOST_BYTES - *read).min(piece.len());
    let outcome = scan.run(&piece[..room]);
    *read += room;
    outcome?;
    if room < piece.len() && !scan.is_ended() {
        return Err(CnfFault::OverLimit(Which::Bytes, scan.line));
    }
    Ok(())
}

/// The formula of a text that ends here: its last line may have no LF.
fn end_scan(mut scan: Scan) -> Result<Formula, CnfFault>
    requires { scan.line < 2 ^ 63 - 1 }
    ensures value { Gives result (ends_at scan) }
    ensures formula { IfOk result IsFormula }
{
    let line = scan.line;
    scan.run(b"\n")?;
    scan.progress.finish(line)
}
