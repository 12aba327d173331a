//! The log of a period is written while the cores are in the next one.

use super::workers::TOLD;
use super::{Left, NONE, SQUARE, desk_of};
use crate::run::run;
use desk_io::{Gate, MemoryOutputs, Outputs, Port, PortFault};
use std::hint::spin_loop;
use std::sync::atomic::{AtomicBool, Ordering};
use std::test::Fail;

/// How many turns one waits for another before it gives up.
const TURNS: u32 = 100_000_000;

/// Where a core in period 2 and the first write on the log port wait for each other. Each gives up at last, and notes that.
#[derive(Drop)]
struct Meeting {
    was_asked: AtomicBool,
    has_come: AtomicBool,
    core_gave_up: AtomicBool,
    write_gave_up: AtomicBool,
}

/// Waits until a flag is set, and sets the other one where it gives up.
fn wait_for(flag: &AtomicBool, gave_up: &AtomicBool) {
    for _ in 0..TURNS {
        if flag.load(Ordering::SeqCst) {
            return;
        }
        spin_loop();
    }
    gave_up.store(true, Ordering::SeqCst);
}

/// Holds core 0 in period 2 until a write on the log port was asked for.
impl Gate for Meeting {
    fn pass(&self, core: u32, period: u32) {
        if period != 2 {
            return;
        }
        self.has_come.store(true, Ordering::SeqCst);
        if core == 0 {
            wait_for(&self.was_asked, &self.core_gave_up);
        }
    }
}

/// Ports in memory, whose first write on the log port waits until a core has come to the gate in period 2.
#[derive(Drop)]
struct WaitingOutputs<'a> {
    kept: MemoryOutputs,
    meeting: &'a Meeting,
}

impl Outputs for WaitingOutputs<'_> {
    ghost told = { λ s. ⟦<MemoryOutputs as Outputs>⟧.told s.kept };

    fn create(&mut self, port: Port, name: &str) -> Result<(), PortFault> {
        self.kept.create(port, name)
    }

    fn write(&mut self, port: Port, piece: &[u8]) -> Result<usize, PortFault> {
        if port == Port::Log {
            self.meeting.was_asked.store(true, Ordering::SeqCst);
            wait_for(&self.meeting.has_come, &self.meeting.write_gave_up);
        }
        self.kept.write(port, piece)
    }
}

/// With two workers, core 0 in period 2 waits for the first write of the log, and that waits for a core in period 2. Neither
/// waits in vain, and the bytes are those of every other run. If all cores were joined before a part is written, the write
/// would give up; if the log were written at the end, the core would.
#[test]
fn a_part_is_written_while_cores_search(rt: HostRuntime) -> Result<(), Fail> {
    let alloc = rt.alloc();
    let row = &TOLD[0];
    let mut words = Vec::new(alloc);
    words.extend_from_slice(row.words)?;
    words.extend_from_slice(&["--workers", "2"])?;
    let mut desk = desk_of(alloc, words.as_slice(), &[("f", SQUARE)], 4096, NONE)?;
    let meeting = Meeting {
        was_asked: AtomicBool::new(false),
        has_come: AtomicBool::new(false),
        core_gave_up: AtomicBool::new(false),
        write_gave_up: AtomicBool::new(false),
    };
    let mut outputs = WaitingOutputs {
        kept: desk.outputs,
        meeting: &meeting,
    };
    let status = run(
        &rt,
        alloc,
        desk.words.as_slice(),
        &mut desk.inputs,
        &mut outputs,
        &meeting,
    );
    let left = Left {
        status,
        reads: desk.inputs.reads,
        outputs: outputs.kept,
    };
    left.is(&rt, &row.wanted(), "two workers that wait", 4096);
    assert!(rt; !meeting.core_gave_up.load(Ordering::SeqCst));
    assert!(rt; !meeting.write_gave_up.load(Ordering::SeqCst));
    Ok(())
}
