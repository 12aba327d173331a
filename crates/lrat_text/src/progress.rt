ghost use Rattle.std.specs.Prelude.{◌≡◌, ◌≤◌, ◌<◌, IfOk};
ghost use Rattle.lrat_text.specs.Faults.{Judges};
ghost use Rattle.lrat_text.specs.Judge.{nothing, judge_id, judge_literals_end, judge_literal, judge_listed, judge_hint, judge_deleted, judge_first, judge_number, judge_deletion, judge_class};
ghost use Rattle.lrat_text.specs.Machine.{step_at};

use crate::fault::LineFault;
use crate::stage::Stage;
use crate::token::Token;
use lit_base::{LineStep, List, Lit, MOST_VARIABLES, NoMemory};
use std::alloc::Global;

/// The first number above those that a clause may have.
const ABOVE_IDS: u64 = 9_223_372_036_854_775_808;

/// What was taken of the tokens of a line so far, in buffers that every line uses again.
///
/// Each call judges what it is given, and after a fault nothing is said of it.
#[derive(Debug, Drop)]
pub(crate) struct Progress {
    pub stage: Stage,
    pub id: u64,
    pub lits: List<Lit>,
    /// The hints of an addition, or the ids of a deletion.
    pub ids: List<u64>,
}

impl Progress {
    /// Nothing was taken yet; takes no memory.
    pub(crate) fn new(alloc: Global) -> Progress
        ensures { result ≡ nothing }
    {
        Progress {
            stage: Stage::Start,
            id: 0,
            lits: List::new(alloc),
            ids: List::new(alloc),
        }
    }

    /// Begins another line, and keeps the buffers.
    pub(crate) fn clear(&mut self)
        ensures { self.new ≡ nothing }
    {
        self.stage = Stage::Start;
        self.id = 0;
        self.lits.clear();
        self.ids.clear();
    }

    /// Takes a whole token; an empty one means nothing.
    pub(crate) fn take(&mut self, token: Token, line: u64) -> Result<(), LineFault>
        ensures { Judges result self.new (judge_class token self.old line) }
    {
        match token {
            Token::Empty => Ok(()),
            Token::Deletion => self.take_deletion(line),
            Token::Minus => Err(LineFault::BadToken(line)),
            Token::Number { positive, value } => self.take_number(positive, value, line),
            Token::Other => Err(LineFault::BadToken(line)),
        }
    }

    /// Takes a `d`.
    fn take_deletion(&mut self, line: u64) -> Result<(), LineFault>
        ensures { Judges result self.new (judge_deletion self.old.stage self.old line) }
    {
        match self.stage {
            Stage::AfterId => {
                self.stage = Stage::Ids;
                Ok(())
            }
            _ => Err(LineFault::BadToken(line)),
        }
    }

    /// Takes a number.
    #[inline(always)]
    pub(crate) fn take_number(
        &mut self,
        positive: bool,
        value: u64,
        line: u64,
    ) -> Result<(), LineFault>
        ensures { Judges result self.new (judge_number self.old.stage self.old positive value line) }
    {
        match self.stage {
            Stage::Start => self.take_first(positive, value, line),
            Stage::AfterId => self.take_literal(positive, value, line),
            Stage::Literals => self.take_literal(positive, value, line),
            Stage::Hints => self.take_hint(positive, value, line),
            Stage::Ids => self.take_deleted(positive, value, line),
            Stage::Added => Err(LineFault::BadToken(line)),
            Stage::Deleted => Err(LineFault::BadToken(line)),
        }
    }

    fn take_first(&mut self, positive: bool, value: u64, line: u64) -> Result<(), LineFault>
        ensures { Judges result self.new (judge_first self.old positive value line) }
    {
        if !positive {
            return Err(LineFault::BadToken(line));
        }
        self.take_id(value, line)
    }

    /// Takes the line's own id.
    fn take_id(&mut self, value: u64, line: u64) -> Result<(), LineFault>
        ensures { Judges result self.new (judge_id self.old value line) }
    {
        if value == 0 || value >= ABOVE_IDS {
            return Err(LineFault::BadToken(line));
        }
        self.stage = Stage::AfterId;
        self.id = value;
        Ok(())
    }

    fn take_literal(&mut self, positive: bool, value: u64, line: u64) -> Result<(), LineFault>
        ensures { Judges result self.new (judge_literal self.old positive value line) }
    {
        if value == 0 {
            return self.take_literals_end(positive, line);
        }
        if value > MOST_VARIABLES as u64 {
            return Err(LineFault::BadToken(line));
        }
        self.lits.push(Lit::of(value as u32, positive))?;
        self.stage = Stage::Literals;
        Ok(())
    }

    fn take_literals_end(&mut self, positive: bool, line: u64) -> Result<(), LineFault>
        ensures { Judges result self.new (judge_literals_end self.old positive line) }
    {
        if !positive {
            return Err(LineFault::BadToken(line));
        }
        self.stage = Stage::Hints;
        Ok(())
    }

    fn take_hint(&mut self, positive: bool, value: u64, line: u64) -> Result<(), LineFault>
        ensures { Judges result self.new (judge_hint self.old positive value line) }
    {
        if positive {
            return self.take_listed(Stage::Added, value, line);
        }
        if value == 0 {
            return Err(LineFault::BadToken(line));
        }
        Err(LineFault::RatHint(line))
    }

    fn take_deleted(&mut self, positive: bool, value: u64, line: u64) -> Result<(), LineFault>
        ensures { Judges result self.new (judge_deleted self.old positive value line) }
    {
        if !positive {
            return Err(LineFault::BadToken(line));
        }
        self.take_listed(Stage::Deleted, value, line)
    }

    /// Takes the id of a clause, or the last `0`, which leads to the stage `last`.
    #[inline(always)]
    fn take_listed(&mut self, last: Stage, value: u64, line: u64) -> Result<(), LineFault>
        ensures { Judges result self.new (judge_listed self.old last value line) }
    {
        if value == 0 {
            self.stage = last;
            return Ok(());
        }
        if value >= ABOVE_IDS {
            return Err(LineFault::BadToken(line));
        }
        self.ids.push(value)?;
        Ok(())
    }

    /// The step that the tokens of a closed line say, in lists of their own.
    pub(crate) fn step(&self, alloc: Global) -> Result<LineStep, NoMemory>
        ensures { IfOk result (λ step. step ≡ step_at self.now.stage self.now) }
    {
        match self.stage {
            Stage::Added => Ok(LineStep::Add {
                id: self.id,
                lits: List::of(alloc, self.lits.as_slice())?,
                hints: List::of(alloc, self.ids.as_slice())?,
            }),
            _ => Ok(LineStep::Delete {
                id: self.id,
                ids: List::of(alloc, self.ids.as_slice())?,
            }),
        }
    }
}
