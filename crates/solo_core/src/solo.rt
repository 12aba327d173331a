ghost use Rattle.std.specs.Prelude.{◌≡◌, ◌≤◌, ◌<◌, ◌+◌, ◌^◌, true, false, Some, None, IsSome, IsErr, IfOk, OnOk, OnErr};
ghost use Rattle.lit_base.specs.Held.{volume_of};
ghost use Rattle.solo_core.specs.Stretch.{stretch};
ghost use Rattle.solo_core.specs.Sheet.{mail_after, sheet_at};
ghost use Rattle.solo_core.specs.Period.{AreMails};
ghost use Rattle.solo_core.specs.First.{AreInRange, first_core};
ghost use Rattle.solo_core.specs.Calls.{after_stretch, after_sheet, after_import, HasNoAnswer};

use crate::first::first_search;
use crate::handing::{mail_of, model_of};
use crate::search::Search;
use crate::sheet::{End, Mail, Settings, Sheet};
use lit_base::{Formula, NoMemory};
use std::alloc::Global;
use std::marker::Model;

/// One core: a search with clause learning, one stretch a period.
///
/// After a refusal of memory the core is broken: each later call that takes memory answers `NoMemory`.
#[derive(Drop)]
pub struct Core {
    /// What the core searches with; of a broken core nothing is known of it.
    search: Search,
    /// How the stretch of this period ended, if it was made.
    ended: Option<End>,
    /// Whether the sheet of this period was given.
    is_handed: bool,
    /// Whether memory was refused.
    is_broken: bool,
}

impl Model for Core {
    ghost use Rattle.std.specs.Prelude.{◌≡◌, false};
    ghost use Rattle.solo_core.specs.State.{CoreValue};
    ghost use Rattle.solo_core.specs.Calls.{IsKept};

    ghost Value = { CoreValue };

    ghost view = { λ c. record {
      frame = c.search.frame;
      state = c.search.state;
      ended = c.ended;
      is_handed = c.is_handed;
      is_broken = c.is_broken;
    } };

    ghost invariant = { λ c. c.is_broken ≡ false → IsKept c.search c.ended };
}

impl Core {
    /// The core of this number at the start of period 1, over the clauses of the formula.
    ///
    /// Each setting is in its range, and the number is below `cores`.
    pub fn make(
        alloc: Global,
        formula: &Formula,
        settings: &Settings,
        core: u32,
    ) -> Result<Core, NoMemory>
        requires settings { AreInRange settings.now }
        requires core { core < settings.now.cores }
        ensures { IfOk result (λ made. made ≡ first_core formula.now settings.now core) }
    {
        let search = first_search(alloc, formula, settings, core)?;
        Ok(Core {
            search,
            ended: None,
            is_handed: false,
            is_broken: false,
        })
    }

    /// The stretch of this period: at most `quota` conflicts. After `NoMemory` the core is broken.
    pub fn stretch(&mut self, quota: u32) -> Result<End, NoMemory>
        requires some { 1 ≤ quota }
        requires open { self.old.is_broken ≡ false → self.old.ended ≡ None }
        ensures state { OnOk result (self.new ≡ after_stretch quota self.old) }
        ensures ended { IfOk result (λ end. end ≡ (stretch self.old.frame quota self.old.state).ended) }
        ensures breaks { OnErr result (self.new.is_broken ≡ true) }
        ensures broken { self.old.is_broken ≡ true → IsErr result }
    {
        if self.is_broken {
            return Err(NoMemory);
        }
        // Broken until the search is done: where memory is refused it stops in the middle of a turn, and every early
        // return leaves the core so.
        self.is_broken = true;
        let end = self.search.stretch(quota)?;
        self.ended = Some(end);
        self.is_broken = false;
        Ok(end)
    }

    /// The period that the core is in, from 1.
    pub fn period(&self) -> u32
        ensures { result ≡ self.now.state.period }
    {
        self.search.period
    }

    /// The conflicts of the core in all periods so far.
    pub fn conflicts(&self) -> u32
        ensures { result ≡ self.now.state.conflicts }
    {
        self.search.conflicts
    }

    /// The number of held clauses that are no originals.
    pub fn volume(&self) -> u64
        ensures { result ≡ volume_of self.now.state.clauses }
    {
        self.search.pool.volume()
    }

    /// The mail of the period whose stretch was made, before its sheet is asked for.
    ///
    /// It posts the lemmas of the period with at least one literal and at most as many as the core's share limit, in the
    /// order of their indexes.
    pub fn post(&self) -> Result<Mail, NoMemory>
        requires ended { self.now.is_broken ≡ false → IsSome self.now.ended }
        requires once { self.now.is_broken ≡ false → self.now.is_handed ≡ false }
        ensures mail { IfOk result (λ mail. Some mail ≡ mail_after self.now.frame self.now.state self.now.ended) }
        ensures broken { self.now.is_broken ≡ true → IsErr result }
    {
        if self.is_broken {
            return Err(NoMemory);
        }
        mail_of(&self.search, self.ended.unwrap())
    }

    /// What the core leaves of the period whose stretch was made. The lemmas are moved out. After
    /// `NoMemory` the core is broken.
    pub fn sheet(&mut self) -> Result<Sheet, NoMemory>
        requires ended { self.old.is_broken ≡ false → IsSome self.old.ended }
        requires once { self.old.is_broken ≡ false → self.old.is_handed ≡ false }
        ensures sheet { IfOk result (λ sheet. Some sheet ≡ sheet_at self.old.frame self.old.state self.old.ended) }
        ensures state { OnOk result (self.new ≡ after_sheet self.old) }
        ensures breaks { OnErr result (self.new.is_broken ≡ true) }
        ensures broken { self.old.is_broken ≡ true → IsErr result }
    {
        if self.is_broken {
            return Err(NoMemory);
        }
        self.is_broken = true;
        let end = self.ended.unwrap();
        let model = model_of(&self.search, end)?;
        let mail = mail_of(&self.search, end)?;
        let lemmas = self.search.take_lemmas();
        self.is_handed = true;
        self.is_broken = false;
        Ok(Sheet {
            mail,
            lemmas,
            model,
        })
    }

    /// Goes to the next period: the clauses that these mails post are held, in the order of their names and without uses.
    ///
    /// The mails are of other cores, by rising cores, and post lemmas of this period; the core has no answer, and its period
    /// is below 2^32 - 1. After `NoMemory` the core is broken.
    pub fn import(&mut self, mails: &[Mail]) -> Result<(), NoMemory>
        requires goes_on { self.old.is_broken ≡ false → HasNoAnswer self.old.ended }
        requires mails { self.old.is_broken ≡ false → AreMails self.old.frame.variables self.old.state.period self.old.frame.core 0 mails.now }
        requires period { self.old.is_broken ≡ false → self.old.state.period + 1 < 2 ^ 32 }
        ensures state { OnOk result (self.new ≡ after_import mails.now self.old) }
        ensures breaks { OnErr result (self.new.is_broken ≡ true) }
        ensures broken { self.old.is_broken ≡ true → IsErr result }
    {
        if self.is_broken {
            return Err(NoMemory);
        }
        self.is_broken = true;
        self.search.import(mails)?;
        self.ended = None;
        self.is_handed = false;
        self.is_broken = false;
        Ok(())
    }
}
