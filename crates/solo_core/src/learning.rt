//! What a conflict teaches: its lemma is recorded, and above level 0 it is held and attached after the jump back, before
//! activities change and the core may restart.
ghost use Rattle.std.specs.Prelude.{◌≡◌, ◌<◌, ◌≤◌, ◌^◌, IfOk, OnOk, IsSome, List, None, length};
ghost use Rattle.std.specs.List.{AllByRecursion, IsDistinct};
ghost use Rattle.lit_base.specs.Trail.{level_now};
ghost use Rattle.lit_base.specs.Named.{lits_at, same_name};
ghost use Rattle.lit_base.specs.Held.{HeldClause, clauses_of, with_clause, with_uses};
ghost use Rattle.lit_base.specs.Fits.{IsConflict};
ghost use Rattle.lit_base.specs.Analysis.{lesson_of};
ghost use Rattle.solo_core.specs.State.{lemma_name};
ghost use Rattle.solo_core.specs.Turn.{look_of, taught, refuted, jumped_back, learnt, with_lemma};
ghost use Rattle.solo_core.specs.Searching.{IsJoined, IsReady, IsSearchAt, IsLesson};

use crate::holding::hold_lemma;
use crate::jump::jump_back;
use crate::lemma::Lemma;
use crate::search::Search;
use crate::turn::TurnEnd;
use lit_base::{Lesson, List, Name, NoMemory};

impl Search {
    /// Learns from a conflict of propagation: at level 0 it refutes, and above the core jumps back.
    ///
    /// After `NoMemory` the search may be in any state.
    pub(crate) fn teach(&mut self, conflict: Name) -> Result<TurnEnd, NoMemory>
        requires ready { IsReady self.old }
        requires conflict { IsConflict (look_of self.old.state) self.old.state.trail conflict }
        ensures state { OnOk result (IsSearchAt self.old.frame (taught self.old.frame self.old.state (lesson_of (look_of self.old.state) self.old.state.trail conflict)).state self.new) }
        ensures end { IfOk result (λ end. end ≡ (taught self.old.frame self.old.state (lesson_of (look_of self.old.state) self.old.state.trail conflict)).came_to) }
        ensures joined { OnOk result (IsJoined self.new) }
    {
        let lesson = self.analyser.analyse(&self.pool, &self.trail, conflict)?;
        if self.trail.level() == 0 {
            self.refute(lesson)?;
            Ok(TurnEnd::Refuted)
        } else {
            self.learn(lesson)?;
            Ok(TurnEnd::Learnt)
        }
    }

    /// Records the lemma of a conflict at level 0, which isn't held.
    fn refute(&mut self, lesson: Lesson) -> Result<(), NoMemory>
        requires joined { IsJoined self.old }
        requires left { self.old.state.conflicts < self.old.frame.limit }
        ensures state { OnOk result (IsSearchAt self.old.frame (refuted self.old.frame lesson self.old.state) self.new) }
        ensures joined { OnOk result (IsJoined self.new) }
    {
        let lemma = Lemma {
            name: self.next_name(),
            lits: lesson.lits,
            hints: lesson.hints,
        };
        self.record_lemma(lemma)
    }

    /// Learns the lemma of a conflict above level 0, raises the activities of the variables that it touched, and restarts
    /// if that is due.
    fn learn(&mut self, lesson: Lesson) -> Result<(), NoMemory>
        requires ready { IsReady self.old }
        requires lesson { IsLesson self.old.state lesson }
        requires above { 0 < level_now self.old.state.trail }
        ensures state { OnOk result (IsSearchAt self.old.frame (learnt self.old.frame lesson self.old.state) self.new) }
        ensures joined { OnOk result (IsJoined self.new) }
    {
        let touched = self.keep(lesson)?;
        self.weigh(touched.as_slice());
        self.pace()
    }

    /// Jumps back, and holds, attaches and records the lemma of a conflict above level 0. Gives the touched variables.
    fn keep(&mut self, lesson: Lesson) -> Result<List<u32>, NoMemory>
        requires ready { IsReady self.old }
        requires lesson { IsLesson self.old.state lesson }
        requires above { 0 < level_now self.old.state.trail }
        ensures state { OnOk result (IsSearchAt self.old.frame (jumped_back self.old.frame lesson self.old.state) self.new) }
        ensures touched { IfOk result (λ touched. touched ≡ lesson.touched) }
        ensures joined { OnOk result (IsJoined self.new) }
    {
        let lemma = Lemma {
            name: self.next_name(),
            lits: lesson.lits,
            hints: lesson.hints,
        };
        jump_back(
            &mut self.trail,
            &mut self.rounds,
            &mut self.order,
            lesson.back,
        );
        hold_lemma(&mut self.pool, &mut self.rounds, &self.trail, &lemma)?;
        self.record_lemma(lemma)?;
        Ok(lesson.touched)
    }

    /// The name of the next lemma of the period. Conflicts are counted by 32 bits, and lemmas are no more than these.
    fn next_name(&self) -> Name
        requires { IsJoined self.now }
        ensures name { result ≡ lemma_name self.now.state.period self.now.frame.core (length self.now.state.lemmas) }
        ensures few { self.now.state.conflicts < 2 ^ 32 }
    {
        let _conflicts = self.conflicts;
        Name::lemma(self.period, self.core, self.lemmas.len() as u32)
    }

    /// Counts a conflict, whose lemma is the next of the period.
    fn record_lemma(&mut self, lemma: Lemma) -> Result<(), NoMemory>
        requires left { self.old.state.conflicts < self.old.frame.limit }
        requires in_period { self.old.state.period_conflicts ≤ self.old.state.conflicts }
        ensures { OnOk result (self.new ≡ record self.old { state = with_lemma lemma self.old.state }) }
    {
        self.lemmas.push(lemma)?;
        self.conflicts += 1;
        self.period_conflicts += 1;
        Ok(())
    }
}
