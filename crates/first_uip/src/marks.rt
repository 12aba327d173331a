ghost use Rattle.std.specs.Prelude.{◌≡◌, ◌+◌, ◌==◌, ◌≤◌, ◌<◌, ◌&&◌, ◌||◌, ℕ, List, ◌∷◌, ◌++◌, true, false, length, map, nat_lt, replicate, vec_len, vec_capacity, if◌then◌else◌, IfOk};
ghost use Rattle.std.specs.List.{All};
ghost use Rattle.lit_base.specs.Trail.{level_of};
ghost use Rattle.lit_base.specs.Fits.{HasDistinctVariables};
ghost use Rattle.lit_base.specs.declared.trail.Entry.{Entry};
ghost use Rattle.trail_book.specs.TrailState.{IsTrail};
ghost use Rattle.lit_base.specs.Named.{lits_at};
ghost use Rattle.lit_base.specs.Held.{clauses_of};
ghost use Rattle.lit_base.specs.Analysis.{is_marked};
ghost use Rattle.first_uip.specs.Places.{before};
ghost use Rattle.first_uip.specs.Reasons.{IsReasonBelow, resolved_variables};

use crate::reads::lits_of;
use clause_pool::Pool;
use lit_base::{Entry, Lit, NoMemory};
use std::alloc::Global;
use trail_book::Trail;

/// Which variables are marked, and how many marked entries of the current level are still to be met.
///
/// `flags` is by variable, and `marked` lists the variables whose flags are set, each once and in the order in which
/// they were marked: no others are looked at once the current level is done, and no others are cleared (as in MiniSat:
/// Eén and Sörensson 2003). `left` counts the marked entries of the current level that are still to be met.
#[derive(Debug, Drop)]
pub(crate) struct Marks {
    pub(crate) flags: Vec<bool>,
    pub(crate) marked: Vec<u32>,
    pub(crate) left: u32,
}

impl Marks {
    ghost use Rattle.first_uip.specs.Marks.{is_flagged, AreFlagsOf, AreClear, IsCounted, GoesOn, this_level, one_if};

    /// No variable is marked, of so many.
    pub(crate) fn new(alloc: Global, variables: u32) -> Result<Marks, NoMemory>
        ensures { IfOk result (λ marks. AreClear (variables + 1) marks) }
    {
        let count = variables as usize + 1;
        Ok(Marks {
            flags: no_flags(alloc, count)?,
            marked: Vec::with_capacity(alloc, count)?,
            left: 0,
        })
    }

    /// Whether a variable is marked.
    pub(crate) fn is_marked(&self, var: u32) -> bool
        requires { var < vec_len self.now.flags }
        ensures { result ≡ is_flagged self.now.flags.items var }
    {
        self.flags[var as usize]
    }

    /// Whether a marked entry that was met is resolved: at level 0, and at the current level while another of that
    /// level is left.
    pub(crate) fn is_resolved(&self, level: u32, entry: &Entry) -> bool
        ensures { result ≡ ((entry.now.level == 0) || ((entry.now.level == level) && nat_lt 0 self.now.left)) }
    {
        entry.level == 0 || (entry.level == level && self.left > 0)
    }

    /// Takes a marked entry that is met out of the count.
    pub(crate) fn meet(&mut self, level: u32, entry: &Entry)
        requires marked { is_flagged self.old.flags.items entry.now.lit.variable ≡ true }
        requires counted { (older : List Entry) × IsCounted level (entry.now ∷ older) self.old }
        ensures flags { self.new.flags ≡ self.old.flags }
        ensures counted { (older : List Entry) → IsCounted level (entry.now ∷ older) self.old → IsCounted level older self.new }
    {
        if entry.level == level {
            self.left -= 1;
        }
    }

    /// Counts a variable that is newly marked, by the level of its entry, if that is still to be met.
    fn count(&mut self, level: u32, found: Option<u32>)
        requires { self.old.left ≤ 1000000 }
        ensures flags { self.new.flags ≡ self.old.flags }
        ensures marked { self.new.marked ≡ self.old.marked }
        ensures left { self.new.left ≡ self.old.left + one_if (this_level level) found }
    {
        let Some(found) = found else {
            return;
        };
        if found == level {
            self.left += 1;
        }
    }

    /// Marks a variable, and counts its entry if that stands before the place.
    fn mark(&mut self, trail: &Trail, level: u32, place: usize, var: u32)
        requires trail { IsTrail trail.now }
        requires within { var < vec_len self.old.flags }
        requires counted { IsCounted level (before place trail.now.entries) self.old }
        ensures room { vec_len self.new.flags ≡ vec_len self.old.flags }
        ensures flags { (v : ℕ) → is_flagged self.new.flags.items v ≡ ((var == v) || is_flagged self.old.flags.items v) }
        ensures kept { GoesOn self.old.marked.items self.new.marked.items }
        ensures counted { IsCounted level (before place trail.now.entries) self.new }
    {
        if self.flags[var as usize] {
            return;
        }
        self.flags[var as usize] = true;
        self.marked.push_reserved(var);
        self.count(level, level_before(trail, place, var));
    }

    /// Marks the variables of the literals.
    pub(crate) fn mark_all(&mut self, trail: &Trail, level: u32, place: usize, lits: &[Lit])
        requires trail { IsTrail trail.now }
        requires within { All (λ l. l.variable < vec_len self.old.flags) lits.now }
        requires counted { IsCounted level (before place trail.now.entries) self.old }
        ensures room { vec_len self.new.flags ≡ vec_len self.old.flags }
        ensures marks { (marked : List ℕ) → AreFlagsOf marked self.old.flags.items →
            AreFlagsOf (map (λ l. l.variable) lits.now ++ marked) self.new.flags.items }
        ensures kept { GoesOn self.old.marked.items self.new.marked.items }
        ensures counted { IsCounted level (before place trail.now.entries) self.new }
    {
        for lit in lits {
            self.mark(trail, level, place, lit.var());
        }
    }

    /// Marks the variables of the reason of an entry that is resolved.
    pub(crate) fn mark_reason(
        &mut self,
        pool: &Pool,
        trail: &Trail,
        level: u32,
        place: usize,
        entry: &Entry,
        resolved: bool,
    )
        requires trail { IsTrail trail.now }
        requires held { IsReasonBelow (vec_len self.old.flags) (lits_at (clauses_of pool.now.held)) entry.now.reason }
        requires counted { IsCounted level (before place trail.now.entries) self.old }
        ensures room { vec_len self.new.flags ≡ vec_len self.old.flags }
        ensures flags { (v : ℕ) → is_flagged self.new.flags.items v ≡
            (is_marked (resolved_variables (lits_at (clauses_of pool.now.held)) resolved entry.now.reason) v || is_flagged self.old.flags.items v) }
        ensures kept { GoesOn self.old.marked.items self.new.marked.items }
        ensures counted { IsCounted level (before place trail.now.entries) self.new }
    {
        if !resolved {
            return;
        }
        if let Some(name) = entry.reason {
            self.mark_all(trail, level, place, lits_of(pool, name));
        }
    }

    /// Clears what is marked.
    pub(crate) fn clear(&mut self)
        requires { (level : ℕ) × (rest : List Entry) × IsCounted level rest self.old }
        ensures { AreClear (vec_len self.old.flags) self.new }
    {
        self.clear_flags();
        self.marked.clear();
        self.left = 0;
    }

    /// Clears the flags of the marked variables, and so all flags.
    fn clear_flags(&mut self)
        requires { AreFlagsOf self.old.marked.items self.old.flags.items }
        ensures clear { (v : ℕ) → is_flagged self.new.flags.items v ≡ false }
        ensures len { vec_len self.new.flags ≡ vec_len self.old.flags }
        ensures marked { self.new.marked ≡ self.old.marked }
    {
        for index in 0..self.marked.len() {
            let var = self.marked[index];
            self.flags[var as usize] = false;
        }
    }
}

/// A flag for each of so many variables, none of them set.
fn no_flags(alloc: Global, count: usize) -> Result<Vec<bool>, NoMemory>
    ensures items { IfOk result (λ flags. flags.items ≡ replicate count false) }
    ensures len { IfOk result (λ flags. vec_len flags ≡ count) }
{
    Ok(vec![in alloc; false; count]?)
}

/// The level of a variable whose entry stands before the place.
fn level_before(trail: &Trail, place: usize, var: u32) -> Option<u32>
    requires { HasDistinctVariables trail.now.entries }
    ensures { result ≡ level_of (before place trail.now.entries) var }
{
    if trail.place(var)? < place {
        return trail.level_of(var);
    }
    None
}
