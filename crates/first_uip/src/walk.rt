ghost use Rattle.std.specs.Prelude.{◌≡◌, ℕ, true, [], ◌∷◌, ◌+◌, ◌≤◌, ◌<◌, ◌==◌, ◌&&◌, ◌||◌, List, Option, All, length, count_by, sum_by, vec_len, vec_capacity, IfOk};
ghost use Rattle.lit_base.specs.Literal.{Literal};
ghost use Rattle.lit_base.specs.declared.trail.Entry.{Entry};
ghost use Rattle.lit_base.specs.declared.name.Name.{Name};
ghost use Rattle.lit_base.specs.Named.{lits_at};
ghost use Rattle.lit_base.specs.Held.{clauses_of};
ghost use Rattle.lit_base.specs.Trail.{level_now};
ghost use Rattle.lit_base.specs.Fits.{HasDistinctVariables, FitsClauses, IsConflict};
ghost use Rattle.lit_base.specs.Analysis.{Trace, is_marked, stay, touch, settle, trace, first_trace, lesson_from};
ghost use Rattle.first_uip.specs.Places.{before, entry_of, AreAt, ArePlacesOf};
ghost use Rattle.trail_book.specs.TrailState.{IsTrail, place_of};
ghost use Rattle.first_uip.specs.Reasons.{IsHeldBelow, IsReasonBelow, AreReasonsBelow, root_variables};

use crate::marks::Marks;
use crate::reads::lits_of;
use clause_pool::Pool;
use lit_base::{Entry, Lesson, List, Lit, Name, NoMemory};
use std::alloc::Global;
use trail_book::Trail;

/// What stands after some entries of a trail were met, from the newest on.
///
/// `marks` has the marked variables, `lits` the negations of the entries that stay, `hints` the conflict and the reasons
/// of the resolved entries in the order in which they were met, `back` the highest level but the current one among the
/// entries that stay, `touched` the variables above level 0 that were met marked, and `places` where the marked entries
/// stand that are older than those of the current level that were met.
#[derive(Debug, Drop)]
pub(crate) struct Walk {
    pub(crate) marks: Marks,
    pub(crate) lits: Vec<Lit>,
    pub(crate) hints: Vec<Name>,
    pub(crate) back: u32,
    pub(crate) touched: Vec<u32>,
    pub(crate) places: Vec<u32>,
}

impl Walk {
    ghost use Rattle.first_uip.specs.Marks.{is_flagged, flagged, AreFlagsOf, IsCounted, AreClear, GoesOn, one_if};
    ghost use Rattle.first_uip.specs.Walked.{IsGathered, Traces, IsWalked, AreFound, blank_trace, cited, first_step, settled};
    ghost use Rattle.first_uip.specs.Room.{IsIdle, HasRoom, HasSpare, Grows, IsSameRoom, IsSameGathered};

    /// Nothing marked, over so many variables, with room for what a walk over an entry of each gathers.
    pub(crate) fn new(alloc: Global, variables: u32) -> Result<Walk, NoMemory>
        ensures { IfOk result (λ walk. IsIdle variables walk) }
    {
        let count = variables as usize;
        Ok(Walk {
            marks: Marks::new(alloc, variables)?,
            lits: Vec::with_capacity(alloc, count)?,
            hints: Vec::with_capacity(alloc, count + 1)?,
            back: 0,
            touched: Vec::with_capacity(alloc, count)?,
            places: Vec::with_capacity(alloc, count + 1)?,
        })
    }

    /// Walks over a trail that fits the held clauses, from a conflict on it.
    ///
    /// Over the current level entry by entry, as far as its last marked one. Of the older entries only the marked ones
    /// are met, in the order of their places: those of level 0 are resolved and the others stay, so that no more are
    /// marked but by reasons of level 0, which are marked before the places are sorted.
    pub(crate) fn walk(&mut self, pool: &Pool, trail: &Trail, conflict: Name)
        requires idle { IsIdle (length trail.now.saved) self.old }
        requires conflict { IsConflict (lits_at (clauses_of pool.now.held)) trail.now.entries conflict }
        requires fits { FitsClauses (lits_at (clauses_of pool.now.held)) trail.now.entries }
        ensures flags { vec_len self.new.marks.flags ≡ length trail.now.saved + 1 }
        ensures counted { (level : ℕ) × (place : ℕ) × IsCounted level (before place trail.now.entries) self.new.marks }
        ensures room { HasRoom (length trail.now.saved) self.new }
        ensures gathered { IsGathered (level_now trail.now.entries) self.new (trace (lits_at (clauses_of pool.now.held))
            (level_now trail.now.entries) trail.now.entries (first_trace (lits_at (clauses_of pool.now.held)) conflict)) }
    {
        self.begin();
        let level = trail.level();
        self.cite(pool, trail, level, conflict);
        let place = self.walk_level(pool, trail, level);
        self.find_older(pool, trail, level, place);
        self.sort_places();
        self.gather_older(trail, level);
    }

    /// Empties what was gathered before.
    fn begin(&mut self)
        ensures marks { self.new.marks ≡ self.old.marks }
        ensures begins { (n level : ℕ) → AreClear n self.old.marks → Traces level self.new blank_trace }
        ensures room { IsSameRoom self.old self.new }
        ensures empty { (vec_len self.new.lits ≡ 0) × (vec_len self.new.hints ≡ 0) × (vec_len self.new.touched ≡ 0) }
        ensures places { (vec_len self.new.places ≡ 0) × (self.new.places.items ≡ []) }
    {
        self.lits.clear();
        self.hints.clear();
        self.back = 0;
        self.touched.clear();
        self.places.clear();
    }

    /// Marks the variables of the conflict, and makes it the first hint.
    fn cite(&mut self, pool: &Pool, trail: &Trail, level: u32, name: Name)
        requires held { IsHeldBelow (vec_len self.old.marks.flags) (lits_at (clauses_of pool.now.held) name) }
        requires counted { IsCounted level trail.now.entries self.old.marks }
        requires room { vec_len self.old.hints < vec_capacity self.old.hints }
        ensures flags { vec_len self.new.marks.flags ≡ vec_len self.old.marks.flags }
        ensures counted { IsCounted level trail.now.entries self.new.marks }
        ensures grows { Grows self.old self.new }
        ensures touched { self.new.touched ≡ self.old.touched }
        ensures lits { self.new.lits ≡ self.old.lits }
        ensures places { self.new.places ≡ self.old.places }
        ensures traces { (t : Trace) → Traces level self.old t →
            Traces level self.new (cited (lits_at (clauses_of pool.now.held)) name t) }
    {
        self.marks
            .mark_all(trail, level, trail.len(), lits_of(pool, name));
        self.hints.push_reserved(name);
    }

    /// Notes the variable of a marked entry above level 0.
    fn touch(&mut self, entry: &Entry)
        requires { vec_len self.old.touched < vec_capacity self.old.touched }
        ensures marks { self.new.marks ≡ self.old.marks }
        ensures places { self.new.places ≡ self.old.places }
        ensures grows { Grows self.old self.new }
        ensures lits { self.new.lits ≡ self.old.lits }
        ensures hints { self.new.hints ≡ self.old.hints }
        ensures gathered { (level : ℕ) (t : Trace) → IsGathered level self.old t → IsGathered level self.new (touch entry.now t) }
    {
        if entry.level != 0 {
            self.touched.push_reserved(entry.lit.var());
        }
    }

    /// Lets an entry stay.
    fn stay(&mut self, level: u32, entry: &Entry)
        requires { vec_len self.old.lits < vec_capacity self.old.lits }
        ensures marks { self.new.marks ≡ self.old.marks }
        ensures places { self.new.places ≡ self.old.places }
        ensures grows { Grows self.old self.new }
        ensures touched { self.new.touched ≡ self.old.touched }
        ensures gathered { (t : Trace) → IsGathered level self.old t → IsGathered level self.new (stay entry.now t) }
    {
        if entry.level != level {
            self.back = self.back.max(entry.level);
        }
        self.lits.push_reserved(entry.lit.negated());
    }

    /// Makes the reason of a resolved entry the next hint; any other entry stays.
    fn note(&mut self, level: u32, entry: &Entry, resolved: bool)
        requires hints { vec_len self.old.hints < vec_capacity self.old.hints }
        requires lits { vec_len self.old.lits < vec_capacity self.old.lits }
        ensures marks { self.new.marks ≡ self.old.marks }
        ensures places { self.new.places ≡ self.old.places }
        ensures grows { Grows self.old self.new }
        ensures touched { self.new.touched ≡ self.old.touched }
        ensures gathered { (look : Name → Option (List Literal)) (t : Trace) → IsGathered level self.old t →
            IsGathered level self.new (settle look resolved entry.now t) }
    {
        match entry.reason {
            Some(name) if resolved => self.hints.push_reserved(name),
            _ => self.stay(level, entry),
        }
    }

    /// Gathers what a marked entry gives: it is touched, and then resolved or stays.
    fn gather(&mut self, level: u32, entry: &Entry, resolved: bool)
        requires { HasSpare 1 self.old }
        ensures marks { self.new.marks ≡ self.old.marks }
        ensures places { self.new.places ≡ self.old.places }
        ensures grows { Grows self.old self.new }
        ensures gathered { (look : Name → Option (List Literal)) (t : Trace) → IsGathered level self.old t →
            IsGathered level self.new (settle look resolved entry.now (touch entry.now t)) }
    {
        self.touch(entry);
        self.note(level, entry, resolved);
    }

    /// Meets a marked entry of the current level, which stands at this place.
    fn meet(&mut self, pool: &Pool, trail: &Trail, level: u32, place: usize, entry: &Entry)
        requires trail { IsTrail trail.now }
        requires next { before (place + 1) trail.now.entries ≡ entry.now ∷ before place trail.now.entries }
        requires marked { is_flagged self.old.marks.flags.items entry.now.lit.variable ≡ true }
        requires reason { IsReasonBelow (vec_len self.old.marks.flags) (lits_at (clauses_of pool.now.held)) entry.now.reason }
        requires counted { IsCounted level (before (place + 1) trail.now.entries) self.old.marks }
        requires spare { HasSpare 1 self.old }
        ensures flags { vec_len self.new.marks.flags ≡ vec_len self.old.marks.flags }
        ensures places { self.new.places ≡ self.old.places }
        ensures counted { IsCounted level (before place trail.now.entries) self.new.marks }
        ensures grows { Grows self.old self.new }
        ensures traces { (t : Trace) → Traces level self.old t →
            Traces level self.new (first_step (lits_at (clauses_of pool.now.held)) level (before (place + 1) trail.now.entries) t) }
    {
        self.marks.meet(level, entry);
        let resolved = self.marks.is_resolved(level, entry);
        self.gather(level, entry, resolved);
        self.marks
            .mark_reason(pool, trail, level, place, entry, resolved);
    }

    /// Meets the entry at a place: it is passed over unless it is marked.
    fn step(&mut self, pool: &Pool, trail: &Trail, level: u32, place: usize)
        requires trail { IsTrail trail.now }
        requires within { place < length trail.now.entries }
        requires flags { length trail.now.saved < vec_len self.old.marks.flags }
        requires reasons { AreReasonsBelow (vec_len self.old.marks.flags) (lits_at (clauses_of pool.now.held)) trail.now.entries }
        requires counted { IsCounted level (before (place + 1) trail.now.entries) self.old.marks }
        requires spare { HasSpare 1 self.old }
        ensures flags { vec_len self.new.marks.flags ≡ vec_len self.old.marks.flags }
        ensures places { self.new.places ≡ self.old.places }
        ensures counted { IsCounted level (before place trail.now.entries) self.new.marks }
        ensures grows { Grows self.old self.new }
        ensures traces { (t : Trace) → Traces level self.old t →
            Traces level self.new (first_step (lits_at (clauses_of pool.now.held)) level (before (place + 1) trail.now.entries) t) }
    {
        let entry = trail.entry(place);
        if self.marks.is_marked(entry.lit.var()) {
            self.meet(pool, trail, level, place, &entry);
        }
    }

    /// Walks over a trail from its newest entry on, as far as marked entries of the current level are still to be met,
    /// and gives the number of older entries.
    fn walk_level(&mut self, pool: &Pool, trail: &Trail, level: u32) -> usize
        requires flags { length trail.now.saved < vec_len self.old.marks.flags }
        requires reasons { AreReasonsBelow (vec_len self.old.marks.flags) (lits_at (clauses_of pool.now.held)) trail.now.entries }
        requires counted { IsCounted level trail.now.entries self.old.marks }
        requires spare { HasSpare (length trail.now.entries) self.old }
        ensures within { result ≤ length trail.now.entries }
        ensures flags { vec_len self.new.marks.flags ≡ vec_len self.old.marks.flags }
        ensures places { self.new.places ≡ self.old.places }
        ensures counted { IsCounted level (before result trail.now.entries) self.new.marks }
        ensures none_left { self.new.marks.left ≡ 0 }
        ensures spare { HasSpare result self.new }
        ensures room { IsSameRoom self.old self.new }
        ensures walked { (t : Trace) → Traces level self.old t →
            IsWalked (lits_at (clauses_of pool.now.held)) level result trail.now.entries self.new t }
    {
        for place in (0..trail.len()).rev() {
            if self.marks.left == 0 {
                return place + 1;
            }
            self.step(pool, trail, level, place);
        }
        0
    }

    /// Notes the place of a marked variable whose entry stands before a place, and marks the variables of its reason
    /// where that entry is of level 0.
    fn find(&mut self, pool: &Pool, trail: &Trail, level: u32, place: usize, var: u32)
        requires trail { IsTrail trail.now }
        requires reasons { AreReasonsBelow (vec_len self.old.marks.flags) (lits_at (clauses_of pool.now.held)) trail.now.entries }
        requires counted { IsCounted level (before place trail.now.entries) self.old.marks }
        requires room { vec_len self.old.places < vec_capacity self.old.places }
        ensures flags { vec_len self.new.marks.flags ≡ vec_len self.old.marks.flags }
        ensures marks { (v : ℕ) → is_flagged self.new.marks.flags.items v ≡
            (is_marked (root_variables (lits_at (clauses_of pool.now.held)) (entry_of (before place trail.now.entries) var)) v
            || is_flagged self.old.marks.flags.items v) }
        ensures kept { GoesOn self.old.marks.marked.items self.new.marks.marked.items }
        ensures counted { IsCounted level (before place trail.now.entries) self.new.marks }
        ensures places { (p : ℕ) → count_by (λ at. at == p) self.new.places.items ≡ count_by (λ at. at == p) self.old.places.items
            + one_if (λ at. at == p) (place_of (before place trail.now.entries) var) }
        ensures few { vec_len self.new.places ≤ vec_len self.old.places + 1 }
        ensures room { IsSameRoom self.old self.new }
        ensures gathered { IsSameGathered self.old self.new }
    {
        let Some(at) = trail.place(var) else {
            return;
        };
        if at >= place {
            return;
        }
        self.places.push_reserved(at as u32);
        let entry = trail.entry(at);
        self.marks
            .mark_reason(pool, trail, level, place, &entry, entry.level == 0);
    }

    /// Notes the places of the marked entries before a place, once the reasons of those of level 0 are marked too.
    ///
    /// Each variable is marked once, so there are no more of them than flags. The list grows while it is walked over.
    fn find_older(&mut self, pool: &Pool, trail: &Trail, level: u32, place: usize)
        requires trail { IsTrail trail.now }
        requires fits { FitsClauses (lits_at (clauses_of pool.now.held)) trail.now.entries }
        requires reasons { AreReasonsBelow (vec_len self.old.marks.flags) (lits_at (clauses_of pool.now.held)) trail.now.entries }
        requires counted { IsCounted level (before place trail.now.entries) self.old.marks }
        requires none_left { self.old.marks.left ≡ 0 }
        requires empty { (vec_len self.old.places ≡ 0) × (self.old.places.items ≡ []) }
        requires room { vec_len self.old.marks.flags ≤ vec_capacity self.old.places }
        ensures flags { vec_len self.new.marks.flags ≡ vec_len self.old.marks.flags }
        ensures counted { IsCounted level (before place trail.now.entries) self.new.marks }
        ensures marks { (t : Trace) → AreFlagsOf t.marked self.old.marks.flags.items →
            AreFlagsOf (trace (lits_at (clauses_of pool.now.held)) level (before place trail.now.entries) t).marked self.new.marks.flags.items }
        ensures found { AreFound (before place trail.now.entries) self.new }
        ensures room { IsSameRoom self.old self.new }
        ensures gathered { IsSameGathered self.old self.new }
    {
        for index in 0..self.marks.flags.len() {
            if index >= self.marks.marked.len() {
                return;
            }
            let var = self.marks.marked[index];
            self.find(pool, trail, level, place, var);
        }
    }

    /// Puts the places that were found in order, that of the oldest entry first.
    fn sort_places(&mut self)
        ensures marks { self.new.marks ≡ self.old.marks }
        ensures sorted { (trail : List Entry) (place : ℕ) → HasDistinctVariables trail → AreFound (before place trail) self.old →
            ArePlacesOf trail place (flagged self.old.marks.flags.items (before place trail)) self.new.places.items }
        ensures room { IsSameRoom self.old self.new }
        ensures gathered { IsSameGathered self.old self.new }
    {
        self.places.sort_unstable();
    }

    /// Gathers what the entries at the places give, the newest first: those of level 0 are resolved.
    fn gather_older(&mut self, trail: &Trail, level: u32)
        requires within { All (λ place. place < length trail.now.entries) self.old.places.items }
        requires spare { HasSpare (vec_len self.old.places) self.old }
        ensures marks { self.new.marks ≡ self.old.marks }
        ensures room { IsSameRoom self.old self.new }
        ensures gathered { (look : Name → Option (List Literal)) (entries : List Entry) (t : Trace) →
            AreAt trail.now.entries self.old.places.items entries → IsGathered level self.old t →
            IsGathered level self.new (settled look entries t) }
    {
        for index in (0..self.places.len()).rev() {
            let place = self.places[index];
            let entry = trail.entry(place as usize);
            self.gather(level, &entry, entry.level == 0);
        }
    }

    /// The lesson of a walk over the whole of a trail.
    pub(crate) fn lesson(&mut self) -> Result<Lesson, NoMemory>
        ensures lesson { IfOk result (λ lesson. (level : ℕ) (t : Trace) → IsGathered level self.old t → lesson ≡ lesson_from level t) }
        ensures marks { self.new.marks ≡ self.old.marks }
        ensures room { IsSameRoom self.old self.new }
    {
        let alloc = *self.lits.allocator();
        self.hints.reverse();
        Ok(Lesson {
            lits: List::of(alloc, &self.lits)?,
            hints: List::of(alloc, &self.hints)?,
            back: self.back,
            touched: List::of(alloc, &self.touched)?,
        })
    }
}
