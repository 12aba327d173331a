ghost use Rattle.std.specs.Prelude.{◌≡◌, ℕ, ◌+◌, ◌-◌, ◌*◌, ◌≤◌, ◌<◌, ◌==◌, ◌↔◌, true, Bool, Option, Some, None, [], ◌∷◌, length, reverse, replicate, IfOk, IfSome, IfNone, is_none, slice_get, slice_index_or, vec_len};
ghost use Rattle.lit_base.specs.Literal.{Literal, IsWithin};
ghost use Rattle.lit_base.specs.declared.trail.Value.TheVariants.{Free};
ghost use Rattle.lit_base.specs.Trail.{is_free, is_full, level_now, level_of, trail_value};
ghost use Rattle.lit_base.specs.Backjump.{last_value, with_saved};
ghost use Rattle.lit_base.specs.Fits.{IsNextLevel};
ghost use Rattle.trail_book.specs.TrailState.{first_trail, decided, implied, jumped, place_of, standing_of, IsTrail};
ghost use Rattle.trail_book.specs.Arrays.{standing_at, standing_with, value_by_standing, place_by_standing, number_at, sign_by};

use lit_base::{Entry, Lit, Name, NoMemory, Value};
use std::alloc::Global;
use std::marker::Model;

/// The literals that are assigned, each with its level and its reason, and what each variable last was.
///
/// Memory is taken by `with_room` alone. After it each call takes a constant time, but `jump` a step for each entry
/// that leaves.
///
/// `entries` has the oldest entry first, with room for one of each variable; `standings` is by the index of a literal;
/// `levels` is by variable, each one more than the level, and 0 where the variable is free; `saved` is by variable from
/// 1 on.
#[derive(Debug, Drop)]
pub struct Trail {
    entries: Vec<Entry>,
    standings: Vec<u32>,
    levels: Vec<u32>,
    saved: Vec<Option<bool>>,
}

impl Model for Trail {
    ghost use Rattle.std.specs.Prelude.{reverse, vec_capacity};
    ghost use Rattle.trail_book.specs.TrailState.{TrailState};
    ghost use Rattle.trail_book.specs.Arrays.{AreArraysOf};

    ghost Value = { TrailState };

    ghost view = { λ t. record { entries = reverse t.entries.items; saved = t.saved.items } };

    ghost invariant = { λ t.
        AreArraysOf (record { entries = reverse t.entries.items; saved = t.saved.items })
        (vec_capacity t.entries) t.standings.items t.levels.items };
}

impl Trail {
    /// Where a literal stands whose variable is free, 2^30: above each true literal, and below each false one.
    pub const FREE: u32 = 1_073_741_824;

    /// From where on false literals stand, 2^31.
    pub const FALSE: u32 = 2_147_483_648;

    /// The empty trail of so many variables, with room for an entry of each; `NoMemory` where there is none.
    pub fn with_room(alloc: Global, variables: u32) -> Result<Trail, NoMemory>
        ensures { IfOk result (λ trail. trail ≡ first_trail variables) }
    {
        let count = variables as usize;
        Ok(Trail {
            entries: Vec::with_capacity(alloc, count)?,
            standings: same_numbers(alloc, 2 * (count + 1), Trail::FREE)?,
            levels: same_numbers(alloc, count + 1, 0)?,
            saved: none_saved(alloc, count)?,
        })
    }

    /// The number of variables with which the trail was made.
    pub fn variables(&self) -> u32
        ensures value { result ≡ length self.now.saved }
        ensures trail { IsTrail self.now }
    {
        self.saved.len() as u32
    }

    /// Assigns a free literal as a decision, at a new level.
    pub fn decide(&mut self, lit: Lit)
        requires free { is_free self.old.entries lit.variable ≡ true }
        requires within { lit.variable ≤ length self.old.saved }
        ensures { self.new ≡ decided lit self.old }
    {
        let level = self.level() + 1;
        self.push(Entry {
            lit,
            level,
            reason: None,
        });
    }

    /// Assigns a free literal that a clause implies, at the present level.
    pub fn imply(&mut self, lit: Lit, reason: Name)
        requires free { is_free self.old.entries lit.variable ≡ true }
        requires within { lit.variable ≤ length self.old.saved }
        ensures { self.new ≡ implied lit reason self.old }
    {
        let level = self.level();
        self.push(Entry {
            lit,
            level,
            reason: Some(reason),
        });
    }

    /// Lets the entries above a level leave, the newest first, and saves their values.
    pub fn jump(&mut self, level: u32)
        requires { level ≤ level_now self.old.entries }
        ensures { self.new ≡ jumped level self.old }
    {
        for _ in 0..self.len() {
            if self.leave(level).is_none() {
                return;
            }
        }
    }

    /// Lets the newest entry leave, if it is above a level, saves its value and gives the entry.
    ///
    /// Called until it gives None, it is `jump`, and gives each entry that leaves once, the newest first.
    pub fn leave(&mut self, level: u32) -> Option<Entry>
        ensures newest { IfSome result (λ entry. self.old.entries ≡ entry ∷ self.new.entries) }
        ensures above { IfSome result (λ entry. level < entry.level) }
        ensures saved { IfSome result (λ entry. self.new.saved ≡ with_saved entry self.old.saved) }
        ensures unchanged { IfNone result (self.new ≡ self.old) }
        ensures none { IfNone result (self.old ≡ jumped level self.old) }
        ensures rest { jumped level self.new ≡ jumped level self.old }
    {
        if self.level() <= level {
            return None;
        }
        let entry = self.entries.pop()?;
        let lit = entry.lit;
        let var = lit.var() as usize;
        write_standings(&mut self.standings, lit, Trail::FREE, Trail::FREE);
        self.levels[var] = 0;
        self.saved[var - 1] = Some(lit.is_positive());
        Some(entry)
    }

    /// The value of a literal; one past the variables is free. `decide` and `imply` ask for a free one.
    pub fn value(&self, lit: Lit) -> Value
        ensures value { result ≡ trail_value self.now.entries lit }
        ensures free { (result ≡ Free) ↔ (is_free self.now.entries lit.variable ≡ true) }
    {
        value_by(self.standing(lit))
    }

    /// Where a literal stands: the number of entries older than its variable's, and `FALSE` more where the literal is
    /// false; `FREE` where the variable is free, also past the variables.
    ///
    /// So the true literals come first, the oldest at the front, then the free ones, and then the false ones, the one
    /// that became false last at the end.
    pub fn standing(&self, lit: Lit) -> u32
        ensures value { result ≡ standing_of self.now.entries lit }
        ensures trail { IsTrail self.now }
    {
        read_standing(&self.standings, lit.index())
    }

    /// The level of the newest entry, and 0 where there is none; at most 1,000,000.
    pub fn level(&self) -> u32
        ensures value { result ≡ level_now self.now.entries }
        ensures few { result ≤ 1000000 }
        ensures trail { IsTrail self.now }
    {
        level_now(&self.entries)
    }

    /// The number of entries, at most 1,000,000.
    pub fn len(&self) -> usize
        ensures value { result ≡ length self.now.entries }
        ensures few { result ≤ 1000000 }
        ensures trail { IsTrail self.now }
    {
        self.entries.len()
    }

    /// Whether each variable has a value.
    pub fn full(&self) -> bool
        ensures { result ≡ is_full (length self.now.saved) self.now.entries }
    {
        self.entries.len() == self.saved.len()
    }

    /// Whether a variable has no value; one past the variables has none.
    pub fn is_free(&self, var: u32) -> bool
        ensures { result ≡ is_free self.now.entries var }
    {
        read_standing(&self.standings, 2 * var as usize) == Trail::FREE
    }

    /// The level at which a variable has its value; None where the variable is free.
    pub fn level_of(&self, var: u32) -> Option<u32>
        ensures value { result ≡ level_of self.now.entries var }
        ensures free { is_none result ≡ is_free self.now.entries var }
    {
        read_number(&self.levels, var)
    }

    /// The place of a variable's entry, counted from the oldest; None where the variable is free.
    pub fn place(&self, var: u32) -> Option<usize>
        ensures value { result ≡ place_of self.now.entries var }
        ensures free { is_none result ≡ is_free self.now.entries var }
        ensures within { IfSome result (λ place. place < length self.now.entries) }
    {
        place_by(read_standing(&self.standings, 2 * var as usize))
    }

    /// The entry at a place, counted from 0 and from the oldest.
    pub fn entry(&self, place: usize) -> Entry
        requires { place < length self.now.entries }
        ensures value { slice_get (reverse self.now.entries) place ≡ Some result }
        ensures within { IsWithin (length self.now.saved) result.lit }
        ensures level { result.level ≤ length self.now.entries }
    {
        self.entries[place]
    }

    /// The entries, the oldest first.
    pub fn entries(&self) -> &[Entry]
        ensures value { reverse result.now ≡ self.now.entries }
        ensures trail { IsTrail self.now }
    {
        self.entries.as_slice()
    }

    /// What a variable, from 1 on, is, or else was when it last left the trail; None where it never had a value.
    pub fn last(&self, var: u32) -> Option<bool>
        ensures { result ≡ last_value self.now.entries self.now.saved var }
    {
        match sign_by(read_standing(&self.standings, 2 * var as usize)) {
            Some(sign) => Some(sign),
            None => read_saved(&self.saved, var),
        }
    }

    /// Adds an entry of a free variable.
    fn push(&mut self, entry: Entry)
        requires free { is_free self.old.entries entry.lit.variable ≡ true }
        requires within { entry.lit.variable ≤ length self.old.saved }
        requires level { IsNextLevel (level_now self.old.entries) entry.level entry.reason }
        ensures { self.new ≡ record self.old { entries = entry ∷ self.old.entries } }
    {
        let lit = entry.lit;
        let place = self.len() as u32;
        write_standings(&mut self.standings, lit, place, Trail::FALSE + place);
        self.levels[lit.var() as usize] = entry.level + 1;
        self.entries.push_reserved(entry);
    }
}

/// So many numbers, each this one.
fn same_numbers(alloc: Global, count: usize, number: u32) -> Result<Vec<u32>, NoMemory>
    ensures { IfOk result (λ numbers. numbers.items ≡ replicate count number) }
{
    Ok(vec![in alloc; number; count]?)
}

/// So many saved values, none of them there.
fn none_saved(alloc: Global, count: usize) -> Result<Vec<Option<bool>>, NoMemory>
    ensures { IfOk result (λ saved. saved.items ≡ replicate count None) }
{
    Ok(vec![in alloc; None; count]?)
}

/// Lets a literal and its negation stand where they are told.
fn write_standings(standings: &mut Vec<u32>, lit: Lit, own: u32, other: u32)
    requires { 2 * lit.variable + 1 < vec_len standings.old }
    ensures len { vec_len standings.new ≡ vec_len standings.old }
    ensures written { (l : Literal) → standing_at standings.new.items l ≡ standing_with lit own other (standing_at standings.old.items l) l }
{
    standings[lit.index()] = own;
    standings[lit.negated().index()] = other;
}

/// Where the literal of this index stands, and `FREE` past the standings.
fn read_standing(standings: &[u32], index: usize) -> u32
    ensures { result ≡ slice_index_or standings.now index Trail.FREE }
{
    standings.get(index).copied().unwrap_or(Trail::FREE)
}

/// The value of a literal, from where it stands.
fn value_by(standing: u32) -> Value
    ensures { result ≡ value_by_standing standing }
{
    if standing < Trail::FREE {
        Value::True
    } else if standing < Trail::FALSE {
        Value::Free
    } else {
        Value::False
    }
}

/// The sign of a variable, from where its positive literal stands; None where the variable is free.
fn sign_by(standing: u32) -> Option<bool>
    ensures { result ≡ sign_by (value_by_standing standing) }
{
    match value_by(standing) {
        Value::True => Some(true),
        Value::False => Some(false),
        Value::Free => None,
    }
}

/// The place of a variable, from where one of its literals stands; None where the variable is free.
fn place_by(standing: u32) -> Option<usize>
    ensures { result ≡ place_by_standing standing }
{
    match value_by(standing) {
        Value::True => Some(standing as usize),
        Value::False => Some((standing - Trail::FALSE) as usize),
        Value::Free => None,
    }
}

/// The number of a variable in an array by variable, and None past its end.
fn read_number(numbers: &[u32], var: u32) -> Option<u32>
    ensures { result ≡ number_at numbers.now var }
{
    numbers
        .get(var as usize)
        .copied()
        .unwrap_or(0)
        .checked_sub(1)
}

/// The saved value of a variable, and None past the saved values.
fn read_saved(saved: &[Option<bool>], var: u32) -> Option<bool>
    ensures { result ≡ slice_index_or saved.now (var - 1) None }
{
    let place = (var as usize).saturating_sub(1);
    saved.get(place).copied().flatten()
}

/// The level of the newest entry, which is the last one.
fn level_now(entries: &[Entry]) -> u32
    ensures { result ≡ level_now (reverse entries.now) }
{
    entries.last().map_or(0, |entry| entry.level)
}
