ghost use Rattle.std.specs.Prelude.{◌≡◌, ℕ, ◌+◌, ◌≤◌, ◌<◌, ◌==◌, true, false, length, slice_index, slice_set, vec_len, IfOk, IfSome, IfNone};
ghost use Rattle.std.specs.Bool.{OnTrue, OnFalse};
ghost use Rattle.var_order.specs.Heap.{IsBelow, parent_of};

use lit_base::NoMemory;
use std::alloc::Global;

/// The variables by activity as a binary heap, the best at its top (Williams 1964). Here they are counted from 0.
///
/// `vars` is by place: the heap in the first `size` places, and behind it the variables that are not in it. `places` is
/// by variable. So a variable is in the heap where its place is before `size`, and to put it in or take it out is a
/// swap with the one at the heap's end.
#[derive(Debug, Drop)]
pub struct Heap {
    vars: Vec<u32>,
    places: Vec<u32>,
    size: usize,
}

impl Heap {
    ghost use Rattle.var_order.specs.Heap.{var_at, place_of, members_of, ArePlaced, HaveSwapped, IsHeapFrom, IsHeap, IsHeapButUp, IsHeapButDown, IsBetterChild, AreNoBetter};

    /// So many variables, all of them in, by number.
    pub fn make(alloc: Global, count: usize) -> Result<Heap, NoMemory>
        requires { count ≤ 1000000 }
        ensures placed { IfOk result (λ heap. ArePlaced count heap) }
        ensures full { IfOk result (λ heap. heap.size ≡ count) }
    {
        Ok(Heap {
            vars: numbers(alloc, count)?,
            places: numbers(alloc, count)?,
            size: count,
        })
    }

    /// Whether no variable is in the heap.
    pub fn is_empty(&self) -> bool
        ensures { result ≡ (self.now.size == 0) }
    {
        self.size == 0
    }

    /// Brings all variables into order, from the last inner place to the top (Floyd 1964): a step for each of them.
    pub fn rebuild(&mut self, activities: &[u64])
        requires placed { ArePlaced (length activities.now) self.old }
        ensures placed { ArePlaced (length activities.now) self.new }
        ensures members { members_of self.new ≡ members_of self.old }
        ensures heap { IsHeap activities.now self.new }
    {
        let inner = self.size / 2;
        for done in 0..inner {
            self.sink(activities, inner - 1 - done);
        }
    }

    /// Brings a variable whose activity has risen into order, if it is in the heap.
    pub fn raise(&mut self, activities: &[u64], var: u32)
        requires placed { ArePlaced (length activities.now) self.old }
        requires within { var < length activities.now }
        requires order { IsHeapButUp (place_of self.old var) activities.now self.old }
        ensures placed { ArePlaced (length activities.now) self.new }
        ensures members { members_of self.new ≡ members_of self.old }
        ensures heap { IsHeap activities.now self.new }
    {
        let place = self.places[var as usize] as usize;
        if place < self.size {
            self.rise(activities, place);
        }
    }

    /// Puts a variable in, if it is not there.
    pub fn put_back(&mut self, activities: &[u64], var: u32)
        requires placed { ArePlaced (length activities.now) self.old }
        requires heap { IsHeap activities.now self.old }
        requires within { var < length activities.now }
        ensures placed { ArePlaced (length activities.now) self.new }
        ensures members { members_of self.new ≡ slice_set (members_of self.old) var true }
        ensures heap { IsHeap activities.now self.new }
    {
        let place = self.places[var as usize] as usize;
        if place < self.size {
            return;
        }
        let end = self.size;
        self.swap(place, end);
        self.size += 1;
        self.rise(activities, end);
    }

    /// Takes the best variable out, and gives it.
    pub fn take_best(&mut self, activities: &[u64]) -> u32
        requires placed { ArePlaced (length activities.now) self.old }
        requires heap { IsHeap activities.now self.old }
        requires some { 0 < self.old.size }
        ensures placed { ArePlaced (length activities.now) self.new }
        ensures members { members_of self.new ≡ slice_set (members_of self.old) result false }
        ensures heap { IsHeap activities.now self.new }
        ensures fewer { self.new.size + 1 ≡ self.old.size }
        ensures best { result ≡ var_at self.old 0 }
    {
        let best = self.vars[0];
        let end = self.size - 1;
        self.swap(0, end);
        self.size = end;
        self.sink(activities, 0);
        best
    }

    /// Lets the variable at a place rise until the one above it is no worse.
    fn rise(&mut self, activities: &[u64], start: usize)
        requires placed { ArePlaced (length activities.now) self.old }
        requires within { start < self.old.size }
        requires order { IsHeapButUp start activities.now self.old }
        ensures placed { ArePlaced (length activities.now) self.new }
        ensures members { members_of self.new ≡ members_of self.old }
        ensures heap { IsHeap activities.now self.new }
    {
        let mut at = start;
        while at > 0 && is_better(activities, self.vars[at], self.vars[parent_of(at)]) {
            let above = parent_of(at);
            self.swap(at, above);
            at = above;
        }
    }

    /// Lets the variable at a place sink until none right below it is better.
    fn sink(&mut self, activities: &[u64], start: usize)
        requires placed { ArePlaced (length activities.now) self.old }
        requires within { start < length activities.now }
        requires order { IsHeapButDown start start activities.now self.old }
        ensures placed { ArePlaced (length activities.now) self.new }
        ensures size { self.new.size ≡ self.old.size }
        ensures members { members_of self.new ≡ members_of self.old }
        ensures heap { IsHeapFrom start activities.now self.new }
    {
        let mut at = start;
        while let Some(child) = self.better_child(activities, at) {
            self.swap(at, child);
            at = child;
        }
    }

    /// Of the places right below a place the one with the best variable, if that is better than the one at the place.
    fn better_child(&self, activities: &[u64], at: usize) -> Option<usize>
        requires placed { ArePlaced (length activities.now) self.now }
        requires within { at < length activities.now }
        ensures some { IfSome result (λ child. IsBetterChild activities.now self.now at child) }
        ensures none { IfNone result (AreNoBetter activities.now self.now at) }
    {
        let left = 2 * at + 1;
        let right = left + 1;
        if left >= self.size {
            return None;
        }
        let best = if right < self.size
            && is_better(activities, self.vars[right], self.vars[left])
        {
            right
        } else {
            left
        };
        is_better(activities, self.vars[best], self.vars[at]).then_some(best)
    }

    /// Swaps the variables at two places.
    fn swap(&mut self, i: usize, j: usize)
        requires first { i < vec_len self.old.vars }
        requires second { j < vec_len self.old.vars }
        requires few { vec_len self.old.vars ≤ 1000000 }
        requires first_var { var_at self.old i < vec_len self.old.places }
        requires second_var { var_at self.old j < vec_len self.old.places }
        ensures swapped { HaveSwapped self.old self.new i j }
        ensures placed { (count : ℕ) → ArePlaced count self.old → ArePlaced count self.new }
    {
        let first = self.vars[i];
        let second = self.vars[j];
        self.vars[i] = second;
        self.vars[j] = first;
        self.places[second as usize] = i as u32;
        self.places[first as usize] = j as u32;
    }
}

/// The numbers from 0 on, so many.
fn numbers(alloc: Global, count: usize) -> Result<Vec<u32>, NoMemory>
    requires { count ≤ 1000000 }
    ensures len { IfOk result (λ numbers. length numbers.items ≡ count) }
    ensures each { IfOk result (λ numbers. (i : ℕ) → i < count → slice_index numbers.items i ≡ i) }
{
    let mut numbers = vec![in alloc; 0; count]?;
    for i in 0..count {
        numbers[i] = i as u32;
    }
    Ok(numbers)
}

/// The place above a place.
fn parent_of(place: usize) -> usize
    requires { 0 < place }
    ensures { result ≡ parent_of place }
{
    (place - 1) / 2
}

/// Whether a variable is better than another: of greater activity, or of the same and of a lower number.
fn is_better(activities: &[u64], var: u32, other: u32) -> bool
    requires var { var < length activities.now }
    requires other { other < length activities.now }
    ensures better { OnTrue result (IsBelow activities.now other var) }
    ensures worse { OnFalse result (IsBelow activities.now var other) }
{
    let own = activities[var as usize];
    let others = activities[other as usize];
    own > others || (own == others && var < other)
}
