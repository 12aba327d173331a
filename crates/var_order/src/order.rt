ghost use Rattle.std.specs.Prelude.{◌≡◌, ℕ, ◌+◌, ◌≤◌, ◌<◌, ◌^◌, true, false, Some, length, IfOk, IfSome, ◌≢◌};
ghost use Rattle.lit_base.specs.Trail.{is_free};
ghost use Rattle.var_order.specs.Order.{first_order, activity_at, activity_of, is_present, HasAllFree, bumped, halves, halved, put_back, pick_of};
ghost use Rattle.var_order.specs.Laws.{IsChoice};

use crate::heap::Heap;
use lit_base::{List, NoMemory};
use std::alloc::Global;
use std::marker::Model;
use trail_book::Trail;

/// The variables by activity, from which a core picks the one to decide
/// (Moskewicz, Madigan, Zhao, Zhang and Malik 2001).
///
/// The variables that are in the order stand in a heap. Memory is taken by `make` alone. `put_back` and `bump` take a
/// step for each level of the heap, at most 20, and so does `pick` for each variable that it takes out; `halve` takes a
/// step for each variable.
///
/// `activities` is by variable from 1 on.
#[derive(Debug, Drop)]
pub struct Order {
    activities: List<u64>,
    heap: Heap,
}

impl Model for Order {
    ghost use Rattle.var_order.specs.Order.{OrderState};
    ghost use Rattle.var_order.specs.Heap.{order_by, IsIndexed};

    ghost Value = { OrderState };

    ghost view = { λ o. order_by o.activities o.heap };

    ghost invariant = { λ o. IsIndexed o.activities o.heap };
}

impl Order {
    /// The order of variables with these activities, at most 1,000,000; `NoMemory` where there is no room.
    pub fn make(alloc: Global, start: List<u64>) -> Result<Order, NoMemory>
        requires { length start ≤ 1000000 }
        ensures { IfOk result (λ order. order ≡ first_order start) }
    {
        let mut heap = Heap::make(alloc, start.len())?;
        heap.rebuild(start.as_slice());
        Ok(Order {
            activities: start,
            heap,
        })
    }

    /// Raises the activity of a variable, from 1 on.
    pub fn bump(&mut self, var: u32, weight: u64)
        requires some { 1 ≤ var }
        requires within { var ≤ length self.old.activities }
        requires fits { activity_of self.old var + weight < 2 ^ 64 }
        ensures { self.new ≡ bumped var weight self.old }
    {
        let raised = activity_at(self.activities.as_slice(), var) + weight;
        self.activities.set(var as usize - 1, raised);
        self.heap.raise(self.activities.as_slice(), var - 1);
    }

    /// Halves each activity, rounded down.
    pub fn halve(&mut self)
        ensures { self.new ≡ halved self.old }
    {
        halve_all(&mut self.activities);
        self.heap.rebuild(self.activities.as_slice());
    }

    /// The activity of a variable, from 1 on.
    pub fn activity(&self, var: u32) -> u64
        requires some { 1 ≤ var }
        requires within { var ≤ length self.now.activities }
        ensures { result ≡ activity_of self.now var }
    {
        activity_at(self.activities.as_slice(), var)
    }

    /// Picks the variable that is free on the trail, of the greatest activity and among these of the lowest number,
    /// and takes it out; None where no variable is free.
    pub fn pick(&mut self, trail: &Trail) -> Option<u32>
        requires variables { length self.old.activities ≡ length trail.now.saved }
        requires present { HasAllFree self.old trail.now.entries }
        ensures value { result ≡ pick_of self.old.activities trail.now.entries }
        ensures choice { IfSome result (λ v. IsChoice self.old.activities trail.now.entries v) }
        ensures activities { self.new.activities ≡ self.old.activities }
        ensures taken { IfSome result (λ v. is_present self.new v ≡ false) }
        ensures fewer { (v : ℕ) → is_present self.new v ≡ true → is_present self.old v ≡ true }
        ensures others { (v : ℕ) → 1 ≤ v → is_free trail.now.entries v ≡ true → result ≢ Some v → is_present self.new v ≡ is_present self.old v }
    {
        while !self.heap.is_empty() {
            let var = self.heap.take_best(self.activities.as_slice()) + 1;
            if trail.is_free(var) {
                return Some(var);
            }
        }
        None
    }

    /// Puts a variable, from 1 on, into the order, if it is not there.
    pub fn put_back(&mut self, var: u32)
        requires some { 1 ≤ var }
        requires within { var ≤ length self.old.activities }
        ensures order { self.new ≡ put_back var self.old }
        ensures present { is_present self.new var ≡ true }
    {
        self.heap.put_back(self.activities.as_slice(), var - 1);
    }
}

/// Halves each of the activities.
fn halve_all(activities: &mut List<u64>)
    ensures { activities.new ≡ halves activities.old }
{
    for place in 0..activities.len() {
        let half = *activities.get(place) / 2;
        activities.set(place, half);
    }
}

/// The activity of a variable, and 0 past the activities.
fn activity_at(activities: &[u64], var: u32) -> u64
    ensures { result ≡ activity_at activities.now var }
{
    let place = (var as usize).saturating_sub(1);
    activities.get(place).copied().unwrap_or(0)
}
