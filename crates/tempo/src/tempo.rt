ghost use Rattle.std.specs.Prelude.{◌≡◌, ◌-◌, ◌*◌, ◌^◌, ◌<◌, ◌≤◌};
ghost use Rattle.tempo.specs.Tempo.{luby, first_tempo, is_due, after_conflict};

use crate::sequence::luby;
use std::marker::Model;

/// Counts the conflicts of a core, and says at which of them it restarts: after as many since the last restart
/// as the unit times the next value of the sequence (Luby, Sinclair and Zuckerman 1993).
///
/// A conflict takes a constant time, but where it makes a restart due, when the next value is computed.
/// `limit` is the value at `t` times the unit.
#[derive(Debug, Drop)]
pub struct Tempo {
    unit: u32,
    t: u32,
    count: u64,
    limit: u64,
}

impl Model for Tempo {
    ghost use Rattle.tempo.specs.Tempo.{TempoState, IsPaced};

    ghost Value = { TempoState };

    ghost view = { λ p. record { unit = p.unit; t = p.t; count = p.count } };

    ghost invariant = { λ p. IsPaced (record { unit = p.unit; t = p.t; count = p.count }) p.limit };
}

impl Tempo {
    /// The beginning of the sequence, with this unit.
    pub fn new(unit: u32) -> Tempo
        requires { 1 ≤ unit }
        ensures { result ≡ first_tempo unit }
    {
        Tempo {
            unit,
            t: 1,
            count: 0,
            limit: u64::from(unit),
        }
    }

    /// Counts a conflict, and says whether a restart is due. The sequence is known up to its place 2^32 - 1.
    pub fn conflict(&mut self) -> bool
        requires { self.old.t < 2 ^ 32 - 1 }
        ensures due { result ≡ is_due self.old }
        ensures counted { self.new ≡ after_conflict self.old }
    {
        self.count += 1;
        if self.count != self.limit {
            return false;
        }
        self.t += 1;
        self.count = 0;
        self.limit = limit_at(self.unit, self.t);
        true
    }
}

/// How many conflicts the sequence gives a place with this unit.
fn limit_at(unit: u32, t: u32) -> u64
    requires some { 1 ≤ t }
    requires unit { 1 ≤ unit }
    ensures value { result ≡ luby t * unit }
    ensures some { 1 ≤ result }
{
    luby(t) * u64::from(unit)
}
