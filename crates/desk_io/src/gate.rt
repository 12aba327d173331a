use std::marker::Sync;

/// What a core passes before each stretch of its work. Threads share it.
pub trait Gate: Sync {
    /// Called by core `core`, counted from 0, before its stretch of period `period`, counted from
    /// 1. It promises only that it returns.
    fn pass(&self, core: u32, period: u32);
}

/// A gate that does nothing.
#[derive(Clone, Copy, Debug, PartialEq, Eq)]
pub struct NoGate;

impl Gate for NoGate {
    fn pass(&self, _core: u32, _period: u32) {}
}
