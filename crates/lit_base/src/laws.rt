//! Laws of the definitions that contracts cite: functions that do nothing, whose contracts state them.

pub(crate) mod lesson;
pub(crate) mod name;
pub(crate) mod proof;
pub(crate) mod propagation;
pub(crate) mod trail;
