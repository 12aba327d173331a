//! Where the solver's bytes come from and go to: two slots that are read and three ports that are
//! written, as traits, so that the solver is proved for every desk.
#![tactic(auto)]

ghost use Rattle.std.specs.Prelude.{◌≡◌};
ghost use Rattle.desk_io.specs.declared.PortFault.TheVariants.{NoMemory as WantOfMemory};

use lit_base::NoMemory;

mod bytes;
mod gate;
mod inputs;
mod memory_inputs;
mod memory_outputs;
mod outputs;
mod real_inputs;
mod real_outputs;
mod standard_streams;
mod sure_inputs;
mod sure_outputs;
#[cfg(test)]
mod tests;

pub use gate::{Gate, NoGate};
pub use inputs::Inputs;
pub use memory_inputs::MemoryInputs;
pub use memory_outputs::MemoryOutputs;
pub use outputs::{Outputs, write_whole};
pub use real_inputs::RealInputs;
pub use real_outputs::RealOutputs;
pub use sure_inputs::SureInputs;
pub use sure_outputs::SureOutputs;

/// One of the two sources of bytes.
#[derive(Clone, Copy, Debug, PartialEq, Eq)]
pub enum Slot {
    Formula,
    Proof,
}

/// One of the three places that bytes are written to.
#[derive(Clone, Copy, Debug, PartialEq, Eq)]
pub enum Port {
    Answer,
    Log,
    Complaint,
}

/// A slot could not be begun or read. Its count of faults rose.
#[derive(Clone, Copy, Debug, PartialEq, Eq)]
pub struct Failed;

/// Why a port took nothing.
#[derive(Clone, Copy, Debug, PartialEq, Eq)]
pub enum PortFault {
    /// The port could not be created or written. Its count of faults rose.
    Failed,
    /// Memory ran out.
    NoMemory,
}

impl From<NoMemory> for PortFault {
    ghost from_gives = { λ _ fault. fault ≡ WantOfMemory };

    fn from(_error: NoMemory) -> PortFault {
        PortFault::NoMemory
    }
}
