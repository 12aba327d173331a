ghost use Rattle.std.specs.Prelude.{◌≡◌, ◌≤◌};
ghost use Rattle.lit_base.specs.Truth.{value_in, is_true_in};

use crate::list::List;
use crate::lit::Lit;

/// A truth value for each variable, variable 1 first; seen by contracts as that list.
#[derive(Debug, Drop)]
pub struct Model {
    values: List<bool>,
}

impl std::marker::Model for Model {
    ghost use Rattle.std.specs.Prelude.{List, Bool};

    ghost Value = { List Bool };

    ghost view = { λ m. m.values };
}

impl Model {
    /// The model of these values, variable 1 first.
    pub fn new(values: List<bool>) -> Model
        ensures { result ≡ values }
    {
        Model { values }
    }

    /// The values, variable 1 first.
    pub fn values(&self) -> &[bool]
        ensures { result.now ≡ self.now }
    {
        self.values.as_slice()
    }

    /// Whether the literal is true in the model; a variable past the model's end counts as false.
    pub fn is_true(&self, lit: Lit) -> bool
        ensures { result ≡ is_true_in self.now lit }
    {
        self.value(lit.var()) == lit.is_positive()
    }

    fn value(&self, var: u32) -> bool
        requires { 1 ≤ var }
        ensures { result ≡ value_in self.now var }
    {
        let values = self.values.as_slice();
        values.get(var as usize - 1).copied().unwrap_or(false)
    }
}
