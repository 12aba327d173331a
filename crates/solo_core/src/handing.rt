ghost use Rattle.std.specs.Prelude.{◌≡◌, [], IfOk};
ghost use Rattle.lit_base.specs.Trail.{sign_of, value_or_false, model_of};
ghost use Rattle.solo_core.specs.Sheet.{mail_of, model_at};

use crate::lemma::Lemma;
use crate::posting::posts_of;
use crate::search::Search;
use crate::sheet::{End, Mail};
use lit_base::{List, Model, NoMemory};
use std::alloc::Global;
use std::mem;
use trail_book::Trail;

impl Search {
    /// Moves the lemmas of the period out.
    pub(crate) fn take_lemmas(&mut self) -> List<Lemma>
        ensures lemmas { result ≡ self.old.state.lemmas }
        ensures state { self.new ≡ record self.old { state = record self.old.state { lemmas = [] } } }
    {
        mem::replace(&mut self.lemmas, List::new(self.alloc))
    }
}

/// The mail of a search whose stretch ended so.
pub(crate) fn mail_of(search: &Search, end: End) -> Result<Mail, NoMemory>
    ensures { IfOk result (λ mail. mail ≡ mail_of search.now.frame (record { state = search.now.state; ended = end })) }
{
    let posted = posts_of(search.alloc, search.share, search.lemmas.as_slice())?;
    Ok(Mail {
        core: search.core,
        period: search.period,
        end,
        conflicts: search.period_conflicts,
        volume: search.pool.volume(),
        posted,
    })
}

/// The model of a search whose stretch ended so: its trail where that was a model, else none.
pub(crate) fn model_of(search: &Search, end: End) -> Result<Option<Model>, NoMemory>
    ensures { IfOk result (λ model. model ≡ model_at search.now.frame search.now.state end) }
{
    match end {
        End::Sat => {
            let values = values_of(search.alloc, &search.trail, search.variables)?;
            Ok(Some(Model::new(values)))
        }
        End::Unsat | End::Quota | End::Spent => Ok(None),
    }
}

/// The values that the trail gives the variables from 1 on; false where one is free.
fn values_of(alloc: Global, trail: &Trail, variables: u32) -> Result<List<bool>, NoMemory>
    ensures { IfOk result (λ values. values ≡ model_of variables trail.now.entries) }
{
    let mut values = List::new(alloc);
    for index in 0..variables {
        values.push(value_of(trail, index + 1))?;
    }
    Ok(values)
}

/// The value of a variable on the trail; false where it is free.
fn value_of(trail: &Trail, var: u32) -> bool
    ensures { result ≡ value_or_false (sign_of trail.now.entries var) }
{
    match trail.place(var) {
        Some(place) => trail.entry(place).lit.is_positive(),
        None => false,
    }
}
