//! One core in its turn.
ghost use Rattle.std.specs.Prelude.{◌≡◌, ◌<◌, false, length, IfOk, OnOk};
ghost use Rattle.crew.specs.Era.{largest_volume, is_over, next_member, sheet_left};
ghost use Rattle.crew.specs.Run.{mails_at};
ghost use Rattle.crew.specs.Turns.{IsEra, AtMember, MayWork, HasWorked, worked, at_rest, begun};

use desk_io::Gate;
use lit_base::{Formula, NoMemory};
use period_rule::next_period;
use solo_core::{Core, Mail, Settings, Sheet};

/// A core, its number, and how many conflicts it may have in its period.
#[derive(Drop)]
pub(crate) struct Searcher {
    pub(crate) number: u32,
    pub(crate) core: Core,
    pub(crate) quota: u32,
}

/// Passes the gate and makes the stretch of a core's period. Where memory is refused the core is broken, and says so in each
/// later call.
pub(crate) fn stretch_one<G: Gate>(searcher: &mut Searcher, gate: &G)
    requires { MayWork searcher.old }
    ensures { HasWorked searcher.old searcher.new }
{
    gate.pass(searcher.number, searcher.core.period());
    match searcher.core.stretch(searcher.quota) {
        Ok(_) | Err(NoMemory) => {}
    }
}

/// What the core at place `i` leaves of an era in which it made its stretch, if it isn't broken.
pub(crate) fn sheet_one(
    searcher: &mut Searcher,
    _i: usize,
    _formula: &Formula,
    _settings: &Settings,
    _past: u32,
) -> Result<Sheet, NoMemory>
    requires within { _i < _settings.now.cores }
    requires worked { AtMember _formula.now _settings.now _past _i (λ m. searcher.old.core.is_broken ≡ false → searcher.old ≡ worked m) }
    ensures sheet { IfOk result (λ sheet. AtMember _formula.now _settings.now _past _i (λ m. sheet ≡ sheet_left m)) }
    ensures rest { OnOk result (AtMember _formula.now _settings.now _past _i (λ m. searcher.new ≡ at_rest m)) }
{
    searcher.core.sheet()
}

/// Brings the core at place `i` to the next era. It imports what the others posted, and its quota goes by its volume beside
/// the largest one. The mails are the same afterwards.
pub(crate) fn import_one(
    searcher: &mut Searcher,
    mails: &mut Vec<Mail>,
    i: usize,
    largest: u64,
    _formula: &Formula,
    settings: &Settings,
    _past: u32,
) -> Result<(), NoMemory>
    requires era { IsEra _formula.now settings.now _past }
    requires goes_on { is_over (mails_at _formula.now settings.now _past) ≡ false }
    requires within { i < settings.now.cores }
    requires rest { AtMember _formula.now settings.now _past i (λ m. searcher.old ≡ at_rest m) }
    requires mails { mails.old.items ≡ mails_at _formula.now settings.now _past }
    requires largest { largest ≡ largest_volume (mails_at _formula.now settings.now _past) }
    ensures mails { OnOk result (mails.new.items ≡ mails.old.items) }
    ensures next { OnOk result (AtMember _formula.now settings.now _past i (λ m. searcher.new ≡ begun (next_member settings.now.period (mails_at _formula.now settings.now _past) m))) }
{
    let own = mails.remove(i);
    searcher.core.import(mails.as_slice())?;
    searcher.quota = next_period(settings.period, own.volume, largest);
    mails.insert(i, own)?;
    Ok(())
}
