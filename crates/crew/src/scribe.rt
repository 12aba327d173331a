//! The scribe of a board: what it does in an era.
//!
//! In the first half of an era it tells each core whether to go on, and arrives. In the second half it waits until all have
//! arrived, takes the sheets of the cores, and writes the era's part of the log while the cores work on the next one. Where
//! the log can't be written, or memory is refused, it tells the cores in the next era to end, and ends with them.
ghost use Rattle.std.specs.Prelude.{◌≡◌, ◌≢◌, ℕ, ◌+◌, ◌<◌, true, None, IfSome, [], slice_index, slice_set, take};
ghost use Rattle.desk_io.specs.Told.{OutputsTold};
ghost use Rattle.era_board.specs.Passes.{account};
ghost use Rattle.era_board.specs.Periods.{IsAtRest, HasSent, MayReceive};
ghost use Rattle.crew.specs.Era.{sheet_left};
ghost use Rattle.crew.specs.Run.{sheets_at};
ghost use Rattle.crew.specs.Turns.{IsEra, AtMember, logged_before};
ghost use Rattle.crew.specs.Parties.{IsPassIn};
ghost use Rattle.crew.specs.Scribing.{ScribeAt, ScribeSent, ScribeReceives, Concludes, LogStands, LogLeft};

use crate::era::conclude;
use crate::kept::keep;
use crate::logged::Logged;
use crate::outcome::Outcome;
use crate::post::Post;
use crate::sheets::is_over;
use desk_io::Outputs;
use era_board::{Board, Pass};
use lit_base::Formula;
use log_merge::Stop;
use solo_core::{Settings, Sheet};
use std::alloc::Global;
use std::sync::Wait;

/// The scribe: its pass, and what it keeps of the run.
#[derive(Drop)]
pub(crate) struct Scribe {
    pub(crate) pass: Pass<Post>,
    pub(crate) logged: Logged,
    /// Room for the sheets of an era.
    pub(crate) sheets: Vec<Sheet>,
    /// Why it tells the cores to end, once it does.
    pub(crate) stop: Option<Stop>,
}

/// How an era ends for the scribe.
#[derive(Drop)]
pub(crate) enum Written {
    /// The next era follows.
    GoesOn,
    /// The run is over, and has this outcome.
    Over(Outcome),
    /// The log could not be written, or memory was refused to a party.
    Stopped(Stop),
}

/// Tells a core whether to go on.
fn put_order(
    board: &Board<Post>,
    pass: &mut Pass<Post>,
    to: u32,
    halts: bool,
    _formula: &Formula,
    settings: &Settings,
    _past: u32,
)
    requires pass { IsPassIn board.now _formula.now settings.now pass.old }
    requires last { (account pass.old).number ≡ settings.now.cores }
    requires to { to < settings.now.cores }
    requires arrivals { ((account pass.old).arrivals ≡ _past) × ((account pass.old).known ≡ _past) }
    requires not_yet { slice_index (account pass.old).laid to ≡ _past }
    ensures pass { IsPassIn board.now _formula.now settings.now pass.new }
    ensures account { account pass.new ≡ record (account pass.old) { laid = slice_set (account pass.old).laid to (_past + 1) } }
{
    let post = if halts { Post::Halt } else { Post::Go };
    board.put(pass, to, post);
}

/// Tells each core whether to go on.
fn put_orders(
    board: &Board<Post>,
    pass: &mut Pass<Post>,
    halts: bool,
    formula: &Formula,
    settings: &Settings,
    past: u32,
)
    requires pass { IsPassIn board.now formula.now settings.now pass.old }
    requires last { (account pass.old).number ≡ settings.now.cores }
    requires rest { IsAtRest (account pass.old) }
    requires arrivals { (account pass.old).arrivals ≡ past }
    ensures pass { IsPassIn board.now formula.now settings.now pass.new }
    ensures account { account pass.new ≡ record (account pass.old) { laid = (account pass.new).laid } }
    ensures laid { (to : ℕ) → to < settings.now.cores → slice_index (account pass.new).laid to ≡ past + 1 }
{
    for to in 0..settings.cores {
        put_order(board, pass, to, halts, formula, settings, past);
    }
}

/// The first half of an era: what it tells the cores, and the arrival.
pub(crate) fn scribe_send(
    board: &Board<Post>,
    scribe: &mut Scribe,
    _log: bool,
    formula: &Formula,
    settings: &Settings,
    past: u32,
)
    requires era { IsEra formula.now settings.now past }
    requires scribe { ScribeAt board.now formula.now settings.now _log past scribe.old }
    ensures sent { ScribeSent board.now formula.now settings.now _log past scribe.new }
    ensures stop { scribe.new.stop ≡ scribe.old.stop }
{
    put_orders(
        board,
        &mut scribe.pass,
        scribe.stop.is_some(),
        formula,
        settings,
        past,
    );
    board.arrive(&mut scribe.pass);
}

/// The sheet of a core, or none where memory was refused to it.
fn take_sheet(
    board: &Board<Post>,
    pass: &mut Pass<Post>,
    from: u32,
    _formula: &Formula,
    _settings: &Settings,
    _past: u32,
) -> Option<Sheet>
    requires pass { IsPassIn board.now _formula.now _settings.now pass.old }
    requires last { (account pass.old).number ≡ _settings.now.cores }
    requires from { from < _settings.now.cores }
    requires arrivals { ((account pass.old).arrivals ≡ _past + 1) × ((account pass.old).known ≡ _past + 1) }
    requires not_yet { slice_index (account pass.old).taken from ≡ _past }
    ensures pass { IsPassIn board.now _formula.now _settings.now pass.new }
    ensures account { account pass.new ≡ record (account pass.old) { taken = slice_set (account pass.old).taken from (_past + 1) } }
    ensures sheet { IfSome result (λ sheet. AtMember _formula.now _settings.now _past from (λ m. sheet ≡ sheet_left m)) }
{
    match board.take(pass, from) {
        Post::Sheet(sheet) => Some(sheet),
        Post::Mail(_) | Post::Go | Post::Halt | Post::Broken => None,
    }
}

/// Takes the sheets of an era, and says whether all are there.
fn take_sheets(
    board: &Board<Post>,
    pass: &mut Pass<Post>,
    sheets: &mut Vec<Sheet>,
    formula: &Formula,
    settings: &Settings,
    past: u32,
) -> bool
    requires pass { IsPassIn board.now formula.now settings.now pass.old }
    requires last { (account pass.old).number ≡ settings.now.cores }
    requires ready { MayReceive (account pass.old) }
    requires arrivals { (account pass.old).arrivals ≡ past + 1 }
    requires room { sheets.old.items ≡ [] }
    ensures pass { IsPassIn board.now formula.now settings.now pass.new }
    ensures rest { IsAtRest (account pass.new) }
    ensures arrivals { (account pass.new).arrivals ≡ past + 1 }
    ensures last { (account pass.new).number ≡ settings.now.cores }
    ensures sheets { result ≡ true → sheets.new.items ≡ sheets_at formula.now settings.now past }
{
    let mut fine = true;
    for from in 0..settings.cores {
        let sheet = take_sheet(board, pass, from, formula, settings, past);
        fine = keep(sheets, sheet, fine);
    }
    fine
}

/// Ends an era of which the scribe has all sheets. Where the log can't be written, or memory is refused, and the run goes on,
/// it keeps why, for the cores wait for it in the next era.
fn finish_era<O: Outputs>(
    alloc: Global,
    scribe: &mut Scribe,
    log: bool,
    outputs: &mut O,
    formula: &Formula,
    settings: &Settings,
    past: u32,
) -> Written
    requires era { IsEra formula.now settings.now past }
    requires sheets { scribe.old.sheets.items ≡ sheets_at formula.now settings.now past }
    requires logged { scribe.old.logged ≡ logged_before formula.now settings.now log past }
    requires runs { scribe.old.stop ≡ None }
    ensures pass { scribe.new.pass ≡ scribe.old.pass }
    ensures written { Concludes formula.now settings.now log past scribe.new result }
    ensures writes { (start : OutputsTold) → LogStands log formula.now settings.now past start (O.told outputs.old) None
        → LogLeft log formula.now settings.now past start (O.told outputs.new) scribe.new.stop result }
{
    let over = is_over(scribe.sheets.as_slice());
    match conclude(
        alloc,
        &mut scribe.logged,
        &mut scribe.sheets,
        log,
        formula,
        settings,
        past,
        outputs,
    ) {
        Ok(ended) => match ended {
            Some(outcome) => Written::Over(outcome),
            None => Written::GoesOn,
        },
        Err(why) => {
            if over {
                return Written::Stopped(why);
            }
            scribe.stop = Some(why);
            Written::GoesOn
        }
    }
}

/// The second half of an era: the scribe waits until all have arrived, takes the sheets, and writes the era's part of the log.
/// It may wait for ever.
pub(crate) fn scribe_receive<R: Wait, O: Outputs>(
    rt: &R,
    alloc: Global,
    board: &Board<Post>,
    scribe: &mut Scribe,
    log: bool,
    outputs: &mut O,
    formula: &Formula,
    settings: &Settings,
    past: u32,
) -> Written
    requires era { IsEra formula.now settings.now past }
    requires sent { ScribeSent board.now formula.now settings.now log past scribe.old }
    ensures receives { ScribeReceives board.now formula.now settings.now log past scribe.new result }
    ensures writes { (start : OutputsTold) → LogStands log formula.now settings.now past start (O.told outputs.old) scribe.old.stop
        → LogLeft log formula.now settings.now past start (O.told outputs.new) scribe.new.stop result }
{
    board.wait_ready(rt, &mut scribe.pass);
    scribe.sheets.clear();
    let fine = take_sheets(
        board,
        &mut scribe.pass,
        &mut scribe.sheets,
        formula,
        settings,
        past,
    );
    if let Some(why) = scribe.stop {
        return Written::Stopped(why);
    }
    if !fine {
        return Written::Stopped(Stop::NoMemory);
    }
    finish_era(alloc, scribe, log, outputs, formula, settings, past)
}
