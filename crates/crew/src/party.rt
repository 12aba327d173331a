//! A core as a party of a board: what it does in an era.
//!
//! In the first half of an era it makes its stretch, puts its mail for each other core and its sheet for the scribe, and
//! arrives. In the second half it waits until all have arrived, takes the mails of the others and what the scribe says, and
//! goes on into the next era, unless the run is over.
//!
//! Where memory is refused to a party it puts `Post::Broken` for each other one, so that all end in the same era and nobody
//! waits for an arrival that doesn't come. What could be refused is therefore asked for before the first post is put.
ghost use Rattle.std.specs.Prelude.{◌≡◌, ◌≢◌, ℕ, ◌+◌, ◌<◌, true, false, All, IfOk, IfSome, OnOk, [], slice_index, slice_set, take};
ghost use Rattle.era_board.specs.Passes.{account};
ghost use Rattle.era_board.specs.Periods.{IsAtRest, HasSent, MayReceive};
ghost use Rattle.crew.specs.Era.{mail_at, sheet_left, is_over};
ghost use Rattle.crew.specs.Run.{HasEra, mails_at};
ghost use Rattle.crew.specs.Turns.{IsEra, AtMember, at_rest, begun, worked};
ghost use Rattle.crew.specs.Parties.{IsPassIn, IsLeft, PartyAt, PartySent, Decides, Receives};

use crate::era_mails::{is_over, largest_volume};
use crate::kept::keep;
use crate::order::is_go;
use crate::post::Post;
use crate::searcher::{Searcher, import_one, sheet_one, stretch_one};
use desk_io::Gate;
use era_board::{Board, Pass};
use lit_base::{Formula, NoMemory};
use solo_core::{Mail, Settings, Sheet};
use std::alloc::Global;
use std::sync::Wait;

/// A core and its pass.
#[derive(Drop)]
pub(crate) struct Party {
    pub(crate) searcher: Searcher,
    pub(crate) pass: Pass<Post>,
    /// Its own mail of the era, between its halves, unless memory was refused.
    pub(crate) own: Option<Mail>,
    /// Room for the mails of an era.
    pub(crate) mails: Vec<Mail>,
    /// Whether memory was refused before this era.
    pub(crate) is_broken: bool,
}

/// What a core leaves of an era.
#[derive(Drop)]
pub(crate) struct Left {
    pub(crate) own: Option<Mail>,
    pub(crate) copies: Vec<Mail>,
    pub(crate) sheet: Option<Sheet>,
}

/// How an era ends for a party.
#[derive(Clone, Copy, Debug, PartialEq, Eq)]
pub(crate) enum Step {
    /// The next era follows.
    GoesOn,
    /// The run is over.
    Over,
    /// Memory was refused to a party, or the scribe has stopped.
    Broken,
}

/// The mail of a core that has made its stretch, if it isn't broken.
fn mail_one(
    searcher: &Searcher,
    _core: u32,
    _formula: &Formula,
    _settings: &Settings,
    _past: u32,
) -> Result<Mail, NoMemory>
    requires within { _core < _settings.now.cores }
    requires worked { AtMember _formula.now _settings.now _past _core (λ m. searcher.now.core.is_broken ≡ false → searcher.now ≡ worked m) }
    ensures { IfOk result (λ mail. AtMember _formula.now _settings.now _past _core (λ m. mail ≡ mail_at m)) }
{
    searcher.core.post()
}

/// So many copies of the mail of a core that has made its stretch.
fn copies_of(
    alloc: Global,
    searcher: &Searcher,
    count: u32,
    core: u32,
    formula: &Formula,
    settings: &Settings,
    past: u32,
) -> Result<Vec<Mail>, NoMemory>
    requires within { core < settings.now.cores }
    requires worked { AtMember formula.now settings.now past core (λ m. searcher.now.core.is_broken ≡ false → searcher.now ≡ worked m) }
    ensures { IfOk result (λ mails. All (λ mail. AtMember formula.now settings.now past core (λ m. mail ≡ mail_at m)) mails.items) }
{
    let mut mails = Vec::with_capacity(alloc, count as usize)?;
    for _ in 0..count {
        mails.push(mail_one(searcher, core, formula, settings, past)?)?;
    }
    Ok(mails)
}

/// The stretch of an era that a core is at the start of.
fn stretch_at<G: Gate>(
    searcher: &mut Searcher,
    _core: u32,
    _formula: &Formula,
    _settings: &Settings,
    _past: u32,
    gate: &G,
)
    requires era { IsEra _formula.now _settings.now _past }
    requires within { _core < _settings.now.cores }
    requires begun { AtMember _formula.now _settings.now _past _core (λ m. searcher.old ≡ begun m) }
    ensures { AtMember _formula.now _settings.now _past _core (λ m. searcher.new.core.is_broken ≡ false → searcher.new ≡ worked m) }
{
    stretch_one(searcher, gate);
}

/// Makes the stretch of a core, and gives what it leaves of the era: its mail, as often as there are cores, and its sheet.
fn leave<G: Gate>(
    alloc: Global,
    searcher: &mut Searcher,
    core: u32,
    formula: &Formula,
    settings: &Settings,
    past: u32,
    gate: &G,
) -> Result<Left, NoMemory>
    requires era { IsEra formula.now settings.now past }
    requires within { core < settings.now.cores }
    requires begun { AtMember formula.now settings.now past core (λ m. searcher.old ≡ begun m) }
    ensures left { IfOk result (λ left. IsLeft formula.now settings.now past core left) }
    ensures rest { OnOk result (AtMember formula.now settings.now past core (λ m. searcher.new ≡ at_rest m)) }
{
    stretch_at(searcher, core, formula, settings, past, gate);
    let copies = copies_of(
        alloc,
        searcher,
        settings.cores - 1,
        core,
        formula,
        settings,
        past,
    )?;
    let own = mail_one(searcher, core, formula, settings, past)?;
    let sheet = sheet_one(searcher, core as usize, formula, settings, past)?;
    Ok(Left {
        own: Some(own),
        copies,
        sheet: Some(sheet),
    })
}

/// What a party leaves of an era: nothing where memory was refused, and then it is broken.
fn work<G: Gate>(
    alloc: Global,
    party: &mut Party,
    formula: &Formula,
    settings: &Settings,
    past: u32,
    gate: &G,
) -> Left
    requires era { IsEra formula.now settings.now past }
    requires within { (account party.old.pass).number < settings.now.cores }
    requires begun { party.old.is_broken ≡ false → AtMember formula.now settings.now past (account party.old.pass).number (λ m. party.old.searcher ≡ begun m) }
    ensures left { IsLeft formula.now settings.now past (account party.old.pass).number result }
    ensures rest { party.new.is_broken ≡ false → AtMember formula.now settings.now past (account party.old.pass).number (λ m. party.new.searcher ≡ at_rest m) }
    ensures pass { party.new.pass ≡ party.old.pass }
{
    if !party.is_broken {
        let core = party.pass.number();
        match leave(
            alloc,
            &mut party.searcher,
            core,
            formula,
            settings,
            past,
            gate,
        ) {
            Ok(left) => return left,
            Err(NoMemory) => party.is_broken = true,
        }
    }
    Left {
        own: None,
        copies: Vec::new(alloc),
        sheet: None,
    }
}

/// The next of the copies of a mail.
fn next_copy(
    copies: &mut Vec<Mail>,
    _core: u32,
    _formula: &Formula,
    _settings: &Settings,
    _past: u32,
) -> Option<Mail>
    requires { All (λ mail. AtMember _formula.now _settings.now _past _core (λ m. mail ≡ mail_at m)) copies.old.items }
    ensures rest { All (λ mail. AtMember _formula.now _settings.now _past _core (λ m. mail ≡ mail_at m)) copies.new.items }
    ensures mail { IfSome result (λ mail. AtMember _formula.now _settings.now _past _core (λ m. mail ≡ mail_at m)) }
{
    copies.pop()
}

/// Puts a core's mail for another one, or `Broken` where there is none.
fn put_mail(
    board: &Board<Post>,
    pass: &mut Pass<Post>,
    to: u32,
    mail: Option<Mail>,
    _formula: &Formula,
    _settings: &Settings,
    _past: u32,
)
    requires has { HasEra _formula.now _settings.now _past }
    requires pass { IsPassIn board.now _formula.now _settings.now pass.old }
    requires core { (account pass.old).number < _settings.now.cores }
    requires other { (to < _settings.now.cores) × (to ≢ (account pass.old).number) }
    requires arrivals { ((account pass.old).arrivals ≡ _past) × ((account pass.old).known ≡ _past) }
    requires not_yet { slice_index (account pass.old).laid to ≡ _past }
    requires mail { IfSome mail (λ mail. AtMember _formula.now _settings.now _past (account pass.old).number (λ m. mail ≡ mail_at m)) }
    ensures pass { IsPassIn board.now _formula.now _settings.now pass.new }
    ensures account { account pass.new ≡ record (account pass.old) { laid = slice_set (account pass.old).laid to (_past + 1) } }
{
    let post = match mail {
        Some(mail) => Post::Mail(mail),
        None => Post::Broken,
    };
    board.put(pass, to, post);
}

/// Puts a copy of a core's mail for each other one, and `Broken` where none is left.
fn put_mails(
    board: &Board<Post>,
    pass: &mut Pass<Post>,
    copies: &mut Vec<Mail>,
    formula: &Formula,
    settings: &Settings,
    past: u32,
)
    requires has { HasEra formula.now settings.now past }
    requires pass { IsPassIn board.now formula.now settings.now pass.old }
    requires core { (account pass.old).number < settings.now.cores }
    requires rest { IsAtRest (account pass.old) }
    requires arrivals { (account pass.old).arrivals ≡ past }
    requires copies { All (λ mail. AtMember formula.now settings.now past (account pass.old).number (λ m. mail ≡ mail_at m)) copies.old.items }
    ensures pass { IsPassIn board.now formula.now settings.now pass.new }
    ensures account { account pass.new ≡ record (account pass.old) { laid = (account pass.new).laid } }
    ensures laid { (to : ℕ) → to < settings.now.cores → to ≢ (account pass.old).number → slice_index (account pass.new).laid to ≡ past + 1 }
    ensures last { slice_index (account pass.new).laid settings.now.cores ≡ past }
{
    let core = pass.number();
    for to in 0..settings.cores {
        if to != core {
            let mail = next_copy(copies, core, formula, settings, past);
            put_mail(board, pass, to, mail, formula, settings, past);
        }
    }
}

/// Puts a core's sheet for the scribe, or `Broken` where there is none, and arrives.
fn put_sheet(
    board: &Board<Post>,
    pass: &mut Pass<Post>,
    sheet: Option<Sheet>,
    _formula: &Formula,
    settings: &Settings,
    _past: u32,
)
    requires era { IsEra _formula.now settings.now _past }
    requires pass { IsPassIn board.now _formula.now settings.now pass.old }
    requires core { (account pass.old).number < settings.now.cores }
    requires arrivals { ((account pass.old).arrivals ≡ _past) × ((account pass.old).known ≡ _past) }
    requires laid { (to : ℕ) → to < settings.now.cores → to ≢ (account pass.old).number → slice_index (account pass.old).laid to ≡ _past + 1 }
    requires not_yet { slice_index (account pass.old).laid settings.now.cores ≡ _past }
    requires taken { (from : ℕ) → from < settings.now.cores + 1 → from ≢ (account pass.old).number → slice_index (account pass.old).taken from ≡ _past }
    requires sheet { IfSome sheet (λ sheet. AtMember _formula.now settings.now _past (account pass.old).number (λ m. sheet ≡ sheet_left m)) }
    ensures pass { IsPassIn board.now _formula.now settings.now pass.new }
    ensures sent { HasSent (account pass.new) }
    ensures arrivals { (account pass.new).arrivals ≡ _past + 1 }
    ensures number { (account pass.new).number ≡ (account pass.old).number }
{
    let post = match sheet {
        Some(sheet) => Post::Sheet(sheet),
        None => Post::Broken,
    };
    board.put(pass, settings.cores, post);
    board.arrive(pass);
}

/// The first half of an era: the stretch, the mails for the others, the sheet for the scribe, and the arrival.
pub(crate) fn send<G: Gate>(
    alloc: Global,
    board: &Board<Post>,
    party: &mut Party,
    formula: &Formula,
    settings: &Settings,
    past: u32,
    gate: &G,
)
    requires era { IsEra formula.now settings.now past }
    requires party { PartyAt board.now formula.now settings.now past party.old }
    ensures sent { PartySent board.now formula.now settings.now past party.new }
    ensures number { (account party.new.pass).number ≡ (account party.old.pass).number }
{
    let mut left = work(alloc, party, formula, settings, past, gate);
    put_mails(
        board,
        &mut party.pass,
        &mut left.copies,
        formula,
        settings,
        past,
    );
    put_sheet(board, &mut party.pass, left.sheet, formula, settings, past);
    party.own = left.own;
}

/// The mail of a core in an era: the own one, or what another one has put; none where memory was refused to it.
fn take_mail(
    board: &Board<Post>,
    pass: &mut Pass<Post>,
    own: &mut Option<Mail>,
    from: u32,
    _formula: &Formula,
    _settings: &Settings,
    _past: u32,
) -> Option<Mail>
    requires pass { IsPassIn board.now _formula.now _settings.now pass.old }
    requires from { from < _settings.now.cores }
    requires arrivals { ((account pass.old).arrivals ≡ _past + 1) × ((account pass.old).known ≡ _past + 1) }
    requires not_yet { from ≢ (account pass.old).number → slice_index (account pass.old).taken from ≡ _past }
    requires own { IfSome own.old (λ mail. AtMember _formula.now _settings.now _past (account pass.old).number (λ m. mail ≡ mail_at m)) }
    ensures pass { IsPassIn board.now _formula.now _settings.now pass.new }
    ensures account { account pass.new ≡ record (account pass.old) { taken = (account pass.new).taken } }
    ensures taken { from ≢ (account pass.old).number → slice_index (account pass.new).taken from ≡ _past + 1 }
    ensures rest { (j : ℕ) → j ≢ from → slice_index (account pass.new).taken j ≡ slice_index (account pass.old).taken j }
    ensures own { IfSome own.new (λ mail. AtMember _formula.now _settings.now _past (account pass.old).number (λ m. mail ≡ mail_at m)) }
    ensures mail { IfSome result (λ mail. AtMember _formula.now _settings.now _past from (λ m. mail ≡ mail_at m)) }
{
    if from == pass.number() {
        return own.take();
    }
    match board.take(pass, from) {
        Post::Mail(mail) => Some(mail),
        Post::Sheet(_) | Post::Go | Post::Halt | Post::Broken => None,
    }
}

/// Takes the mails of an era, and says whether all are there.
fn take_mails(
    board: &Board<Post>,
    pass: &mut Pass<Post>,
    own: &mut Option<Mail>,
    mails: &mut Vec<Mail>,
    formula: &Formula,
    settings: &Settings,
    past: u32,
) -> bool
    requires pass { IsPassIn board.now formula.now settings.now pass.old }
    requires ready { MayReceive (account pass.old) }
    requires arrivals { (account pass.old).arrivals ≡ past + 1 }
    requires own { IfSome own.old (λ mail. AtMember formula.now settings.now past (account pass.old).number (λ m. mail ≡ mail_at m)) }
    requires room { mails.old.items ≡ [] }
    ensures pass { IsPassIn board.now formula.now settings.now pass.new }
    ensures account { account pass.new ≡ record (account pass.old) { taken = (account pass.new).taken } }
    ensures taken { (j : ℕ) → j < settings.now.cores → j ≢ (account pass.old).number → slice_index (account pass.new).taken j ≡ past + 1 }
    ensures last { slice_index (account pass.new).taken settings.now.cores ≡ slice_index (account pass.old).taken settings.now.cores }
    ensures mails { result ≡ true → mails.new.items ≡ mails_at formula.now settings.now past }
{
    let mut fine = true;
    for from in 0..settings.cores {
        let mail = take_mail(board, pass, own, from, formula, settings, past);
        fine = keep(mails, mail, fine);
    }
    fine
}

/// Takes what the scribe says to a core that has taken all mails, and gives whether it goes on.
fn take_order(
    board: &Board<Post>,
    pass: &mut Pass<Post>,
    _formula: &Formula,
    settings: &Settings,
    _past: u32,
) -> bool
    requires pass { IsPassIn board.now _formula.now settings.now pass.old }
    requires core { (account pass.old).number < settings.now.cores }
    requires arrivals { ((account pass.old).arrivals ≡ _past + 1) × ((account pass.old).known ≡ _past + 1) }
    requires laid { (to : ℕ) → to < settings.now.cores + 1 → to ≢ (account pass.old).number → slice_index (account pass.old).laid to ≡ _past + 1 }
    requires taken { (j : ℕ) → j < settings.now.cores → j ≢ (account pass.old).number → slice_index (account pass.old).taken j ≡ _past + 1 }
    requires not_yet { slice_index (account pass.old).taken settings.now.cores ≡ _past }
    ensures pass { IsPassIn board.now _formula.now settings.now pass.new }
    ensures rest { IsAtRest (account pass.new) }
    ensures arrivals { (account pass.new).arrivals ≡ _past + 1 }
    ensures number { (account pass.new).number ≡ (account pass.old).number }
{
    let order = board.take(pass, settings.cores);
    is_go(&order)
}

/// Ends an era of which a party has all mails: it imports what the others posted, unless the run is over.
fn decide(party: &mut Party, formula: &Formula, settings: &Settings, past: u32) -> Step
    requires era { IsEra formula.now settings.now past }
    requires core { (account party.old.pass).number < settings.now.cores }
    requires mails { party.old.mails.items ≡ mails_at formula.now settings.now past }
    requires rest { AtMember formula.now settings.now past (account party.old.pass).number (λ m. party.old.searcher ≡ at_rest m) }
    ensures pass { party.new.pass ≡ party.old.pass }
    ensures step { Decides formula.now settings.now past party.new result }
{
    if is_over(party.mails.as_slice()) {
        return Step::Over;
    }
    let largest = largest_volume(party.mails.as_slice());
    let place = party.pass.number() as usize;
    if import_one(
        &mut party.searcher,
        &mut party.mails,
        place,
        largest,
        formula,
        settings,
        past,
    )
    .is_err()
    {
        party.is_broken = true;
    }
    Step::GoesOn
}

/// The second half of an era: the party waits until all have arrived, takes what they have put for it, and goes on, unless the
/// run is over. It may wait for ever.
pub(crate) fn receive<R: Wait>(
    rt: &R,
    board: &Board<Post>,
    party: &mut Party,
    formula: &Formula,
    settings: &Settings,
    past: u32,
) -> Step
    requires era { IsEra formula.now settings.now past }
    requires party { PartySent board.now formula.now settings.now past party.old }
    ensures receives { Receives board.now formula.now settings.now past party.new result }
    ensures number { (account party.new.pass).number ≡ (account party.old.pass).number }
{
    board.wait_ready(rt, &mut party.pass);
    party.mails.clear();
    let fine = take_mails(
        board,
        &mut party.pass,
        &mut party.own,
        &mut party.mails,
        formula,
        settings,
        past,
    );
    let goes_on = take_order(board, &mut party.pass, formula, settings, past);
    if !fine || !goes_on || party.is_broken {
        return Step::Broken;
    }
    decide(party, formula, settings, past)
}
