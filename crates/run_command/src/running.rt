//! A script that is played on the objects of compiled documents (docs/OPERATING.md, Commands).

ghost use Rattle.std.specs.Prelude.{◌≡◌, ◌≤◌, ◌<◌, ◌+◌, ◌^◌, ◌++◌, true, false, length, take, Ok, IfErr, IfOk, OnOk};
ghost use Rattle.agent_steps.specs.Asking.{has_unbuilt};
ghost use Rattle.bound_classes.specs.Behaviour.{has_behaviour};
ghost use Rattle.operation_model.specs.OperationConditions.{AreSmall};
ghost use Rattle.opening_laws.specs.Encodable.{IsEncodable};
ghost use Rattle.run_command.specs.RunCauses.{HasBehaviourCause, HasCause, HasCompilingCause, HasEndedCause};
ghost use Rattle.run_command.specs.RunCauses.{HasFullCause, HasOpeningCause, HasPlayCause, HasSchemaCause};
ghost use Rattle.run_command.specs.ScriptRuns.{AreCompiled, IsPlayedOn, IsRun, IsRunOf};
ghost use Rattle.term_model.specs.Opening.{opened};
ghost use Rattle.agent_model.specs.Texts.{journal_text, outs, separator};
ghost use Rattle.term_model.specs.WellFormedObjects.{AreGood};
ghost use Rattle.term_model.specs.WholeSet.{IsWhole};

use crate::refusal::{RunRefusal, of_compiling, of_opening};
use agent_model::Limits;
use agent_steps::Agent;
use bound_classes::has_behaviour;
use journal_text::texts::{text_of_run, write_journal};
use mib_opening::opening;
use mo_list::ListMib as Mib;
use opening_sizes::laws::opened_are_small;
use script_lines::read_script_text;
use script_playing::laws::objects_stay_good;
use script_playing::{Ending, Play, play_script};
use std::alloc::{AllocError, Global};
use std::marker::Brand;
use std::sync::ledger::{Blank, Ledger};
use template_compile::{Doc, compile_documents};
use term_model::{Set, StepLedger, Steps, Tally};

/// The schema to which documents are compiled.
fn compiled(alloc: Global, documents: &[Doc]) -> Result<Set, RunRefusal>
    requires few { length documents.now ≤ 64 }
    ensures compiled { IfOk result (AreCompiled documents.now) }
    ensures cause { IfErr result (HasCompilingCause documents.now) }
{
    match compile_documents(alloc, documents) {
        Ok(compiled) => Ok(compiled.schema),
        Err(refusal) => Err(of_compiling(&refusal)),
    }
}

/// The objects of a schema at the opening.
fn opened_objects<L: StepLedger>(
    alloc: Global,
    schema: &Set,
    steps: &mut Steps<L>,
) -> Result<Mib<L>, RunRefusal>
    ensures opened { IfOk result (λ objects. opened schema.now ≡ Ok objects) }
    ensures good { IfOk result (λ objects. IsWhole schema.now → IsEncodable schema.now → AreGood schema.now objects) }
    ensures cause { IfErr result (HasOpeningCause schema.now) }
{
    match opening(alloc, schema, steps) {
        Ok(objects) => Ok(objects),
        Err(refusal) => Err(of_opening(&refusal)),
    }
}

/// Refuses a schema some class of which has an action or a notification, or is one on which the agent acts.
fn require_no_behaviour(alloc: Global, schema: &Set) -> Result<(), RunRefusal>
    ensures calm { OnOk result (has_behaviour schema.now ≡ false) }
    ensures cause { IfErr result (HasBehaviourCause schema.now) }
{
    if has_behaviour(alloc, schema)? {
        return Err(RunRefusal::UnplayedDocument);
    }
    Ok(())
}

/// What `run` prints of a play.
fn text_of<L: StepLedger>(alloc: Global, play: &Play<L>) -> Result<Vec<u8>, AllocError>
    ensures { IfOk result (λ text. text.items
        ≡ journal_text play.now.journal ++ (separator ++ outs play.now.agent)) }
{
    let agent = play.agent();
    text_of_run(
        alloc,
        play.journal(),
        agent.associations(),
        agent.count_objects(),
    )
}

/// What `run` prints of a journal that is full, of which so many entries stand before the first one without room.
fn text_of_part<L: StepLedger>(
    alloc: Global,
    play: &Play<L>,
    place: u64,
) -> Result<Vec<u8>, AllocError>
    requires within { place < length play.now.journal }
    ensures { IfOk result (λ text. text.items ≡ journal_text (take place play.now.journal)) }
{
    let mut text = Vec::new(alloc);
    write_journal(alloc, &play.journal()[..place as usize], &mut text)?;
    Ok(text)
}

/// Refuses a play of a script of which a line breaks the form, or some request is of a kind that isn't carried out.
/// `is_whole`: no line of the script breaks the form; `count` lines stand before the first one that does.
fn require_carried_out<L: StepLedger>(
    play: &Play<L>,
    is_whole: bool,
    count: u64,
) -> Result<(), RunRefusal>
    requires few { count + 1 < 2 ^ 64 }
    ensures whole { OnOk result (is_whole ≡ true) }
    ensures built { OnOk result (has_unbuilt play.now.agent ≡ false) }
    ensures bad { IfErr result (HasEndedCause play.now.agent is_whole count) }
{
    if !is_whole {
        return Err(RunRefusal::BadScript { line: count + 1 });
    }
    if play.agent().has_unbuilt() {
        return Err(RunRefusal::UnplayedScript);
    }
    Ok(())
}

/// What `run` prints of a play to the end of a script whose journal has room for each entry.
fn ended_text<L: StepLedger>(
    alloc: Global,
    play: &Play<L>,
    is_whole: bool,
    count: u64,
) -> Result<Vec<u8>, RunRefusal>
    requires few { count + 1 < 2 ^ 64 }
    ensures text { IfOk result (λ text. (is_whole ≡ true) × (has_unbuilt play.now.agent ≡ false)
        × (text.items ≡ journal_text play.now.journal ++ (separator ++ outs play.now.agent))) }
    ensures bad { IfErr result (HasEndedCause play.now.agent is_whole count) }
{
    require_carried_out(play, is_whole, count)?;
    Ok(text_of(alloc, play)?)
}

/// The refusal of a play to the end of a script whose journal is full.
fn refusal_of_full<L: StepLedger>(
    alloc: Global,
    play: &Play<L>,
    place: u64,
    is_whole: bool,
    count: u64,
) -> RunRefusal
    requires few { count + 1 < 2 ^ 64 }
    requires within { place < length play.now.journal }
    ensures { HasFullCause play.now place is_whole count result }
{
    if let Err(refusal) = require_carried_out(play, is_whole, count) {
        return refusal;
    }
    match text_of_part(alloc, play, place) {
        Ok(text) => RunRefusal::JournalFull { text },
        Err(_) => RunRefusal::Memory,
    }
}

/// What `run` prints of the text of a script on the objects of a schema.
fn play_on<L: StepLedger + Drop>(
    alloc: Global,
    schema: Set,
    objects: Mib<L>,
    script: &[u8],
    steps: &mut Steps<L>,
) -> Result<Vec<u8>, RunRefusal>
    requires small { AreSmall schema objects }
    requires good { IsWhole schema → IsEncodable schema → AreGood schema objects }
    ensures text { IfOk result (λ text. IsPlayedOn schema objects script.now text.items) }
    ensures cause { IfErr result (HasPlayCause schema objects script.now) }
{
    let read = read_script_text(alloc, script)?;
    let count = read.lines.items.as_slice().len() as u64;
    let is_whole = read.is_whole;
    let agent = Agent::new(alloc, schema, Limits::shipped(), objects);
    objects_stay_good();
    match play_script(alloc, agent, read.lines, steps)? {
        Ending::Ended(play) => {
            let text = ended_text(alloc, &play, is_whole, count);
            drop(play);
            text
        }
        Ending::Full(play, place) => {
            let refusal = refusal_of_full(alloc, &play, place, is_whole, count);
            drop(play);
            Err(refusal)
        }
        Ending::Bad(line) => Err(RunRefusal::BadScript { line }),
    }
}

/// What `run` prints of the text of a script on a schema. The looks into the map of objects are counted on a ledger of
/// their own.
fn run_on<N: Ledger>(
    alloc: Global,
    schema: Set,
    script: &[u8],
    blank: Blank,
) -> Result<Vec<u8>, RunRefusal>
    requires name { blank.name ≡ N.name }
    requires parts { blank.parts ≡ N.parts }
    requires some { 0 < blank.parts }
    ensures text { IfOk result (λ text. IsRunOf schema script.now text.items) }
    ensures cause { IfErr result (HasSchemaCause schema script.now) }
{
    let mut steps = Steps::start(Tally::<N>::open(blank));
    let objects = opened_objects(alloc, &schema, &mut steps)?;
    require_no_behaviour(alloc, &schema)?;
    opened_are_small();
    play_on(alloc, schema, objects, script, &mut steps)
}

/// What `run` prints of the text of a script and 1 to 64 documents: the journal of the script on the objects of the
/// documents, a line of two dashes, a line `out A HEX` for each association and a line `objects N`.
///
/// `BadDocument` has the first fault of the documents, `BadInstance` the first instance that can't be opened.
/// `UnplayedDocument`: some class has an action or a notification, or the agent acts on it. `BadScript` has the first
/// line that breaks the form or whose condition does not hold. `UnplayedScript`: some request is of a kind that isn't
/// carried out yet. `JournalFull`: the journal has no room for some entry under its limits; what is printed of it then
/// is told. Of several of these the first one is told, in this order. `Memory`: there was none; it may stand in the
/// place of any of them.
pub fn run_text(alloc: Global, script: &[u8], documents: &[Doc]) -> Result<Vec<u8>, RunRefusal>
    requires few { length documents.now ≤ 64 }
    ensures text { IfOk result (λ text. IsRun script.now documents.now text.items) }
    ensures cause { IfErr result (HasCause script.now documents.now) }
{
    let schema = compiled(alloc, documents)?;
    run_on::<Brand>(alloc, schema, script, Blank::new(1))
}
