//! What an operation will install, answer and report: X.711, section 7; docs/PROFILE.md, section 17.

ghost use Rattle.std.specs.Prelude.{◌≡◌, ◌∷◌, ◌++◌, [], IfOk, IfSome, map, true};
ghost use Rattle.term_model.specs.declared.reply.Reply.TheVariants as reply;
ghost use Rattle.op_engine.specs.Acting.{act_of};
ghost use Rattle.operation_model.specs.LinkedReplies.{linked_reply};
ghost use Rattle.operation_model.specs.OperationChecks.{checked};
ghost use Rattle.op_engine.specs.Planning.{empty_plan, plan_of, plan_within, refused_plan};
ghost use Rattle.operation_model.specs.OperationConditions.{AreSmall, HasValidFilter, has_valid_filter};
ghost use Rattle.op_engine.specs.Plans.{IsPlan};
ghost use Rattle.operation_model.specs.WholeOperation.{AreChanges, acted, is_base_object, listed, one_reply};
ghost use Rattle.operation_model.specs.WholeOperation.{outcome, replies_to};

use crate::acting::{Acting, act_on_all, is_atomic, settled};
use crate::checks::checked;
use crate::linking::{linked_reply, replies_size};
use crate::outcome::{Plan, Replies};
use result_contents::errors::complexity_limitation;
use scope_select::Subtrees;
use std::alloc::{AllocError, Global};
use term_model::scope::BASE_OBJECT;
use term_model::{
    CmisError, Head, Ids, OneRefusal, Patch, Reply, Request, Scope, Set, Sources, StepLedger, Steps,
};

/// The most octets that the replies of one operation may have: results, linked replies' arguments and parameters.
pub const MOST_REPLIES: u64 = 4_194_304;

/// The number of getResult in LinkedReply.
const GET_RESULT: u8 = 0;

/// The number of setResult in LinkedReply.
const SET_RESULT: u8 = 2;

/// No reply, with nothing changed.
fn empty_plan(alloc: Global) -> Plan
    ensures { result ≡ empty_plan }
{
    Plan {
        changes: Patch {
            items: Vec::new(alloc),
        },
        replies: Replies {
            items: Vec::new(alloc),
        },
        sources: Sources {
            items: Vec::new(alloc),
        },
    }
}

/// An error alone, with nothing changed.
fn refused_plan(alloc: Global, error: CmisError) -> Result<Plan, AllocError>
    ensures { IfOk result (λ plan. plan ≡ refused_plan error) }
{
    let mut plan = empty_plan(alloc);
    plan.replies.items.push(Reply::Error(error))?;
    Ok(plan)
}

/// Whether the scope is baseObject.
fn is_base_object(scope: &Scope) -> bool
    ensures { result ≡ is_base_object scope.now }
{
    match scope {
        Scope::Plain(number) => *number == BASE_OBJECT,
        Scope::Level(_) => false,
        Scope::Upto(_) => false,
    }
}

/// The one reply of an operation on the base object alone.
fn one_reply(mut answers: Replies) -> Result<Replies, AllocError>
    ensures { IfOk result (λ replies. replies ≡ one_reply answers) }
{
    if answers.items.is_empty() {
        answers.items.push(Reply::Empty)?;
    }
    Ok(answers)
}

/// A linked reply for each answer, and behind them the empty result.
fn linked_replies(alloc: Global, number: u8, answers: Replies) -> Result<Replies, AllocError>
    ensures { IfOk result (λ replies. replies ≡ map (linked_reply number) answers
        ++ reply.Empty ∷ []) }
{
    let mut linked = Vec::new(alloc);
    for answer in answers.items {
        linked.push(linked_reply(alloc, number, answer)?)?;
    }
    linked.push(Reply::Empty)?;
    Ok(Replies { items: linked })
}

/// What is answered where these are the answers of the objects.
fn replies_to(
    alloc: Global,
    scope: &Scope,
    number: u8,
    answers: Replies,
) -> Result<Replies, AllocError>
    ensures { IfOk result (λ replies. replies ≡ replies_to scope.now number answers) }
{
    if is_base_object(scope) {
        one_reply(answers)
    } else {
        linked_replies(alloc, number, answers)
    }
}

/// The plan, or complexityLimitation with nothing changed where its replies are too long.
fn plan_within(alloc: Global, plan: Plan) -> Result<Plan, AllocError>
    ensures { IfOk result (λ found. found ≡ plan_within plan) }
{
    if replies_size(plan.replies.items.as_slice()) > MOST_REPLIES {
        return refused_plan(alloc, complexity_limitation());
    }
    Ok(plan)
}

/// The plan where these are the changes and the answers of the objects.
fn plan_of(alloc: Global, scope: &Scope, number: u8, made: Acting) -> Result<Plan, AllocError>
    ensures { IfOk result (λ plan. plan ≡ plan_of scope.now number made) }
{
    let replies = replies_to(alloc, scope, number, made.replies)?;
    plan_within(
        alloc,
        Plan {
            changes: made.changes,
            replies,
            sources: made.sources,
        },
    )
}

/// How many identifiers are listed.
fn listed(ids: &Option<Ids>) -> usize
    ensures { result ≡ listed ids.now }
{
    match ids {
        None => 0,
        Some(ids) => ids.items.as_slice().len(),
    }
}

/// The plan of an operation on objects that its scope and filter select. `count` is the length of its list of
/// identifiers or modifications, and `number` that of its results in LinkedReply.
fn plan_scoped<L: StepLedger, M: Subtrees<L>>(
    alloc: Global,
    schema: &Set,
    mib: &M,
    request: &Request,
    head: &Head,
    count: usize,
    number: u8,
    time: u64,
    steps: &mut Steps<L>,
) -> Result<Plan, AllocError>
    requires small { AreSmall schema.now (M.objects mib.now) }
    requires valid { has_valid_filter schema.now head.now.filter ≡ true }
    ensures { IfOk result (IsPlan (M.objects mib.now) (acted (M.objects mib.now) head.now number
        (act_of schema.now request.now time) (checked schema.now (M.objects mib.now) head.now count))) }
{
    match checked(alloc, schema, mib, head, count, steps) {
        Ok(entries) => {
            let made = act_on_all(
                alloc,
                schema,
                request,
                time,
                is_atomic(head),
                entries.as_slice(),
            )?;
            plan_of(alloc, &head.scope, number, settled(alloc, made))
        }
        Err(OneRefusal::Cmis(error)) => refused_plan(alloc, error),
        Err(OneRefusal::Memory) => Err(AllocError),
    }
}

/// What a request, granted at a moment in seconds since 1970, will install in the map of objects, answer and report.
/// So far that is said of m-Get and m-Set alone: of another request's plan the clauses say nothing, and the agent asks
/// for none.
///
/// The checks are tried in the order of [`checked`]. With the scope baseObject there is one reply, an empty result
/// where the filter refuses the base object. With another one each selected object has a linked reply, by the order of
/// names, and an empty result follows. By best effort the operation is done on each object; atomically on all of them,
/// or, where it fails on one, nothing is changed and the failing objects' errors alone are answered. Where the replies
/// have more than 4 MiB, complexityLimitation is answered and nothing is changed.
///
/// Each object must be at most 16,384 octets long, and the filter valid under the schema, as those of an agent are.
pub fn plan_request<L: StepLedger, M: Subtrees<L>>(
    alloc: Global,
    schema: &Set,
    mib: &M,
    request: &Request,
    time: u64,
    steps: &mut Steps<L>,
) -> Result<Plan, AllocError>
    requires small { AreSmall schema.now (M.objects mib.now) }
    requires valid { HasValidFilter schema.now request.now }

    // what is answered, what may give notifications
    ensures replies { IfOk result (λ plan. IfSome (outcome schema.now (M.objects mib.now) request.now time)
        (λ told. plan.replies ≡ told.replies)) }
    ensures sources { IfOk result (λ plan. IfSome (outcome schema.now (M.objects mib.now) request.now time)
        (λ told. plan.sources ≡ told.sources)) }

    // each name at which the map is another one afterwards, once, by rising name
    ensures changes { IfOk result (λ plan. IfSome (outcome schema.now (M.objects mib.now) request.now time)
        (λ told. AreChanges (M.objects mib.now) told.objects plan.changes)) }
{
    match request {
        Request::Get { head, ids } => plan_scoped(
            alloc,
            schema,
            mib,
            request,
            head,
            listed(ids),
            GET_RESULT,
            time,
            steps,
        ),
        Request::Set {
            head,
            changes,
            confirmed: _,
        } => {
            let count = changes.items.as_slice().len();
            plan_scoped(
                alloc, schema, mib, request, head, count, SET_RESULT, time, steps,
            )
        }
        _ => Ok(empty_plan(alloc)),
    }
}
