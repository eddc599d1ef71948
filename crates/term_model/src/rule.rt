//! What actions do to the objects of a class: RULES sections, which are this project's own.

use std::marker::Model;
use term_values::{Oid, Value};

/// One step of a rule.
#[derive(Drop)]
pub enum RuleStep {
    /// SET attribute TO ARGUMENT
    SetArgument(Oid),
    /// SET attribute TO value
    SetValue(Oid, Value),
    /// ADD number TO attribute
    Add(u64, Oid),
    /// EMIT notification, with its information where there is one
    Emit(Oid, Option<Value>),
    /// REPLY ARGUMENT
    ReplyArgument,
    /// REPLY attribute
    ReplyAttribute(Oid),
    /// REPLY value
    ReplyValue(Value),
}

/// The steps of a rule, in the order in which they act.
#[derive(Drop)]
pub struct RuleSteps {
    /// The steps.
    pub items: Vec<RuleStep>,
}

impl Model for RuleSteps {
    ghost use Rattle.std.specs.Prelude.{List};
    ghost use Rattle.std.specs.Coded.{codes};
    ghost use Rattle.term_values.specs.Typed.{value_code};
    ghost use Rattle.term_model.specs.declared.rule.RuleStep.{RuleStep};

    ghost Value = { List RuleStep };

    ghost coded = { Prim.hlevel (codes, value_code) };

    ghost view = { λ list. list.items.items };
}

/// What an action does to an object of a class.
#[derive(Drop)]
pub struct RuleRec {
    /// The identifier of the class.
    pub class: Oid,
    /// The identifier of the action.
    pub action: Oid,
    /// Its steps.
    pub steps: RuleSteps,
}

/// Rules in the order of their documents.
#[derive(Drop)]
pub struct RuleRecs {
    /// The records.
    pub items: Vec<RuleRec>,
}

impl Model for RuleRecs {
    ghost use Rattle.std.specs.Prelude.{List};
    ghost use Rattle.std.specs.Coded.{codes};
    ghost use Rattle.term_values.specs.Typed.{value_code};
    ghost use Rattle.term_model.specs.declared.rule.RuleRec.{RuleRec};

    ghost Value = { List RuleRec };

    ghost coded = { Prim.hlevel (codes, value_code) };

    ghost view = { λ list. list.items.items };
}
