//! What an operation will install, answer and report: docs/PROFILE.md, section 17.

use std::marker::Model;
use term_model::{Patch, Reply, Sources};

/// Replies in the order in which they are sent.
#[derive(Drop)]
pub struct Replies {
    /// The replies.
    pub items: Vec<Reply>,
}

impl Model for Replies {
    ghost use Rattle.std.specs.Prelude.{List};
    ghost use Rattle.term_model.specs.declared.reply.Reply.{Reply};

    ghost Value = { List Reply };

    ghost view = { λ replies. replies.items.items };
}

/// What an operation will install; its write set.
#[derive(Drop)]
pub struct Plan {
    /// Each name at which the map of objects changes, once, by rising name.
    pub changes: Patch,
    /// What is answered.
    pub replies: Replies,
    /// The changes that may give notifications, in their order.
    pub sources: Sources,
}
