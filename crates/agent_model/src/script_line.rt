//! Lines of scripts; docs/PROFILE.md, section 5.

use std::marker::Model;
use term_values::Bytes;

/// A line of a script. Associations are numbered from 1, in the order of the lines that open them.
#[derive(Drop)]
pub enum ScriptLine {
    /// The time of what follows, in seconds since 1970.
    At(u64),
    /// A further association is asked for by this BIND.
    Open(Bytes),
    /// This association sends this APDU.
    Send(u64, Bytes),
    /// This association ends.
    End(u64),
}

/// The lines of a script in their order.
#[derive(Drop)]
pub struct ScriptLines {
    /// The first line of the text stands first.
    pub items: Vec<ScriptLine>,
}

impl Model for ScriptLines {
    ghost use Rattle.std.specs.Prelude.{List};
    ghost use Rattle.agent_model.specs.declared.script_line.ScriptLine.{ScriptLine};

    ghost Value = { List ScriptLine };

    ghost view = { λ lines. lines.items.items };
}
