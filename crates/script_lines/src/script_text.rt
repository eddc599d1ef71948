//! The text of a script, read in lines from its front; docs/PROFILE.md, section 5.

ghost use Rattle.std.specs.Prelude.{◌≡◌, ◌↔◌, ℕ, List, [], IfOk, IsTrue};
ghost use Rattle.script_lines.specs.ScriptText.{AreFirstLines};

use crate::line_parts::split_at;
use crate::line_reading::read_line;
use agent_model::ScriptLines;
use std::alloc::{AllocError, Global};

/// The byte that ends each line.
const LINE_FEED: u8 = 10;

/// The first lines of a text.
#[derive(Drop)]
pub struct ScriptText {
    /// The lines up to the first that is not in the form, or all.
    pub lines: ScriptLines,
    /// Whether the text ends behind them. Where it does not, the line behind them is the first that is not in the form.
    pub is_whole: bool,
}

/// The lines at the front of a text, up to the first that is not in the form: `at T`, `open HEX`, `send A HEX` or
/// `end A`, each with a line feed behind it. Numbers are decimal, below 2^64, without a sign and without zeros before
/// them; HEX is 1 to 1,048,576 octets in capital digits. A text of no bytes has no lines and is whole.
pub fn read_script_text(alloc: Global, text: &[u8]) -> Result<ScriptText, AllocError>
    // The lines and a rest that begins with no line, which is empty where the text is whole.
    ensures lines { IfOk result (λ read. (rest : List ℕ) × AreFirstLines text.now read.lines rest
        × (IsTrue read.is_whole ↔ (rest ≡ []))) }
{
    let mut items = Vec::new(alloc);
    let mut rest = text;
    while let Some((words, others)) = split_at(rest, LINE_FEED) {
        match read_line(alloc, words)? {
            Some(line) => {
                items.push(line)?;
                rest = others;
            }
            None => return Ok(ScriptText {
                lines: ScriptLines { items },
                is_whole: false,
            }),
        }
    }
    Ok(ScriptText {
        lines: ScriptLines { items },
        is_whole: rest.is_empty(),
    })
}
