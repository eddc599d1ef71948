//! What holds of the text of each script (docs/PROFILE.md, section 5).

ghost use Rattle.script_lines.specs.ScriptText.{FirstLinesAreOne};

/// A text has one list of first lines and one rest, since no line's text begins another's. Does nothing.
pub fn first_lines_are_one()
    ensures one { FirstLinesAreOne }
{}
