//! The twelve lines of `check`: how many documents, templates of each kind, types and objects there are
//! (docs/OPERATING.md, Commands).

ghost use Rattle.std.specs.Prelude.{◌≡◌, ◌++◌, OnOk, codes};
ghost use Rattle.term_model.specs.LineTexts.{one_word};
ghost use Rattle.set_commands.specs.CountLines.{class_lines, count_lines, event_lines, first_lines, last_lines};
ghost use Rattle.set_commands.specs.CountLines.{member_lines, rest_lines};

use journal_text::texts::{LINE_FEED, write_decimal};
use std::alloc::AllocError;
use template_compile::Counts;

/// Appends a word, a number and the end of the line.
fn write_line(word: &[u8], number: u64, into: &mut Vec<u8>) -> Result<(), AllocError>
    ensures { OnOk result (into.new.items ≡ into.old.items ++ one_word word.now number) }
{
    into.extend_from_slice(word)?;
    write_decimal(number, into)?;
    into.push(LINE_FEED)?;
    Ok(())
}

fn write_class_lines(counts: &Counts, into: &mut Vec<u8>) -> Result<(), AllocError>
    ensures { OnOk result (into.new.items ≡ into.old.items ++ class_lines counts.now) }
{
    write_line(b"documents ", counts.documents, into)?;
    write_line(b"classes ", counts.classes, into)?;
    write_line(b"packages ", counts.packages, into)
}

fn write_member_lines(counts: &Counts, into: &mut Vec<u8>) -> Result<(), AllocError>
    ensures { OnOk result (into.new.items ≡ into.old.items ++ member_lines counts.now) }
{
    write_line(b"attributes ", counts.attributes, into)?;
    write_line(b"groups ", counts.groups, into)?;
    write_line(b"bindings ", counts.bindings, into)
}

fn write_first_lines(counts: &Counts, into: &mut Vec<u8>) -> Result<(), AllocError>
    ensures { OnOk result (into.new.items ≡ into.old.items ++ first_lines counts.now) }
{
    write_class_lines(counts, into)?;
    write_member_lines(counts, into)
}

fn write_event_lines(counts: &Counts, into: &mut Vec<u8>) -> Result<(), AllocError>
    ensures { OnOk result (into.new.items ≡ into.old.items ++ event_lines counts.now) }
{
    write_line(b"actions ", counts.actions, into)?;
    write_line(b"notifications ", counts.notifications, into)?;
    write_line(b"parameters ", counts.parameters, into)
}

fn write_rest_lines(counts: &Counts, objects: u64, into: &mut Vec<u8>) -> Result<(), AllocError>
    ensures { OnOk result (into.new.items ≡ into.old.items ++ rest_lines counts.now objects) }
{
    write_line(b"behaviours ", counts.behaviours, into)?;
    write_line(b"types ", counts.types, into)?;
    write_line(b"objects ", objects, into)
}

fn write_last_lines(counts: &Counts, objects: u64, into: &mut Vec<u8>) -> Result<(), AllocError>
    ensures { OnOk result (into.new.items ≡ into.old.items ++ last_lines counts.now objects) }
{
    write_event_lines(counts, into)?;
    write_rest_lines(counts, objects, into)
}

/// Appends the lines of `check`.
pub(crate) fn write_count_lines(
    counts: &Counts,
    objects: u64,
    into: &mut Vec<u8>,
) -> Result<(), AllocError>
    ensures { OnOk result (into.new.items ≡ into.old.items ++ count_lines counts.now objects) }
{
    write_first_lines(counts, into)?;
    write_last_lines(counts, objects, into)
}
