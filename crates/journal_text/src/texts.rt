//! The texts that `run` prints: a line for each entry of the journal, two dashes, and what the journal comes to.

ghost use Rattle.std.specs.Prelude.{◌≡◌, ◌∷◌, ◌++◌, IfOk, OnOk, codes, decimal};
ghost use Rattle.hex.specs.Hex.{encode_upper};
ghost use Rattle.term_model.specs.LineTexts.{line_feed, two_words, one_word};
ghost use Rattle.agent_model.specs.Texts.{cause_text, placed_text, line, journal_text};
ghost use Rattle.agent_model.specs.Texts.{out_lines, objects_line, outs, separator};
ghost use Rattle.agent_model.specs.declared.entry.Entry.TheVariants as Entry;

use crate::log_names::log_name;
use agent_model::{AgentState, Association, Entry, Why};
use itoa::Buffer;
use std::alloc::{AllocError, Global};
use term_model::Name;

/// The byte that ends each line.
pub const LINE_FEED: u8 = 10;

/// The line between the journal and what it comes to.
const SEPARATOR: &[u8] = b"--\n";

/// Appends a number in decimal digits, without leading zeros.
pub fn write_decimal(number: u64, into: &mut Vec<u8>) -> Result<(), AllocError>
    ensures { OnOk result (into.new.items ≡ into.old.items ++ decimal number) }
{
    let mut buffer = Buffer::new();
    into.extend_from_slice(buffer.format(number).as_bytes())
}

fn write_hex(alloc: Global, octets: &[u8], into: &mut Vec<u8>) -> Result<(), AllocError>
    ensures { OnOk result (into.new.items ≡ into.old.items ++ encode_upper octets.now) }
{
    let text = hex::encode_upper(alloc, octets)?;
    into.extend_from_slice(text.as_bytes())
}

fn write_number_and_hex(
    alloc: Global,
    word: &[u8],
    number: u64,
    octets: &[u8],
    into: &mut Vec<u8>,
) -> Result<(), AllocError>
    ensures { OnOk result (into.new.items ≡ into.old.items ++ two_words word.now number (encode_upper octets.now)) }
{
    into.extend_from_slice(word)?;
    write_decimal(number, into)?;
    into.extend_from_slice(b" ")?;
    write_hex(alloc, octets, into)?;
    into.push(LINE_FEED)?;
    Ok(())
}

fn write_two_numbers(
    word: &[u8],
    number: u64,
    second: u64,
    into: &mut Vec<u8>,
) -> Result<(), AllocError>
    ensures { OnOk result (into.new.items ≡ into.old.items ++ two_words word.now number (decimal second)) }
{
    into.extend_from_slice(word)?;
    write_decimal(number, into)?;
    into.extend_from_slice(b" ")?;
    write_decimal(second, into)?;
    into.push(LINE_FEED)?;
    Ok(())
}

fn write_number(word: &[u8], number: u64, into: &mut Vec<u8>) -> Result<(), AllocError>
    ensures { OnOk result (into.new.items ≡ into.old.items ++ one_word word.now number) }
{
    into.extend_from_slice(word)?;
    write_decimal(number, into)?;
    into.push(LINE_FEED)?;
    Ok(())
}

fn write_cause(cause: &Why, into: &mut Vec<u8>) -> Result<(), AllocError>
    ensures { OnOk result (into.new.items ≡ into.old.items ++ cause_text cause.now) }
{
    match cause {
        Why::End => into.extend_from_slice(b"end"),
        Why::BadFrame(at) => {
            into.extend_from_slice(b"badframe ")?;
            write_decimal(*at, into)
        }
        Why::ReadFault => into.extend_from_slice(b"readfault"),
        Why::WriteFault => into.extend_from_slice(b"writefault"),
        Why::JournalFull => into.extend_from_slice(b"journalfull"),
        Why::Memory => into.extend_from_slice(b"memory"),
    }
}

fn write_closed(number: u64, cause: &Why, into: &mut Vec<u8>) -> Result<(), AllocError>
    ensures { OnOk result (into.new.items ≡ into.old.items
        ++ two_words (codes "closed ") number (cause_text cause.now)) }
{
    into.extend_from_slice(b"closed ")?;
    write_decimal(number, into)?;
    into.extend_from_slice(b" ")?;
    write_cause(cause, into)?;
    into.push(LINE_FEED)?;
    Ok(())
}

fn write_begun(alloc: Global, number: u64, log: &Name, into: &mut Vec<u8>) -> Result<(), AllocError>
    ensures { OnOk result (into.new.items ≡ into.old.items ++ line (Entry.Begun number log.now)) }
{
    let octets = log_name(alloc, log.parts.as_slice())?;
    write_number_and_hex(alloc, b"begun ", number, octets.as_slice(), into)
}

/// Appends the line of an entry.
pub fn write_entry(alloc: Global, entry: &Entry, into: &mut Vec<u8>) -> Result<(), AllocError>
    ensures { OnOk result (into.new.items ≡ into.old.items ++ line entry.now) }
{
    match entry {
        Entry::Opened(number, bind) => write_number_and_hex(
            alloc,
            b"opened ",
            *number,
            bind.as_slice(),
            into,
        ),
        Entry::Arrived(number, apdu) => write_number_and_hex(
            alloc,
            b"arrived ",
            *number,
            apdu.as_slice(),
            into,
        ),
        Entry::Begun(number, log) => write_begun(alloc, *number, log, into),
        Entry::Granted(number, moment) => write_two_numbers(b"granted ", *number, *moment, into),
        Entry::Committed(number) => write_number(b"committed ", *number, into),
        Entry::Starved(number) => write_number(b"starved ", *number, into),
        Entry::Taken(number, count) => write_two_numbers(b"taken ", *number, *count, into),
        Entry::Finished(number) => write_number(b"finished ", *number, into),
        Entry::Closed(number, cause) => write_closed(*number, cause, into),
    }
}

/// Appends a line for each entry.
pub fn write_journal(alloc: Global, journal: &[Entry], into: &mut Vec<u8>) -> Result<(), AllocError>
    ensures { OnOk result (into.new.items ≡ into.old.items ++ journal_text journal.now) }
{
    for entry in journal {
        write_entry(alloc, entry, into)?;
    }
    Ok(())
}

fn write_out_line(
    alloc: Global,
    number: u64,
    association: &Association,
    into: &mut Vec<u8>,
) -> Result<(), AllocError>
    ensures { OnOk result (into.new.items ≡ into.old.items
        ++ two_words (codes "out ") number (placed_text association.now.placed)) }
{
    let placed = association.placed.as_slice();
    into.extend_from_slice(b"out ")?;
    write_decimal(number, into)?;
    into.extend_from_slice(b" ")?;
    if placed.is_empty() {
        into.extend_from_slice(b"-")?;
    } else {
        write_hex(alloc, placed, into)?;
    }
    into.push(LINE_FEED)?;
    Ok(())
}

/// Appends a line for each of the associations, in the order of their numbers from 1 on.
fn write_out_lines(
    alloc: Global,
    associations: &[Association],
    into: &mut Vec<u8>,
) -> Result<(), AllocError>
    ensures { OnOk result (into.new.items ≡ into.old.items ++ out_lines 1 associations.now) }
{
    for (place, association) in associations.iter().enumerate() {
        write_out_line(alloc, place as u64 + 1, association, into)?;
    }
    Ok(())
}

/// Appends a line for each association, and one for the number of objects.
pub fn write_all_outs(
    alloc: Global,
    associations: &[Association],
    objects: u64,
    into: &mut Vec<u8>,
) -> Result<(), AllocError>
    ensures { OnOk result (into.new.items
        ≡ into.old.items ++ (out_lines 1 associations.now ++ objects_line objects)) }
{
    write_out_lines(alloc, associations, into)?;
    write_number(b"objects ", objects, into)
}

/// Appends what was placed for each association of an agent, and how many objects it has.
pub fn write_outs(alloc: Global, agent: &AgentState, into: &mut Vec<u8>) -> Result<(), AllocError>
    ensures { OnOk result (into.new.items ≡ into.old.items ++ outs agent.now) }
{
    let associations = agent.associations.items.as_slice();
    write_all_outs(
        alloc,
        associations,
        agent.objects.as_slice().len() as u64,
        into,
    )
}

/// What `run` prints of a journal, and of the associations and the number of objects after it.
pub fn text_of_run(
    alloc: Global,
    journal: &[Entry],
    associations: &[Association],
    objects: u64,
) -> Result<Vec<u8>, AllocError>
    ensures { IfOk result (λ text. text.items
        ≡ journal_text journal.now ++ (separator ++ (out_lines 1 associations.now ++ objects_line objects))) }
{
    let mut text = Vec::new(alloc);
    write_journal(alloc, journal, &mut text)?;
    text.extend_from_slice(SEPARATOR)?;
    write_all_outs(alloc, associations, objects, &mut text)?;
    Ok(text)
}

/// What `run` prints of a journal and the agent after it.
pub fn run_text(alloc: Global, journal: &[Entry], agent: &AgentState) -> Result<Vec<u8>, AllocError>
    ensures { IfOk result (λ text. text.items ≡ journal_text journal.now ++ (separator ++ outs agent.now)) }
{
    let associations = agent.associations.items.as_slice();
    text_of_run(
        alloc,
        journal,
        associations,
        agent.objects.as_slice().len() as u64,
    )
}
