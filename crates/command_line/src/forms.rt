//! The forms of the words: a command, and places behind it. A word that begins with a hyphen is in no place
//! (docs/OPERATING.md, Commands).

ghost use Rattle.std.specs.Prelude.{◌↔◌, ◌∷◌, IsTrue, codes, map, string_bytes};
ghost use Rattle.command_line.specs.WordForms.{AreNames, HasCount, HasLoadWords, HasPlaceAndNames, HasServeWords};
ghost use Rattle.command_line.specs.WordForms.{HasSharesAndNames, HasWorkersAndNames, IsPlace, Reads};

use crate::numbers::is_number_in;

/// What no word in a place begins with.
const HYPHEN: u8 = b'-';

/// The most documents.
const MOST_DOCUMENTS: usize = 64;

/// The most sessions that `serve` takes.
const MOST_SESSIONS: u64 = 10_000;

/// The most workers of `serve`.
const MOST_WORKERS: u64 = 32;

/// The most requests of `load`.
const MOST_REQUESTS: u64 = 100_000;

/// A command, with the words in its places.
#[derive(Clone, Copy)]
pub enum Command<'a> {
    /// `check`, and the names of 1 to 64 documents.
    Check(&'a [String]),
    /// `report`, and the names of 1 to 64 documents.
    Report(&'a [String]),
    /// `run`, the name of a script, and those of 1 to 64 documents.
    Run(&'a str, &'a [String]),
    /// A command that isn't built.
    Unbuilt,
}

/// Whether a word may stand in a place.
fn is_place(word: &str) -> bool
    ensures { IsTrue result ↔ IsPlace word.now }
{
    let octets = word.as_bytes();
    octets.is_empty() || octets[0] != HYPHEN
}

/// Whether words are the names of 1 to 64 documents.
fn are_names(words: &[String]) -> bool
    ensures { IsTrue result ↔ AreNames (map string_bytes words.now) }
{
    if words.is_empty() || words.len() > MOST_DOCUMENTS {
        return false;
    }
    for word in words {
        if !is_place(word.as_str()) {
            return false;
        }
    }
    true
}

/// Whether words are a place and the names of documents.
fn are_place_and_names(words: &[String]) -> bool
    ensures { IsTrue result ↔ HasPlaceAndNames (map string_bytes words.now) }
{
    match words.split_first() {
        Some((first, names)) => is_place(first.as_str()) && are_names(names),
        None => false,
    }
}

/// Whether words are the number of workers and the names of documents.
fn are_workers_and_names(words: &[String]) -> bool
    ensures { IsTrue result ↔ HasWorkersAndNames (map string_bytes words.now) }
{
    match words.split_first() {
        Some((workers, names)) => is_number_in(workers.as_str(), 1, MOST_WORKERS)
            && are_names(names),
        None => false,
    }
}

/// Whether words are the numbers of sessions and of workers and the names of documents.
fn are_shares_and_names(words: &[String]) -> bool
    ensures { IsTrue result ↔ HasSharesAndNames (map string_bytes words.now) }
{
    match words.split_first() {
        Some((sessions, rest)) => {
            is_number_in(sessions.as_str(), 1, MOST_SESSIONS) && are_workers_and_names(rest)
        }
        None => false,
    }
}

/// Whether words are an address, the numbers of sessions and of workers and the names of documents.
fn are_serve_words(words: &[String]) -> bool
    ensures { IsTrue result ↔ HasServeWords (map string_bytes words.now) }
{
    match words.split_first() {
        Some((address, rest)) => is_place(address.as_str()) && are_shares_and_names(rest),
        None => false,
    }
}

/// Whether words are a count alone.
fn are_count(words: &[String]) -> bool
    ensures { IsTrue result ↔ HasCount (map string_bytes words.now) }
{
    match words.split_first() {
        Some((count, rest)) => is_number_in(count.as_str(), 1, MOST_REQUESTS) && rest.is_empty(),
        None => false,
    }
}

/// Whether words are a seed and a count.
fn are_load_words(words: &[String]) -> bool
    ensures { IsTrue result ↔ HasLoadWords (map string_bytes words.now) }
{
    match words.split_first() {
        Some((seed, rest)) => is_number_in(seed.as_str(), 0, u64::MAX) && are_count(rest),
        None => false,
    }
}

/// The command `check`, by the words behind it.
fn read_check(words: &[String]) -> Option<Command<'_>>
    ensures { Reads (codes "check" ∷ map string_bytes words.now) result }
{
    if are_names(words) {
        Some(Command::Check(words))
    } else {
        None
    }
}

/// The command `report`, by the words behind it.
fn read_report(words: &[String]) -> Option<Command<'_>>
    ensures { Reads (codes "report" ∷ map string_bytes words.now) result }
{
    if are_names(words) {
        Some(Command::Report(words))
    } else {
        None
    }
}

/// The command `run`, by the words behind it.
fn read_run(words: &[String]) -> Option<Command<'_>>
    ensures { Reads (codes "run" ∷ map string_bytes words.now) result }
{
    match words.split_first() {
        Some((script, names)) => {
            if is_place(script.as_str()) && are_names(names) {
                Some(Command::Run(script.as_str(), names))
            } else {
                None
            }
        }
        None => None,
    }
}

/// The command `replay`, by the words behind it.
fn read_replay(words: &[String]) -> Option<Command<'_>>
    ensures { Reads (codes "replay" ∷ map string_bytes words.now) result }
{
    if are_place_and_names(words) {
        Some(Command::Unbuilt)
    } else {
        None
    }
}

/// The command `serve`, by the words behind it.
fn read_serve(words: &[String]) -> Option<Command<'_>>
    ensures { Reads (codes "serve" ∷ map string_bytes words.now) result }
{
    if are_serve_words(words) {
        Some(Command::Unbuilt)
    } else {
        None
    }
}

/// The command `load`, by the words behind it.
fn read_load(words: &[String]) -> Option<Command<'_>>
    ensures { Reads (codes "load" ∷ map string_bytes words.now) result }
{
    if are_load_words(words) {
        Some(Command::Unbuilt)
    } else {
        None
    }
}

/// A command, by its word and the words behind it.
fn read_command<'a>(command: &str, words: &'a [String]) -> Option<Command<'a>>
    ensures { Reads (command.now ∷ map string_bytes words.now) result }
{
    match command {
        "check" => read_check(words),
        "report" => read_report(words),
        "run" => read_run(words),
        "replay" => read_replay(words),
        "serve" => read_serve(words),
        "load" => read_load(words),
        _ => None,
    }
}

/// The command that words are, the program's own name left out; none where they are in no form.
pub fn read_words(words: &[String]) -> Option<Command<'_>>
    ensures { Reads (map string_bytes words.now) result }
{
    match words.split_first() {
        Some((command, rest)) => read_command(command.as_str(), rest),
        None => None,
    }
}
