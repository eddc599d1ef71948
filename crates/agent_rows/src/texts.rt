//! Words and numbers of a row, and the texts that they stand for.

use std::alloc::{AllocError, Global};

/// The first word of a row, and what stands behind the blank that ends it.
pub(crate) fn first_word(row: &str) -> (&str, &str) {
    match row.split_once(' ') {
        Some(parts) => parts,
        None => (row, ""),
    }
}

/// The number that a word spells; 0 where it spells none.
pub(crate) fn number_of(word: &str) -> u64 {
    match word.parse::<u64>() {
        Ok(number) => number,
        Err(_) => 0,
    }
}

/// The number that the first word of a row spells, and what stands behind it.
pub(crate) fn first_number(row: &str) -> (u64, &str) {
    let (word, rest) = first_word(row);
    (number_of(word), rest)
}

/// Appends the text that a row's text stands for. In a row `\n` stands for a line feed, `\r` for a carriage return,
/// `\t` for a tabulator and `\1` for the octet 1.
pub(crate) fn add_text(text: &str, into: &mut String) -> Result<(), AllocError> {
    let mut is_first = true;
    for piece in text.split('\\') {
        if is_first {
            into.push_str(piece)?;
        } else {
            add_escape(piece, into)?;
        }
        is_first = false;
    }
    Ok(())
}

/// Appends what stands behind a backslash.
fn add_escape(piece: &str, into: &mut String) -> Result<(), AllocError> {
    let escapes = [("n", "\n"), ("r", "\r"), ("t", "\t"), ("1", "\x01")];
    for (letter, text) in escapes {
        if let Some(rest) = piece.strip_prefix(letter) {
            into.push_str(text)?;
            return into.push_str(rest);
        }
    }
    into.push_str(piece)
}

/// The text that a row's text stands for.
pub(crate) fn text_of(alloc: Global, text: &str) -> Result<String, AllocError> {
    let mut whole = String::new(alloc);
    add_text(text, &mut whole)?;
    Ok(whole)
}

/// Appends a text in which each `#` of a row's text is a number.
pub(crate) fn add_numbered(number: u64, text: &str, into: &mut String) -> Result<(), AllocError> {
    let mut is_first = true;
    for piece in text.split('#') {
        if !is_first {
            write!(into, "{number}")?;
        }
        add_text(piece, into)?;
        is_first = false;
    }
    Ok(())
}

/// Appends octets as they are.
fn show_octets(octets: &[u8], answer: &mut String) -> Result<(), AllocError> {
    match std::str::from_utf8(octets) {
        Ok(text) => show_text(text, answer),
        Err(_) => answer.push_str("no text"),
    }
}

/// Appends octets in quotation marks.
pub(crate) fn show_quoted(octets: &[u8], answer: &mut String) -> Result<(), AllocError> {
    answer.push('"')?;
    show_octets(octets, answer)?;
    answer.push('"')?;
    Ok(())
}

/// Appends what separates an answer from the one before it in the line.
pub(crate) fn separate(answer: &mut String) -> Result<(), AllocError> {
    if !answer.is_empty() {
        answer.push_str("; ")?;
    }
    Ok(())
}

/// Appends a text, in which a line feed is shown as `\n`.
fn show_text(text: &str, answer: &mut String) -> Result<(), AllocError> {
    let mut is_first = true;
    for piece in text.split('\n') {
        if !is_first {
            answer.push_str("\\n")?;
        }
        answer.push_str(piece)?;
        is_first = false;
    }
    Ok(())
}

/// A text with the first of these pieces replaced by another; as it is where the piece does not stand there.
pub(crate) fn changed(
    alloc: Global,
    text: &str,
    old: &str,
    new: &str,
) -> Result<String, AllocError> {
    let mut whole = String::new(alloc);
    match text.split_once(old) {
        Some((front, back)) => {
            whole.push_str(front)?;
            whole.push_str(new)?;
            whole.push_str(back)?;
        }
        None => whole.push_str(text)?,
    }
    Ok(whole)
}
