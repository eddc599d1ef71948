//! Templates in line in one another, down to many levels: readers leave room on a stack of 8 MiB.

use lending::lend;
use std::alloc::{AllocError, Global};
use std::process::Abort;
use std::test::Fail;
use text_lex::lex;
use token_grammar::{SyntaxRefusal, Token};

/// How many templates stand in line in one another in the deepest texts.
const LEVELS: usize = 5000;

/// So many times the front, the middle, and as many times the back.
fn nested_text(
    alloc: Global,
    levels: usize,
    front: &str,
    middle: &str,
    back: &str,
) -> Result<String, AllocError> {
    let mut text = String::new(alloc);
    for _ in 0..levels {
        text.push_str(front)?;
    }
    text.push_str(middle)?;
    for _ in 0..levels {
        text.push_str(back)?;
    }
    Ok(text)
}

fn tokens_of(alloc: Global, text: &str) -> Result<Vec<Token>, AllocError> {
    match lex(alloc, text.as_bytes()) {
        Ok(tokens) => Ok(tokens),
        Err(_) => Err(AllocError),
    }
}

fn behind_member(alloc: Global, tokens: &[Token]) -> Result<usize, SyntaxRefusal> {
    let read = gdmo_members::read_template(alloc, tokens, 0)?;
    Ok(lend(read, |read| read.1))
}

fn behind_class(alloc: Global, tokens: &[Token]) -> Result<usize, SyntaxRefusal> {
    let read = gdmo_classes::read_template(alloc, tokens, 0)?;
    Ok(lend(read, |read| read.1))
}

/// Looks that a reader ended behind all tokens.
fn check_end(rt: &impl Abort, end: usize, tokens: &[Token]) {
    assert_eq!(rt; end, tokens.len());
}

fn check_member(rt: &impl Abort, alloc: Global, text: &str) -> Result<(), Fail> {
    let tokens = tokens_of(alloc, text)?;
    check_end(rt, behind_member(alloc, &tokens)?, &tokens);
    Ok(())
}

#[test]
fn attributes_in_line_are_read_down_to_many_levels(rt: HostRuntime) -> Result<(), Fail> {
    let text = nested_text(rt.alloc(), LEVELS, "a ATTRIBUTE DERIVED FROM ", "b", ";;")?;
    check_member(&rt, rt.alloc(), text.as_str())
}

#[test]
fn parameters_in_line_are_read_down_to_many_levels(rt: HostRuntime) -> Result<(), Fail> {
    let front = "a ATTRIBUTE DERIVED FROM b; PARAMETERS p PARAMETER CONTEXT X; ATTRIBUTE ";
    let text = nested_text(rt.alloc(), LEVELS / 2, front, "c", ";;;;")?;
    check_member(&rt, rt.alloc(), text.as_str())
}

#[test]
fn classes_in_line_are_read_down_to_many_levels(rt: HostRuntime) -> Result<(), Fail> {
    let front = "c MANAGED OBJECT CLASS DERIVED FROM ";
    let text = nested_text(rt.alloc(), LEVELS, front, "d", "; REGISTERED AS {2 5};")?;
    let tokens = tokens_of(rt.alloc(), text.as_str())?;
    check_end(&rt, behind_class(rt.alloc(), &tokens)?, &tokens);
    Ok(())
}
