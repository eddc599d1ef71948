//! A set of documents: their tokens, and what they say (X.722, section 8.2; docs/PROFILE.md, section 2). All documents
//! are lexed before one is read further, so that a fault of the octets is told before each fault of the syntax.

ghost use Rattle.std.specs.Prelude.{◌≡◌, ◌≤◌, length};
ghost use Rattle.document_parts.specs.ReadDocuments.{LexesAll, ReadsAll, refusal_of_lexing, refusal_of_syntax};

use super::document_refusal::DocumentRefusal;
use super::gathering::gather_units;
use gdmo_names::Parsed;
use std::alloc::Global;
use std::string::String;
use text_lex::{LexRefusal, Token, lex};
use token_grammar::SyntaxRefusal;

/// A document of a set.
#[derive(Drop)]
pub struct Doc {
    /// The name of its file.
    pub name: String,
    /// Its octets.
    pub bytes: Vec<u8>,
}

/// The refusal of a document's octets.
fn lexing_refusal(document: u32, refusal: LexRefusal) -> DocumentRefusal
    ensures { result ≡ refusal_of_lexing document refusal }
{
    match refusal {
        LexRefusal::Fault { at, kind } => DocumentRefusal::Lexing { document, at, kind },
        LexRefusal::Memory => DocumentRefusal::Memory,
    }
}

/// The refusal of a document's tokens.
fn syntax_refusal(document: u32, refusal: SyntaxRefusal) -> DocumentRefusal
    ensures { result ≡ refusal_of_syntax document refusal }
{
    match refusal {
        SyntaxRefusal::Syntax { token } => DocumentRefusal::Syntax { document, token },
        SyntaxRefusal::Memory => DocumentRefusal::Memory,
    }
}

/// The tokens of 1 to 64 documents, in the order of the documents.
///
/// `Lexing` has the number, counted from 1, of the first document whose octets are no tokens, and the first fault in
/// it. `Memory` comes where there is no memory for the tokens.
pub fn lex_documents(alloc: Global, documents: &[Doc]) -> Result<Vec<Vec<Token>>, DocumentRefusal>
    requires few { length documents.now ≤ 64 }
    ensures { LexesAll documents.now result }
{
    let mut lists = Vec::new(alloc);
    let mut number = 0u32;
    for document in documents.iter() {
        number += 1;
        match lex(alloc, document.bytes.as_slice()) {
            Ok(tokens) => lists.push(tokens)?,
            Err(refusal) => return Err(lexing_refusal(number, refusal)),
        }
    }
    Ok(lists)
}

/// What 1 to 64 documents say, of which these are the tokens: each part has the number of its document, counted from
/// 1, and parts of one kind stand in the order of the documents and of their places. Templates in line have the number
/// 0.
///
/// `Syntax` has the number, counted from 1, of the first document whose tokens are no row of units, and in it the
/// first token with which no document goes on. `Memory` comes where there is no memory for the parts.
pub fn read_documents(alloc: Global, documents: &[Vec<Token>]) -> Result<Parsed, DocumentRefusal>
    requires few { length documents.now ≤ 64 }
    ensures { ReadsAll documents.now result }
{
    let mut parts = Parsed {
        modules: Vec::new(alloc),
        classes: Vec::new(alloc),
        members: Vec::new(alloc),
        sections: Vec::new(alloc),
    };
    let mut number = 0u32;
    for tokens in documents.iter() {
        number += 1;
        match gather_units(alloc, tokens.as_slice(), number, &mut parts) {
            Ok(()) => {}
            Err(refusal) => return Err(syntax_refusal(number, refusal)),
        }
    }
    Ok(parts)
}
