//! The clauses that name a type, as `WITH ATTRIBUTE SYNTAX Module.Type;` (X.722, section 8.2).

ghost use Rattle.std.specs.Prelude.{◌≡◌, ℕ, map};
ghost use Rattle.token_grammar.specs.Form.{Form, Marks, Then};
ghost use Rattle.token_grammar.specs.Outcome.{Reads, closed};
ghost use Rattle.token_grammar.specs.Parts.{qualified_name, qualified_name_tree};
ghost use Rattle.token_grammar.specs.TokenTests.{is_word_of};
ghost use Rattle.gdmo_members.specs.Clauses.{semicolon};
ghost use Rattle.gdmo_members.specs.Templates.{templates};
ghost use Rattle.gdmo_members.specs.Trees.{clause_tree};

use std::alloc::Global;
use token_grammar::clause_ending::end_clause;
use token_grammar::qualified_name::{QualifiedName, read_qualified_name};
use token_grammar::token_reading::skip_words;
use token_grammar::{SyntaxRefusal, Token};

/// Reads the words, the name of a type and a semicolon.
pub fn read_type_clause(
    alloc: Global,
    tokens: &[Token],
    at: usize,
    words: &[&str],
) -> Result<(QualifiedName, usize), SyntaxRefusal>
    ensures { Reads tokens.now templates closed
        (Then (Marks (map (λ word. is_word_of word.now) words.now)) (Then qualified_name semicolon)) at
        (clause_tree qualified_name_tree) result }
{
    let next = skip_words(tokens, at, words)?;
    end_clause(tokens, read_qualified_name(alloc, tokens, next))
}
