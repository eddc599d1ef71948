//! The clause that says by which rules an attribute's values are matched (X.722, section 8.7).

ghost use Rattle.std.specs.Prelude.{◌≡◌, ℕ, codes};
ghost use Rattle.token_grammar.specs.Form.{Form, Listed, Empty, Leaf};
ghost use Rattle.token_grammar.specs.Outcome.{Reads, closed};
ghost use Rattle.gdmo_members.specs.Clauses.{comma, matching_rule};
ghost use Rattle.gdmo_members.specs.Templates.{templates, rules_clause};
ghost use Rattle.token_grammar.specs.Parts.{vector_tree};
ghost use Rattle.gdmo_members.specs.Trees.{clause_tree};

use std::alloc::Global;
use token_grammar::clause_ending::end_clause;
use token_grammar::token_reading::{place_behind, read_one_of, skip_words};
use token_grammar::{SyntaxRefusal, Token};

/// Reads matching rules with commas between them.
fn read_rule_list(
    alloc: Global,
    tokens: &[Token],
    at: usize,
) -> Result<(Vec<Token>, usize), SyntaxRefusal>
    ensures { Reads tokens.now templates comma (Listed comma Empty matching_rule) at (vector_tree Leaf) result }
{
    let mut list = Vec::new(alloc);
    let mut next = at;
    'turns: loop {
        let (rule, behind) = read_one_of(
            alloc,
            tokens,
            next,
            &[
                "EQUALITY",
                "ORDERING",
                "SUBSTRINGS",
                "SET-COMPARISON",
                "SET-INTERSECTION",
            ],
        )?;
        list.push(rule)?;
        let Some(place) = place_behind(tokens, behind, ",") else {
            return Ok((list, behind));
        };
        next = place;
    }
}

/// Reads the clause `MATCHES FOR rule, ..;`.
pub fn read_rules_clause(
    alloc: Global,
    tokens: &[Token],
    at: usize,
) -> Result<(Vec<Token>, usize), SyntaxRefusal>
    ensures { Reads tokens.now templates closed rules_clause at (clause_tree (vector_tree Leaf)) result }
{
    let next = skip_words(tokens, at, &["MATCHES", "FOR"])?;
    end_clause(tokens, read_rule_list(alloc, tokens, next))
}
