//! What the constraints at the names that lead to a type leave of its syntax (X.680, sections 16 and 49 to 51).

ghost use Rattle.std.specs.Prelude.{◌≡◌, ℕ, IfOk, List, Option};
ghost use Rattle.token_grammar.specs.declared.token.Token.{Token};
ghost use Rattle.asn1_names.specs.Constraining.{Constrains};
ghost use Rattle.asn1_names.specs.DenotedSyntax.{Denotes};
ghost use Rattle.asn1_names.specs.FirstModuleFault.{AreFaultless};
ghost use Rattle.asn1_names.specs.ModuleTerms.{LimitTerm, TypeTerm};
ghost use Rattle.asn1_names.specs.ModuleTerms.TypeTerm.{Reference};
ghost use Rattle.asn1_names.specs.Occurrences.{Stands};
ghost use Rattle.asn1_names.specs.PassedNames.{Passed, Returns};
ghost use Rattle.asn1_names.specs.TermViews.{module_terms, type_term};
ghost use Rattle.asn1_types.specs.BuiltSyntaxes.{AllTakeLimits, TakesLimits};
ghost use Rattle.asn1_types.specs.FollowedNames.{AreKept};
ghost use Rattle.asn1_types.specs.NextTypes.{LeadsToStandard, LeadsToType};

use crate::constraining::constrained;
use crate::following::Followed;
use asn1_names::standard_module::{StandardType, standard_syntax};
use asn1_numbers::number_tables::Numbers;
use asn1_syntax::type_text::TypeText;
use std::alloc::{AllocError, Global};
use term_values::Syntax;

/// What the constraints at a name leave of the syntax of what it names.
fn constrained_at<'a>(
    alloc: Global,
    numbers: &Numbers<'a>,
    home: usize,
    of: &'a TypeText,
    syntax: Syntax,
) -> Result<Syntax, AllocError>
    ensures { IfOk result (λ left. (module_name : Option Token) (name : Token) (limits : List LimitTerm) →
        type_term of.now ≡ Reference module_name name limits →
        TakesLimits (module_terms numbers.now) home (type_term of.now) limits syntax →
        Constrains (module_terms numbers.now) home (type_term of.now) limits syntax left) }
{
    match of {
        TypeText::Plain { constraints, .. } => {
            constrained(alloc, numbers, home, of, constraints.as_slice(), syntax)
        }
        TypeText::Tagged { .. } => Ok(syntax),
        TypeText::Structured { .. } => Ok(syntax),
        TypeText::Choice { .. } => Ok(syntax),
    }
}

/// What the constraints at names leave of a syntax, from the last name on.
fn constrained_by<'a>(
    alloc: Global,
    numbers: &Numbers<'a>,
    passed: &[(usize, &'a TypeText)],
    syntax: Syntax,
) -> Result<Syntax, AllocError>
    ensures { IfOk result (λ left. (path : List Passed) → AreKept passed.now path →
        AllTakeLimits (module_terms numbers.now) path syntax →
        Returns (module_terms numbers.now) path syntax left) }
{
    let mut left = syntax;
    for behind in 0..passed.len() {
        let entry = passed[passed.len() - 1 - behind];
        left = constrained_at(alloc, numbers, entry.0, entry.1, left)?;
    }
    Ok(left)
}

/// The syntax of a type that leads by names to a type of CMIP-1.
pub fn syntax_of_standard<'a>(
    alloc: Global,
    numbers: &Numbers<'a>,
    followed: &Followed<'a>,
    standard: StandardType,
) -> Result<Syntax, AllocError>
    ensures { IfOk result (λ syntax. (document home : ℕ) (of : TypeTerm) → AreFaultless (module_terms numbers.now) →
        Stands (module_terms numbers.now) document home of →
        LeadsToStandard (module_terms numbers.now) home of followed.now standard →
        Denotes (module_terms numbers.now) home of syntax) }
{
    let syntax = standard_syntax(alloc, standard)?;
    constrained_by(alloc, numbers, followed.passed.as_slice(), syntax)
}

/// The syntax of a type that leads by names to one that is no name and denotes `syntax`.
pub fn syntax_of_named<'a>(
    alloc: Global,
    numbers: &Numbers<'a>,
    followed: &Followed<'a>,
    syntax: Syntax,
) -> Result<Syntax, AllocError>
    ensures { IfOk result (λ left. (document home : ℕ) (of : TypeTerm) → AreFaultless (module_terms numbers.now) →
        Stands (module_terms numbers.now) document home of →
        LeadsToType (module_terms numbers.now) home of followed.now →
        Denotes (module_terms numbers.now) followed.now.home (type_term followed.now.of.now) syntax →
        Denotes (module_terms numbers.now) home of left) }
{
    constrained_by(alloc, numbers, followed.passed.as_slice(), syntax)
}
