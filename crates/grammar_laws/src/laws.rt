//! Laws of the grammars of documents, as contracts: docs/PROFILE.md, section 2.

ghost use Rattle.grammar_laws.specs.Decided.{DecidedFormsSpellOnce};

/// Tokens spell a form whose first two tokens decide its choices in one way, up to one place, but where a token
/// stands behind it with which it goes on. Does nothing.
pub fn decided_forms_are_spelt_once()
    ensures { DecidedFormsSpellOnce }
{}
