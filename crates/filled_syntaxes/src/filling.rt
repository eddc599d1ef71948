//! The syntax of a type with the values of its DEFAULTs, inner types first (X.680, section 25; docs/PROFILE.md,
//! section 11).

ghost use Rattle.std.specs.Prelude.{◌≡◌, ◌++◌, ◌∷◌, [], ℕ, Bool, List, IfOk, OnOk, false, if◌then◌else◌, is_none};
ghost use Rattle.term_values.specs.Syntaxes.{TypeSyntax};
ghost use Rattle.asn1_names.specs.CodeMeanings.{Means};
ghost use Rattle.asn1_names.specs.ModuleTerms.{ModuleTerm};
ghost use Rattle.asn1_names.specs.NameMeaning.{Meaning as Meant};
ghost use Rattle.linked_parts.specs.declared.linked.Linked.{Linked};
ghost use Rattle.filled_syntaxes.specs.BadDefaults.{BadAmong, BadBeside, BadOne, BadOwn, BadWithin, IsFilledPart};
ghost use Rattle.filled_syntaxes.specs.BadDefaults.{StandWhere, TellsFilled, TellsPresence, among_may_miss};
ghost use Rattle.filled_syntaxes.specs.BadDefaults.{one_may_miss, within_may_miss};
ghost use Rattle.filled_syntaxes.specs.FilledSyntaxes.{AreFilled, IsFilled, IsPresence, texts_beside};
ghost use Rattle.filled_syntaxes.specs.KnownThings.{AreNamedThings, IsFilling};
ghost use Rattle.filled_syntaxes.specs.LinkedMeanings.{linked_arcs};
ghost use Rattle.filled_syntaxes.specs.NotedTexts.{NotesTexts};

use crate::bad_texts::BadTexts;
use crate::named_things::NamedThings;
use asn1_names::Meaning;
use std::alloc::{AllocError, Global};
use std::boxed::Box;
use term_values::{Part, Parts, Syntax, SyntaxForm, Value};

/// Fills the syntax of one meaning.
#[derive(Clone, Copy)]
pub struct Filling<'a, 't, 'f> {
    /// What names mean.
    pub things: &'f NamedThings<'a, 't>,
    /// The meaning.
    pub meaning: Meaning,
}

/// Whether a component may still be left out without a value, where its DEFAULT has this one.
fn still_optional(optional: bool, default: &Option<Value>) -> bool
    ensures { result ≡ (if is_none default.now then optional else false) }
{
    match default {
        Some(_) => false,
        None => optional,
    }
}

impl Filling<'_, '_, '_> {
    /// The value of the DEFAULT at a path, in the syntax of its component; none where none stands, or it has none.
    fn default_value(
        &self,
        syntax: &Syntax,
        path: &[usize],
        bad: &mut BadTexts,
    ) -> Result<Option<Value>, AllocError>
        ensures told { IfOk result (λ told. (ms : List ModuleTerm) (linked : Linked) (meant : Meant) →
            IsFilling ms linked meant self.now.things.now self.now.meaning → (optional : Bool) →
            TellsPresence ms (linked_arcs linked) meant path.now syntax.now optional told) }
        ensures noted { OnOk result ((ms : List ModuleTerm) (linked : Linked) (meant : Meant) →
            IsFilling ms linked meant self.now.things.now self.now.meaning →
            NotesTexts (BadOwn ms (linked_arcs linked) meant path.now syntax.now) bad.old.first bad.new.first) }
    {
        let things = self.things;
        match things.types.default_text(things.alloc, self.meaning, path)? {
            Some((home, text)) => {
                let told = things.value(syntax, text, things.document(home), bad)?;
                Ok(told)
            }
            None => Ok(None),
        }
    }

    /// The same of a component that may be left out; of another one none stands.
    fn own_default(
        &self,
        optional: bool,
        syntax: &Syntax,
        path: &[usize],
        bad: &mut BadTexts,
    ) -> Result<Option<Value>, AllocError>
        ensures told { IfOk result (λ told. (ms : List ModuleTerm) (linked : Linked) (meant : Meant) →
            IsFilling ms linked meant self.now.things.now self.now.meaning → (inner : TypeSyntax) →
            StandWhere ms meant path.now (one_may_miss optional inner) →
            TellsPresence ms (linked_arcs linked) meant path.now syntax.now optional told) }
        ensures noted { OnOk result ((ms : List ModuleTerm) (linked : Linked) (meant : Meant) →
            IsFilling ms linked meant self.now.things.now self.now.meaning → (inner : TypeSyntax) →
            StandWhere ms meant path.now (one_may_miss optional inner) →
            NotesTexts (BadOwn ms (linked_arcs linked) meant path.now syntax.now) bad.old.first bad.new.first) }
    {
        if optional {
            self.default_value(syntax, path, bad)
        } else {
            Ok(None)
        }
    }

    /// A component at a path, whose inner types are filled, with its DEFAULT.
    fn with_default(
        &self,
        part: &Part,
        syntax: Syntax,
        path: &[usize],
        bad: &mut BadTexts,
    ) -> Result<Part, AllocError>
        ensures told { IfOk result (λ filled. (ms : List ModuleTerm) (linked : Linked) (meant : Meant) →
            IsFilling ms linked meant self.now.things.now self.now.meaning →
            StandWhere ms meant path.now (one_may_miss part.now.optional part.now.syntax) →
            IsFilled (linked_arcs linked) (texts_beside ms meant) path.now part.now.syntax syntax →
            IsFilledPart ms (linked_arcs linked) meant path.now part.now filled) }
        ensures noted { OnOk result ((ms : List ModuleTerm) (linked : Linked) (meant : Meant) →
            IsFilling ms linked meant self.now.things.now self.now.meaning →
            StandWhere ms meant path.now (one_may_miss part.now.optional part.now.syntax) →
            NotesTexts (BadOwn ms (linked_arcs linked) meant path.now syntax) bad.old.first bad.new.first) }
        ensures kept { IfOk result (λ filled. filled.syntax ≡ syntax) }
    {
        let name = part.name.copy(self.things.alloc)?;
        let default = self.own_default(part.optional, &syntax, path, bad)?;
        let optional = still_optional(part.optional, &default);
        Ok(Part {
            name,
            syntax,
            optional,
            default,
        })
    }

    /// A syntax at a path, with the values of its DEFAULTs.
    #[cycle(filling)]
    pub fn fill(
        &self,
        syntax: &Syntax,
        path: &mut Vec<usize>,
        bad: &mut BadTexts,
    ) -> Result<Syntax, AllocError>
        ensures filled { IfOk result (λ filled. (ms : List ModuleTerm) (linked : Linked) (meant : Meant) →
            IsFilling ms linked meant self.now.things.now self.now.meaning →
            StandWhere ms meant path.old.items (within_may_miss syntax.now) →
            IsFilled (linked_arcs linked) (texts_beside ms meant) path.old.items syntax.now filled) }
        ensures noted { IfOk result (λ filled. (ms : List ModuleTerm) (linked : Linked) (meant : Meant) →
            IsFilling ms linked meant self.now.things.now self.now.meaning →
            StandWhere ms meant path.old.items (within_may_miss syntax.now) →
            NotesTexts (BadWithin ms (linked_arcs linked) meant path.old.items filled) bad.old.first bad.new.first) }
        ensures kept { OnOk result (path.new.items ≡ path.old.items) }
    {
        let alloc = self.things.alloc;
        match &syntax.form {
            SyntaxForm::Seq(parts) => {
                let inner = self.fill_parts(parts, path, bad)?;
                Ok(Syntax {
                    form: SyntaxForm::Seq(inner),
                })
            }
            SyntaxForm::Unordered(parts) => {
                let inner = self.fill_parts(parts, path, bad)?;
                Ok(Syntax {
                    form: SyntaxForm::Unordered(inner),
                })
            }
            SyntaxForm::Choice(parts) => {
                let inner = self.fill_parts(parts, path, bad)?;
                Ok(Syntax {
                    form: SyntaxForm::Choice(inner),
                })
            }
            SyntaxForm::ListOf(member, sizes) => {
                let inner = self.fill(member, path, bad)?;
                Ok(Syntax {
                    form: SyntaxForm::ListOf(Box::new(alloc, inner)?, sizes.copy(alloc)?),
                })
            }
            SyntaxForm::SetOf(member, sizes) => {
                let inner = self.fill(member, path, bad)?;
                Ok(Syntax {
                    form: SyntaxForm::SetOf(Box::new(alloc, inner)?, sizes.copy(alloc)?),
                })
            }
            SyntaxForm::Tagged(tag, explicit, of) => {
                let inner = self.fill(of, path, bad)?;
                Ok(Syntax {
                    form: SyntaxForm::Tagged(*tag, *explicit, Box::new(alloc, inner)?),
                })
            }
            _ => syntax.copy(alloc),
        }
    }

    /// The component at a place.
    #[cycle(filling)]
    fn fill_part(
        &self,
        part: &Part,
        place: usize,
        path: &mut Vec<usize>,
        bad: &mut BadTexts,
    ) -> Result<Part, AllocError>
        ensures filled { IfOk result (λ filled. (ms : List ModuleTerm) (linked : Linked) (meant : Meant) →
            IsFilling ms linked meant self.now.things.now self.now.meaning →
            StandWhere ms meant (path.old.items ++ place ∷ []) (one_may_miss part.now.optional part.now.syntax) →
            IsFilledPart ms (linked_arcs linked) meant (path.old.items ++ place ∷ []) part.now filled) }
        ensures noted { IfOk result (λ filled. (ms : List ModuleTerm) (linked : Linked) (meant : Meant) →
            IsFilling ms linked meant self.now.things.now self.now.meaning →
            StandWhere ms meant (path.old.items ++ place ∷ []) (one_may_miss part.now.optional part.now.syntax) →
            NotesTexts (BadOne ms (linked_arcs linked) meant (path.old.items ++ place ∷ []) filled.syntax)
            bad.old.first bad.new.first) }
        ensures kept { OnOk result (path.new.items ≡ path.old.items) }
    {
        path.push(place)?;
        let syntax = self.fill(&part.syntax, path, bad)?;
        let filled = self.with_default(part, syntax, path.as_slice(), bad)?;
        path.pop();
        Ok(filled)
    }

    /// Components, or alternatives.
    #[cycle(filling)]
    fn fill_parts(
        &self,
        parts: &Parts,
        path: &mut Vec<usize>,
        bad: &mut BadTexts,
    ) -> Result<Parts, AllocError>
        ensures filled { IfOk result (λ filled. (ms : List ModuleTerm) (linked : Linked) (meant : Meant) →
            IsFilling ms linked meant self.now.things.now self.now.meaning →
            StandWhere ms meant path.old.items (among_may_miss parts.now) →
            AreFilled (linked_arcs linked) (texts_beside ms meant) path.old.items 0 parts.now filled) }
        ensures noted { IfOk result (λ filled. (ms : List ModuleTerm) (linked : Linked) (meant : Meant) →
            IsFilling ms linked meant self.now.things.now self.now.meaning →
            StandWhere ms meant path.old.items (among_may_miss parts.now) →
            NotesTexts (BadAmong ms (linked_arcs linked) meant path.old.items filled) bad.old.first bad.new.first) }
        ensures kept { OnOk result (path.new.items ≡ path.old.items) }
    {
        let mut items = Vec::new(self.things.alloc);
        let own = parts.items.as_slice();
        for place in 0..own.len() {
            items.push(self.fill_part(&own[place], place, path, bad)?)?;
        }
        Ok(Parts { items })
    }
}

impl NamedThings<'_, '_> {
    /// The syntax of a meaning with the values of its DEFAULTs; none where it has no syntax. Notes each text of DEFAULT
    /// that denotes no value.
    pub fn filled(&self, meaning: Meaning, bad: &mut BadTexts) -> Result<Option<Syntax>, AllocError>
        ensures told { IfOk result (λ told. (ms : List ModuleTerm) (linked : Linked) (meant : Meant) →
            AreNamedThings ms linked self.now → Means ms meaning meant →
            TellsFilled ms (linked_arcs linked) meant told) }
        ensures noted { OnOk result ((ms : List ModuleTerm) (linked : Linked) (meant : Meant) →
            AreNamedThings ms linked self.now → Means ms meaning meant →
            NotesTexts (BadBeside ms (linked_arcs linked) meant) bad.old.first bad.new.first) }
    {
        match self.types.syntax(self.alloc, meaning)? {
            Some(plain) => {
                let filling = Filling {
                    things: self,
                    meaning,
                };
                let mut path = Vec::new(self.alloc);
                let filled = filling.fill(&plain, &mut path, bad)?;
                Ok(Some(filled))
            }
            None => Ok(None),
        }
    }
}
