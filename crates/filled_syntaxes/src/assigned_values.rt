//! The values that modules assign (X.680, section 16).

ghost use Rattle.std.specs.Prelude.{◌≡◌, ◌++◌, ℕ, List, Option, IfOk, OnOk, Some, slice_get};
ghost use Rattle.asn1_values_syntax.specs.ValueTrees.{value_tree};
ghost use Rattle.asn1_names.specs.AssignmentNumbers.{Numbered, numbered_from};
ghost use Rattle.asn1_names.specs.ModuleTerms.{ModuleTerm, TypeTerm};
ghost use Rattle.asn1_names.specs.ModuleTerms.AssignedTerm.{AssignsType, AssignsValue};
ghost use Rattle.asn1_names.specs.TermViews.{assigned_term, module_term, type_term, value_number};
ghost use Rattle.linked_parts.specs.declared.linked.Linked.{Linked};
ghost use Rattle.filled_syntaxes.specs.AssignedValues.{AreAssignedValues, TellsAssigned, numbered_meaning};
ghost use Rattle.filled_syntaxes.specs.BadAssignments.{BadOfAssignments};
ghost use Rattle.filled_syntaxes.specs.BadDefaults.{IsOfDocument};
ghost use Rattle.filled_syntaxes.specs.JudgedAssignments.{AreJudged, BadDefaultsOf, BadOfOne, IsJudging};
ghost use Rattle.filled_syntaxes.specs.KnownThings.{AreNamedThings};
ghost use Rattle.filled_syntaxes.specs.LinkedMeanings.{linked_arcs};
ghost use Rattle.filled_syntaxes.specs.NotedTexts.{NotesTexts};
ghost use Rattle.filled_syntaxes.specs.declared.bad_texts.TextPlace.{TextPlace};

use crate::bad_texts::BadTexts;
use crate::default_words::has_default;
use crate::named_things::NamedThings;
use asn1_names::Meaning;
use asn1_syntax::module::{Assigned, Assignment, Module};
use asn1_syntax::type_text::TypeText;
use asn1_values_syntax::value::ValueText;
use std::alloc::AllocError;
use term_values::Value;

impl NamedThings<'_, '_> {
    /// Notes the DEFAULTs of a type that is assigned, where one is written in its text.
    fn judge_type(&self, number: usize, of: &TypeText, bad: &mut BadTexts) -> Result<(), AllocError>
        ensures { OnOk result ((ms : List ModuleTerm) (linked : Linked) (x : Numbered) →
            IsJudging ms linked self.now number x (AssignsType (type_term of.now)) →
            NotesTexts (BadDefaultsOf ms (linked_arcs linked) x) bad.old.first bad.new.first) }
    {
        if !has_default(of) {
            return Ok(());
        }
        let _syntax = self.filled(Meaning::TypeAt(number), bad)?;
        Ok(())
    }

    /// The value that is assigned; notes the DEFAULTs of its type, and its text where this denotes none.
    fn judge_value(
        &self,
        number: usize,
        document: u32,
        value: &ValueText,
        bad: &mut BadTexts,
    ) -> Result<Option<Value>, AllocError>
        ensures told { IfOk result (λ told. (ms : List ModuleTerm) (linked : Linked) (x : Numbered) (of : TypeTerm) →
            IsJudging ms linked self.now number x (AssignsValue of (value_number value.now) (value_tree value.now)) →
            TellsAssigned ms (linked_arcs linked) (numbered_meaning x) told) }
        ensures noted { OnOk result ((ms : List ModuleTerm) (linked : Linked) (x : Numbered) (of : TypeTerm) →
            IsJudging ms linked self.now number x (AssignsValue of (value_number value.now) (value_tree value.now)) →
            IsOfDocument ms x.in_module document →
            NotesTexts (BadOfOne ms (linked_arcs linked) x) bad.old.first bad.new.first) }
    {
        match self.filled(Meaning::ValueAt(number), bad)? {
            Some(syntax) => {
                let told = self.value(&syntax, value, document, bad)?;
                Ok(told)
            }
            None => Ok(None),
        }
    }

    /// The value that is assigned, where one is; notes each text of the assignment that denotes none.
    fn judge(
        &self,
        number: usize,
        document: u32,
        assignment: &Assignment,
        bad: &mut BadTexts,
    ) -> Result<Option<Value>, AllocError>
        ensures told { IfOk result (λ told. (ms : List ModuleTerm) (linked : Linked) (x : Numbered) →
            IsJudging ms linked self.now number x (assigned_term assignment.now.assigned) →
            TellsAssigned ms (linked_arcs linked) (numbered_meaning x) told) }
        ensures noted { OnOk result ((ms : List ModuleTerm) (linked : Linked) (x : Numbered) →
            IsJudging ms linked self.now number x (assigned_term assignment.now.assigned) →
            IsOfDocument ms x.in_module document →
            NotesTexts (BadOfOne ms (linked_arcs linked) x) bad.old.first bad.new.first) }
    {
        match &assignment.assigned {
            Assigned::OfType(of) => {
                self.judge_type(number, of, bad)?;
                Ok(None)
            }
            Assigned::OfValue { value, .. } => self.judge_value(number, document, value, bad),
        }
    }

    /// Adds the values of the assignments of a module behind those of the modules before it.
    fn add_values(
        &self,
        text: &Module,
        values: &mut Vec<Option<Value>>,
        bad: &mut BadTexts,
    ) -> Result<(), AllocError>
        ensures { OnOk result ((ms : List ModuleTerm) (linked : Linked) (m : ℕ) (behind : List Numbered)
            (before : Option TextPlace) → AreNamedThings ms linked self.now →
            slice_get ms m ≡ Some (module_term text.now) →
            AreJudged ms linked (numbered_from m 0 (module_term text.now).assignments ++ behind) values.old.items
            before bad.old.first → AreJudged ms linked behind values.new.items before bad.new.first) }
    {
        let own = text.assignments.as_slice();
        for assignment in own {
            let number = values.as_slice().len();
            let value = self.judge(number, text.document, assignment, bad)?;
            values.push(value)?;
        }
        Ok(())
    }

    /// The value of each assignment of all modules, by its number; none of one that assigns a type, or of which the text
    /// denotes none. Notes each text, of values and of DEFAULTs, that denotes none.
    pub fn assigned_values(&self, bad: &mut BadTexts) -> Result<Vec<Option<Value>>, AllocError>
        ensures values { IfOk result (λ values. (ms : List ModuleTerm) (linked : Linked) →
            AreNamedThings ms linked self.now → AreAssignedValues ms linked values.items) }
        ensures noted { OnOk result ((ms : List ModuleTerm) (linked : Linked) → AreNamedThings ms linked self.now →
            NotesTexts (BadOfAssignments ms linked) bad.old.first bad.new.first) }
    {
        let modules = self.modules;
        let mut values = Vec::new(self.alloc);
        for module in modules {
            self.add_values(module, &mut values, bad)?;
        }
        Ok(values)
    }
}
