//! Types by numbers: two types are one exactly where they have one number, so that each type is gone over once however
//! often it is compared (docs/PROFILE.md, section 12). Tags, OPTIONAL, names of numbers, bits and components, and
//! bounds count, and whether DEFAULT stands at a component; names of types, and the values of DEFAULT, don't.

ghost use Rattle.std.specs.Prelude.{◌≡◌, ℕ, Bool, IfOk, IfSome, List};
ghost use Rattle.asn1_names.specs.CodeMeanings.{IsTypeNumber, Means};
ghost use Rattle.asn1_names.specs.ModuleTerms.{ModuleTerm};
ghost use Rattle.asn1_names.specs.NameMeaning.{Meaning as Meant};
ghost use Rattle.asn1_names.specs.NameMeaning.Meaning.{StandardType as MeansStandard};
ghost use Rattle.asn1_names.specs.TermViews.{module_terms};
ghost use Rattle.asn1_names.specs.WordViews.{standard_syntax_of};
ghost use Rattle.key_numbers.specs.ComponentKeys.{TellsComponent, component_key, has_number_key, is_integer_key};
ghost use Rattle.key_numbers.specs.KeyNumbers.{IsKeyNumber};
ghost use Rattle.key_numbers.specs.NumberedLists.{AreOnce, Grows};
ghost use Rattle.key_numbers.specs.TypeKeys.{TypeKey};
ghost use Rattle.type_numbers.specs.AskedTypes.{AreNumbers, HasNumber, KeepsOthers, StayNumbers, TellsNumber};
ghost use Rattle.type_numbers.specs.KeysBeside.{IsBesideAt};
ghost use Rattle.type_numbers.specs.MarkedKeys.{marked};
ghost use Rattle.type_numbers.specs.PlacedTerms.{placed_terms};
ghost use Rattle.type_numbers.specs.TextLeads.{IsTextOf};

use crate::syntax_numbers::syntax_number;
use crate::type_texts::{PlacedText, TypeTexts};
use asn1_names::Meaning;
use asn1_names::standard_module::StandardType;
use asn1_types::Types;
use key_numbers::number_lists::NumberLists;
use std::alloc::{AllocError, Global};
use term_values::Syntax;

/// Types by numbers.
#[derive(Drop)]
pub struct TypeNumbers<'a, 't> {
    alloc: Global,
    /// What the names of modules mean.
    pub types: &'t Types<'a>,
    /// The texts of types.
    pub texts: &'t TypeTexts<'a, 't>,
    /// What has a number.
    pub lists: NumberLists,
    /// The numbers of the types of assignments, as far as they were asked for.
    pub known: Vec<Option<usize>>,
}

impl<'a, 't> TypeNumbers<'a, 't> {
    /// No type was asked for yet. The texts are to be those of the modules of the types.
    pub fn new(
        alloc: Global,
        types: &'t Types<'a>,
        texts: &'t TypeTexts<'a, 't>,
    ) -> Result<TypeNumbers<'a, 't>, AllocError>
        ensures { IfOk result (λ numbers. module_terms texts.now ≡ module_terms types.now →
            AreNumbers (module_terms types.now) numbers) }
    {
        let known = vec![in alloc; None; texts.count()]?;
        let lists = NumberLists::new(alloc);
        Ok(TypeNumbers {
            alloc,
            types,
            texts,
            lists,
            known,
        })
    }

    /// The number of a type with its text.
    fn number_of(
        &mut self,
        syntax: &Syntax,
        text: Option<PlacedText<'a>>,
    ) -> Result<usize, AllocError>
        ensures is { IfOk result (λ n. (f : List ℕ → Bool) →
            IsBesideAt (module_terms self.old.texts.now) (placed_terms text.entry) (marked syntax.now f) →
            IsKeyNumber self.new.lists (marked syntax.now f) n) }
        ensures grows { Grows self.old.lists self.new.lists }
        ensures once { AreOnce self.new.lists }
        ensures others { KeepsOthers self.old self.new }
    {
        let number = syntax_number(&mut self.lists, self.texts, syntax, text);
        self.lists.has_each_once();
        number
    }

    /// The number of the type of a meaning that isn't known yet.
    fn new_number(
        &mut self,
        meaning: Meaning,
        text: Option<PlacedText<'a>>,
    ) -> Result<Option<usize>, AllocError>
        ensures is { IfOk result (λ told. (ms : List ModuleTerm) (meant : Meant) → AreNumbers ms self.old →
            Means ms meaning meant → IsTextOf meant (placed_terms text.entry) →
            TellsNumber ms self.new.lists meant told) }
        ensures grows { Grows self.old.lists self.new.lists }
        ensures once { AreOnce self.old.lists → AreOnce self.new.lists }
        ensures others { KeepsOthers self.old self.new }
    {
        match self.types.syntax(self.alloc, meaning)? {
            Some(syntax) => {
                let number = self.number_of(&syntax, text)?;
                Ok(Some(number))
            }
            None => Ok(None),
        }
    }

    /// The number of the type of the assignment with a number, where it is known.
    fn known_number(&self, assignment: usize) -> Option<usize>
        ensures { (ms : List ModuleTerm) (meant : Meant) → AreNumbers ms self.now → IsTypeNumber ms assignment meant →
            IfSome result (λ n. HasNumber ms self.now.lists meant n) }
    {
        match self.known.get(assignment) {
            Some(known) => *known,
            None => None,
        }
    }

    /// The number of the type of the assignment with a number, which is kept from now on.
    fn kept_number(&mut self, assignment: usize) -> Result<Option<usize>, AllocError>
        ensures told { IfOk result (λ told. (ms : List ModuleTerm) (meant : Meant) → AreNumbers ms self.old →
            IsTypeNumber ms assignment meant → TellsNumber ms self.new.lists meant told) }
        ensures stays { (ms : List ModuleTerm) → AreNumbers ms self.old → StayNumbers ms self.old self.new }
    {
        let text = self.texts.type_at(assignment);
        let number = self.new_number(Meaning::TypeAt(assignment), text)?;
        if let Some(slot) = self.known.get_mut(assignment) {
            *slot = number;
        }
        Ok(number)
    }

    /// The number of the type of the assignment with a number.
    fn assigned_number(&mut self, assignment: usize) -> Result<Option<usize>, AllocError>
        ensures told { IfOk result (λ told. (ms : List ModuleTerm) (meant : Meant) → AreNumbers ms self.old →
            IsTypeNumber ms assignment meant → TellsNumber ms self.new.lists meant told) }
        ensures stays { (ms : List ModuleTerm) → AreNumbers ms self.old → StayNumbers ms self.old self.new }
    {
        match self.known_number(assignment) {
            Some(number) => Ok(Some(number)),
            None => self.kept_number(assignment),
        }
    }

    /// The number of the type of CMIP-1.
    fn standard_number(&mut self, standard: StandardType) -> Result<Option<usize>, AllocError>
        ensures told { IfOk result (λ told. (ms : List ModuleTerm) (meant : Meant) → AreNumbers ms self.old →
            meant ≡ MeansStandard (standard_syntax_of standard) → TellsNumber ms self.new.lists meant told) }
        ensures stays { (ms : List ModuleTerm) → AreNumbers ms self.old → StayNumbers ms self.old self.new }
    {
        self.new_number(Meaning::Standard(standard), None)
    }

    /// The number of the type that a name means; none where it means no type.
    pub fn type_number(&mut self, meaning: Meaning) -> Result<Option<usize>, AllocError>
        // the number of the key of the type that is meant, or none where none is
        ensures told { IfOk result (λ told. (ms : List ModuleTerm) (meant : Meant) → AreNumbers ms self.old →
            Means ms meaning meant → TellsNumber ms self.new.lists meant told) }

        // what had a number keeps it
        ensures stays { (ms : List ModuleTerm) → AreNumbers ms self.old → StayNumbers ms self.old self.new }
    {
        match meaning {
            Meaning::TypeAt(assignment) => self.assigned_number(assignment),
            Meaning::Standard(standard) => self.standard_number(standard),
            Meaning::ValueAt(_) => Ok(None),
            Meaning::Nothing => Ok(None),
        }
    }

    /// Whether a type is INTEGER, under any tags.
    pub fn is_integer(&self, number: usize) -> bool
        ensures { (key : TypeKey) → IsKeyNumber self.now.lists key number → result ≡ is_integer_key key }
    {
        self.lists.is_integer(number)
    }

    /// Whether a type, under any tags, is an INTEGER or ENUMERATED with a number of this name.
    pub fn names_number(&mut self, number: usize, name: &[u8]) -> Result<bool, AllocError>
        ensures told { IfOk result (λ has. (key : TypeKey) → IsKeyNumber self.old.lists key number →
            has ≡ has_number_key name.now key) }

        // what had a number keeps it
        ensures stays { (ms : List ModuleTerm) → AreNumbers ms self.old → StayNumbers ms self.old self.new }
    {
        let has = self.lists.names_number(number, name);
        self.lists.has_each_once();
        has
    }

    /// The number of the type of the first component of this name, of a SEQUENCE or SET under any tags.
    pub fn component(&mut self, number: usize, name: &[u8]) -> Result<Option<usize>, AllocError>
        ensures told { IfOk result (λ told. (key : TypeKey) → IsKeyNumber self.old.lists key number →
            TellsComponent self.new.lists (component_key name.now key) told) }

        // what had a number keeps it
        ensures stays { (ms : List ModuleTerm) → AreNumbers ms self.old → StayNumbers ms self.old self.new }
    {
        let component = self.lists.component(number, name);
        self.lists.has_each_once();
        component
    }
}
