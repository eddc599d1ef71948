//! By which number each template is told: its place among the templates of its kind (docs/PROFILE.md, section 12); and
//! what linked parts tell of names.

ghost use Rattle.std.specs.Prelude.{◌≡◌, ◌≢◌, ◌<◌, ◌+◌, ◌^◌, ◌++◌, ℕ, List, [], ◌∷◌, Some, IfOk, OnOk, length, map, get_or, set};
ghost use Rattle.std.specs.Prelude.{slice_get};
ghost use Rattle.std.specs.Option.{option_and_then};
ghost use Rattle.asn1_names.specs.AssignmentNumbers.{Numbered, numbered_at, numbered_from};
ghost use Rattle.asn1_names.specs.CodeMeanings.{Means};
ghost use Rattle.asn1_names.specs.NameMeaning.{Meaning as NameMeaning};
ghost use Rattle.asn1_names.specs.NameMeaning.Meaning.{Nothing};
ghost use Rattle.asn1_names.specs.TermViews.{assignment_term, module_terms};
ghost use Rattle.gdmo_names.specs.ClassViews.{stated_term};
ghost use Rattle.gdmo_names.specs.FoundViews.{found_term, found_view, found_views};
ghost use Rattle.gdmo_names.specs.InStep.{AreAll, AreEach};
ghost use Rattle.gdmo_names.specs.Mentions.{Mention as NamedMention, template_mentions};
ghost use Rattle.gdmo_names.specs.PartTerms.{PartTerms, identifier_of, module_terms_of};
ghost use Rattle.gdmo_names.specs.Roles.{kind_term, role_term};
ghost use Rattle.gdmo_names.specs.TargetTables.{TellsMention};
ghost use Rattle.gdmo_names.specs.TypeMeaning.{name_list, stated_values};
ghost use Rattle.gdmo_linking.specs.InRoles.{is_role, only, role_number};
ghost use Rattle.gdmo_linking.specs.LinkedNames.{IsHead, IsLinkedIdentifier, IsLinkedName, IsOptionalName, IsMeant as IsMeant'};
ghost use Rattle.gdmo_linking.specs.LinkedNames.{stated_name};
ghost use Rattle.gdmo_linking.specs.LinkedTables.{kind_number};
ghost use Rattle.gdmo_linking.specs.Linkers.{ArePlaces, ArePlacesOf, IsLinker, IsMeant, IsNamed, IsOwn};
ghost use Rattle.gdmo_linking.specs.Linkers.{LinksMention, place_at, place_of};
ghost use Rattle.linked_parts.specs.declared.linked.NamedMeaning.TheVariants.{Assigned};

use asn1_names::name_tables::{Meaning, NameTables};
use asn1_syntax::module::Assignment;
use gdmo_classes::properties::PropertyValue;
use gdmo_names::found::{Found, Mention, kind_of};
use gdmo_names::roles::{Role, TemplateKind};
use gdmo_types::linkage::Linkage;
use linked_parts::linked::{LinkedHead, LinkedName, NamedMeaning};
use std::alloc::{AllocError, Global};
use term_values::Oid;
use token_grammar::Token;
use token_grammar::qualified_name::QualifiedName;
use token_grammar::token_reading::copy_token;

/// The number of a kind, in the order of the standard's clauses.
fn kind_number(kind: TemplateKind) -> usize
    ensures { result ≡ kind_number (kind_term kind) }
{
    match kind {
        TemplateKind::Class => 0,
        TemplateKind::Package => 1,
        TemplateKind::Parameter => 2,
        TemplateKind::Binding => 3,
        TemplateKind::Attribute => 4,
        TemplateKind::Group => 5,
        TemplateKind::Behaviour => 6,
        TemplateKind::Action => 7,
        TemplateKind::Notification => 8,
    }
}

/// The next number, where there is one.
fn next_number(number: usize) -> usize
    ensures { number + 1 < 2 ^ 64 → result ≡ number + 1 }
{
    match number.checked_add(1) {
        Some(next) => next,
        None => number,
    }
}

/// The place of a further template of a kind, of which so many were counted, and counts it.
fn next_place(counts: &mut [usize], kind: TemplateKind) -> usize
    ensures place { result ≡ get_or counts.old (kind_number (kind_term kind)) 0 }
    ensures counts { kind_number (kind_term kind) < length counts.old →
        get_or counts.old (kind_number (kind_term kind)) 0 + 1 < 2 ^ 64 →
        counts.new ≡ set counts.old (kind_number (kind_term kind))
        (get_or counts.old (kind_number (kind_term kind)) 0 + 1) }
{
    let number = kind_number(kind);
    if number >= counts.len() {
        return 0;
    }
    let place = counts[number];
    counts[number] = next_number(place);
    place
}

/// The place of each template among those of its kind.
pub fn kind_places(alloc: Global, templates: &[Found]) -> Result<Vec<usize>, AllocError>
    ensures { IfOk result (λ places. ArePlaces (found_views templates.now) places.items) }
{
    let mut counts = [0usize; 9];
    let mut places = Vec::new(alloc);
    for found in templates.iter() {
        places.push(next_place(&mut counts, kind_of(&found.body)))?;
    }
    Ok(places)
}

/// Adds the places of the assignments of the module at a place.
fn push_places(
    home: usize,
    own: &[Assignment],
    places: &mut Vec<(usize, usize)>,
) -> Result<(), AllocError>
    ensures { OnOk result (places.new.items ≡
        places.old.items ++ map place_of (numbered_from home 0 (map assignment_term own.now))) }
{
    for place in 0..own.len() {
        places.push((home, place))?;
    }
    Ok(())
}

/// The place of each assignment in its module, by its number.
pub fn assignment_places(
    alloc: Global,
    tables: &NameTables,
) -> Result<Vec<(usize, usize)>, AllocError>
    ensures { IfOk result (λ places. ArePlacesOf (module_terms tables.now) places.items) }
{
    let mut places = Vec::new(alloc);
    let modules = tables.modules();
    for (home, own) in modules.iter().enumerate() {
        push_places(home, own.assignments.as_slice(), &mut places)?;
    }
    Ok(places)
}

/// What links templates whose references have no fault.
#[derive(Clone, Copy)]
pub struct Linker<'a, 't> {
    /// The templates, and what their references mean.
    pub linkage: Linkage<'a, 't>,
    /// The place of each template among those of its kind.
    pub places: &'t [usize],
    /// The module of each assignment, and its place in it.
    pub assignments: &'t [(usize, usize)],
}

/// The number of a role.
fn role_number(role: Role) -> usize
    ensures { result ≡ role_number (role_term role) }
{
    match role {
        Role::Superclass => 0,
        Role::MandatoryPackage => 1,
        Role::ConditionalPackage => 2,
        Role::PackageAttribute => 3,
        Role::PackageGroup => 4,
        Role::AddedAttribute => 5,
        Role::PackageAction => 6,
        Role::PackageNotification => 7,
        Role::DerivationRule => 8,
        Role::SubordinateClass => 9,
        Role::SuperiorClass => 10,
        Role::NamingAttribute => 11,
        Role::BaseAttribute => 12,
        Role::ParameterAttribute => 13,
        Role::GroupElement => 14,
        Role::FieldAttribute => 15,
        Role::OfParameter => 16,
        Role::OfBehaviour => 17,
        Role::RuleClass => 18,
        Role::RuleAction => 19,
        Role::StepAttribute => 20,
        Role::StepNotification => 21,
        Role::InstanceClass => 22,
        Role::NameAttribute => 23,
        Role::GivenAttribute => 24,
        Role::ChosenPackage => 25,
    }
}

/// Whether a template is named in a role.
fn is_in(mention: &Mention, role: Role) -> bool
    ensures { result ≡ is_role (role_term role) (role_term mention.now.role) }
{
    role_number(mention.role) == role_number(role)
}

/// A copy of an identifier that may stand.
fn copied_identifier(alloc: Global, identifier: &Option<Oid>) -> Result<Option<Oid>, AllocError>
    ensures { IfOk result (λ copy. copy ≡ identifier.now) }
{
    match identifier {
        Some(identifier) => Ok(Some(identifier.copy(alloc)?)),
        None => Ok(None),
    }
}

/// What stands at the place of a number; where nothing is missing, something does.
fn place_at(places: &[usize], number: Option<usize>) -> usize
    ensures { result ≡ place_at places.now number }
{
    match number {
        Some(number) => match places.get(number) {
            Some(place) => *place,
            None => 0,
        },
        None => 0,
    }
}

/// The pair at a place; where nothing is missing, one stands there.
fn pair_at(pairs: &[(usize, usize)], place: usize) -> (usize, usize)
    ensures { result ≡ get_or pairs.now place (0, 0) }
{
    match pairs.get(place) {
        Some(pair) => *pair,
        None => (0, 0),
    }
}

impl Linker<'_, '_> {
    /// The place of a template among those of its kind. Where nothing is wrong, no template is missing.
    pub fn place(&self, number: Option<usize>) -> usize
        ensures { (parts : PartTerms) (document : ℕ) (x : NamedMention) → IsLinker parts self.now →
            IsMeant parts document x → TellsMention parts self.now.linkage.templates.now document x number →
            LinksMention parts document x result }
    {
        place_at(self.places, number)
    }

    /// The places of templates.
    pub fn places(&self, numbers: &[Option<usize>]) -> Result<Vec<usize>, AllocError>
        ensures { IfOk result (λ places. (parts : PartTerms) (document : ℕ) (xs : List NamedMention) →
            IsLinker parts self.now → AreAll (IsMeant parts document) xs →
            AreEach (TellsMention parts self.now.linkage.templates.now document) xs numbers.now →
            AreEach (LinksMention parts document) xs places.items) }
    {
        let mut places = Vec::new(self.linkage.alloc);
        for k in 0..numbers.len() {
            places.push(self.place(target_at(numbers, k)))?;
        }
        Ok(places)
    }

    /// Adds the place of a template that is named, where it is named in a role.
    fn push_in_role(
        &self,
        role: Role,
        mention: &Mention,
        target: Option<usize>,
        places: &mut Vec<usize>,
    ) -> Result<(), AllocError>
        ensures { OnOk result ((parts : PartTerms) (document : ℕ) (before : List NamedMention) (x : NamedMention) →
            IsLinker parts self.now → IsMeant parts document x → role_term mention.now.role ≡ x.role →
            TellsMention parts self.now.linkage.templates.now document x target →
            AreEach (LinksMention parts document) (only (role_term role) before) places.old.items →
            AreEach (LinksMention parts document) (only (role_term role) (before ++ x ∷ [])) places.new.items) }
    {
        if is_in(mention, role) {
            places.push(self.place(target))?;
            Ok(())
        } else {
            Ok(())
        }
    }

    /// The places of the templates that a template names in a role, in their order. `targets` are the numbers of all
    /// templates that it names.
    pub fn in_role(
        &self,
        found: &Found,
        targets: &[Option<usize>],
        role: Role,
    ) -> Result<Vec<usize>, AllocError>
        ensures { IfOk result (λ places. (parts : PartTerms) → IsOwn parts self.now found.now targets.now →
            AreEach (LinksMention parts found.now.document) (only (role_term role)
            (template_mentions (found_term found.now))) places.items) }
    {
        let mut places = Vec::new(self.linkage.alloc);
        let mentions = found.mentions.as_slice();
        for (k, mention) in mentions.iter().enumerate() {
            self.push_in_role(role, mention, target_at(targets, k), &mut places)?;
        }
        Ok(places)
    }

    /// The place of the template that a template names in a role, where it names one in it.
    pub fn first_in_role(
        &self,
        found: &Found,
        targets: &[Option<usize>],
        role: Role,
    ) -> Result<usize, AllocError>
        ensures { IfOk result (λ k. (parts : PartTerms) (x : NamedMention) → IsOwn parts self.now found.now targets.now →
            only (role_term role) (template_mentions (found_term found.now)) ≡ x ∷ [] →
            LinksMention parts found.now.document x k) }
    {
        let places = self.in_role(found, targets, role)?;
        Ok(number_at(places.as_slice(), 0))
    }

    /// The head of a template.
    pub fn head(&self, found: &Found, identifier: &Option<Oid>) -> Result<LinkedHead, AllocError>
        ensures { IfOk result (λ head. (parts : PartTerms) →
            IsLinkedIdentifier parts (identifier_of (found_term found.now)) identifier.now →
            IsHead parts (found_view found.now) head) }
    {
        let label = self.token(found.label)?;
        let identifier = copied_identifier(self.linkage.alloc, identifier)?;
        Ok(LinkedHead {
            document: found.document,
            label,
            identifier,
        })
    }

    /// By which places an assignment is told.
    fn assigned(&self, number: usize) -> NamedMeaning
        ensures { (parts : PartTerms) (numbered : Numbered) → IsLinker parts self.now →
            numbered_at (module_terms_of parts) number ≡ Some numbered →
            result ≡ Assigned numbered.in_module numbered.place }
    {
        let pair = pair_at(self.assignments, number);
        NamedMeaning::Assigned {
            module: pair.0,
            assignment: pair.1,
        }
    }

    /// What a name means, of which the tables tell this.
    fn meant(&self, name: &Token, meaning: Meaning) -> Result<NamedMeaning, AllocError>
        ensures { IfOk result (λ meant. (parts : PartTerms) (is : NameMeaning) → IsLinker parts self.now →
            is ≢ Nothing → Means (module_terms_of parts) meaning is → IsMeant' name.now is meant) }
    {
        match meaning {
            Meaning::TypeAt(number) => Ok(self.assigned(number)),
            Meaning::ValueAt(number) => Ok(self.assigned(number)),
            Meaning::Standard(_) => Ok(NamedMeaning::Standard(self.token(name)?)),
            Meaning::Nothing => Ok(NamedMeaning::Standard(self.token(name)?)),
        }
    }

    /// What `Module.Type` or `Module.value` means. Where nothing is wrong, it means something.
    pub fn name(&self, name: &QualifiedName) -> Result<LinkedName, AllocError>
        ensures { IfOk result (λ linked. (parts : PartTerms) → IsLinker parts self.now → IsNamed parts name.now →
            IsLinkedName parts name.now linked) }
    {
        let module = name.module_name.text.as_slice();
        let meaning = self
            .linkage
            .types
            .meaning(module, name.name.text.as_slice());
        let meaning = self.meant(&name.name, meaning)?;
        Ok(LinkedName {
            name: self.token(&name.name)?,
            meaning,
        })
    }

    /// What a name means that may stand.
    pub fn optional_name(
        &self,
        name: &Option<QualifiedName>,
    ) -> Result<Option<LinkedName>, AllocError>
        ensures { IfOk result (λ linked. (parts : PartTerms) → IsLinker parts self.now →
            AreAll (IsNamed parts) (name_list name.now) → IsOptionalName parts name.now linked) }
    {
        match name {
            Some(name) => Ok(Some(self.name(name)?)),
            None => Ok(None),
        }
    }

    /// What a DEFAULT VALUE or INITIAL VALUE means; DERIVATION RULE gives no value.
    pub fn stated_value(
        &self,
        value: &Option<PropertyValue>,
    ) -> Result<Option<LinkedName>, AllocError>
        ensures { IfOk result (λ linked. (parts : PartTerms) → IsLinker parts self.now →
            AreAll (IsNamed parts) (stated_values (stated_term value.now)) →
            IsOptionalName parts (stated_name (stated_term value.now)) linked) }
    {
        match value {
            Some(PropertyValue::Value(name)) => Ok(Some(self.name(name)?)),
            Some(PropertyValue::Rule(_)) => Ok(None),
            None => Ok(None),
        }
    }

    /// A copy of a token.
    pub fn token(&self, token: &Token) -> Result<Token, AllocError>
        ensures { IfOk result (λ copy. copy ≡ token.now) }
    {
        copy_token(self.linkage.alloc, token)
    }
}

/// The number at a place; where nothing is missing, one stands there.
pub fn number_at(numbers: &[usize], place: usize) -> usize
    ensures { result ≡ get_or numbers.now place 0 }
{
    match numbers.get(place) {
        Some(number) => *number,
        None => 0,
    }
}

/// The target at a place.
pub fn target_at(targets: &[Option<usize>], place: usize) -> Option<usize>
    ensures { result ≡ option_and_then (λ x. x) (slice_get targets.now place) }
{
    match targets.get(place) {
        Some(target) => *target,
        None => None,
    }
}
