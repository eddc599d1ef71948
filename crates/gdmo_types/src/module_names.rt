//! Names of modules, and what `Module.Type` and `Module.value` mean in templates (X.680, sections 13 and 14; X.722,
//! section 8; docs/PROFILE.md, section 12).

ghost use Rattle.std.specs.Prelude.{◌≡◌, IfOk, OnOk, true};
ghost use Rattle.asn1_names.specs.CodeMeanings.{Means};
ghost use Rattle.asn1_names.specs.NameMeaning.Meaning.{Nothing};
ghost use Rattle.asn1_names.specs.TermViews.{module_term, module_terms};
ghost use Rattle.gdmo_names.specs.ClassViews.{package_term, stated_term};
ghost use Rattle.gdmo_names.specs.FaultSets.{AnyOf, Notes, OneFault};
ghost use Rattle.gdmo_names.specs.FirstLabelFault.LabelFault.{LabelDouble, LabelUnknown};
ghost use Rattle.gdmo_names.specs.FoundViews.{body_term};
ghost use Rattle.gdmo_names.specs.MemberViews.{action_term, attribute_term, information_type, notification_term};
ghost use Rattle.gdmo_names.specs.MemberViews.{parameter_term};
ghost use Rattle.gdmo_names.specs.PartTerms.{body_of};
ghost use Rattle.gdmo_names.specs.TypeMeaning.{name_list, qualified_meaning, stated_values};
ghost use Rattle.gdmo_types.specs.ModuleNames.{AreModuleNames, AssignedTwice, DoubleModuleNames, GainsName, has_name};
ghost use Rattle.gdmo_types.specs.QualifiedFaults.{BodyNameFaults, PropertyFaults, TypeNameFaults, UnknownName};
ghost use Rattle.gdmo_types.specs.QualifiedFaults.{ValueNameFaults};

use asn1_names::Meaning;
use asn1_syntax::module::Module;
use asn1_types::Types;
use gdmo_classes::package::PackageTemplate;
use gdmo_classes::properties::{Properties, PropertyValue};
use gdmo_members::attribute::AttributeSyntax;
use gdmo_members::notification::Information;
use gdmo_members::parameter::ParameterSyntax;
use gdmo_members::{ActionTemplate, AttributeTemplate, NotificationTemplate, ParameterTemplate};
use gdmo_names::first_fault::{FaultKind, Faults};
use gdmo_names::found::Body;
use indexmap::IndexMap;
use std::alloc::{AllocError, Global};
use token_grammar::Token;
use token_grammar::qualified_name::QualifiedName;

/// Tells a table a name. That it has the name already is a fault.
fn note_name<'a>(
    names: &mut IndexMap<&'a [u8], ()>,
    document: u32,
    name: &'a Token,
    faults: &mut Faults,
) -> Result<(), AllocError>
    ensures names { OnOk result (GainsName names.old names.new name.now.text) }
    ensures faults { OnOk result (Notes (OneFault (has_name names.old name.now.text ≡ true) LabelDouble document
        name.now.at) faults.old.first faults.new.first) }
{
    let text = name.text.as_slice();
    if names.get(text).is_some() {
        faults.note(document, name, FaultKind::DoubleLabel);
        return Ok(());
    }
    names.insert(text, ())?;
    Ok(())
}

/// Notes the names that a module assigns twice.
fn note_assigned_twice(alloc: Global, text: &Module, faults: &mut Faults) -> Result<(), AllocError>
    ensures { OnOk result (Notes (AssignedTwice (module_term text.now)) faults.old.first faults.new.first) }
{
    let mut names: IndexMap<&[u8], ()> = IndexMap::new(alloc);
    for assignment in text.assignments.iter() {
        note_name(&mut names, text.document, &assignment.name, faults)?;
    }
    Ok(())
}

/// The names of the modules, CMIP-1 among them, which is a module before all documents. A name that two of them have is
/// a fault at the later one, and so is a name that a module assigns twice.
pub fn module_names<'a>(
    alloc: Global,
    modules: &'a [Module],
    faults: &mut Faults,
) -> Result<IndexMap<&'a [u8], ()>, AllocError>
    ensures names { IfOk result (λ names. AreModuleNames (module_terms modules.now) names) }
    ensures faults { OnOk result (Notes (DoubleModuleNames (module_terms modules.now)) faults.old.first
        faults.new.first) }
{
    let mut names: IndexMap<&'a [u8], ()> = IndexMap::new(alloc);
    names.insert("CMIP-1".as_bytes(), ())?;
    for module in modules.iter() {
        note_name(&mut names, module.document, &module.name, faults)?;
        note_assigned_twice(alloc, module, faults)?;
    }
    Ok(names)
}

/// What templates name in modules.
#[derive(Clone, Copy)]
pub struct NamedThings<'a, 't> {
    /// The names of the modules, CMIP-1 among them.
    pub modules: &'t IndexMap<&'a [u8], ()>,
    /// What names of modules mean.
    pub types: &'t Types<'a>,
}

impl<'a, 't> NamedThings<'a, 't> {
    /// What a name means; a fault where there is no such module, or it assigns no such name.
    fn meaning(&self, document: u32, name: &QualifiedName, faults: &mut Faults) -> Meaning
        ensures means { AreModuleNames (module_terms self.now.types.now) self.now.modules.now →
            Means (module_terms self.now.types.now) result
            (qualified_meaning (module_terms self.now.types.now) name.now) }
        ensures faults { AreModuleNames (module_terms self.now.types.now) self.now.modules.now →
            Notes (UnknownName (module_terms self.now.types.now) document name.now) faults.old.first
            faults.new.first }
    {
        match self.modules.get(name.module_name.text.as_slice()) {
            Some(_) => self.meaning_in(document, name, faults),
            None => {
                faults.note(document, &name.module_name, FaultKind::UnknownLabel);
                Meaning::Nothing
            }
        }
    }

    /// What a name of a module that there is means.
    fn meaning_in(&self, document: u32, name: &QualifiedName, faults: &mut Faults) -> Meaning
        ensures means { Means (module_terms self.now.types.now) result
            (qualified_meaning (module_terms self.now.types.now) name.now) }
        ensures faults { Notes (OneFault (qualified_meaning (module_terms self.now.types.now) name.now ≡ Nothing)
            LabelUnknown document name.now.name.at) faults.old.first faults.new.first }
    {
        let meaning = self.types.meaning(
            name.module_name.text.as_slice(),
            name.name.text.as_slice(),
        );
        match meaning {
            Meaning::TypeAt(_) => meaning,
            Meaning::ValueAt(_) => meaning,
            Meaning::Standard(_) => meaning,
            Meaning::Nothing => {
                faults.note(document, &name.name, FaultKind::UnknownLabel);
                Meaning::Nothing
            }
        }
    }

    /// Notes what is wrong with the name of a type.
    fn note_type(&self, document: u32, name: &QualifiedName, faults: &mut Faults)
        ensures { AreModuleNames (module_terms self.now.types.now) self.now.modules.now →
            Notes (TypeNameFaults (module_terms self.now.types.now) document name.now) faults.old.first
            faults.new.first }
    {
        match self.meaning(document, name, faults) {
            Meaning::ValueAt(_) => faults.note(document, &name.name, FaultKind::WrongKind),
            Meaning::TypeAt(_) => {}
            Meaning::Standard(_) => {}
            Meaning::Nothing => {}
        }
    }

    fn note_stated_type(&self, document: u32, name: &Option<QualifiedName>, faults: &mut Faults)
        ensures { AreModuleNames (module_terms self.now.types.now) self.now.modules.now →
            Notes (AnyOf (TypeNameFaults (module_terms self.now.types.now) document) (name_list name.now))
            faults.old.first faults.new.first }
    {
        if let Some(name) = name {
            self.note_type(document, name, faults);
        }
    }

    /// Notes what is wrong with the name of a value.
    fn note_value(&self, document: u32, name: &QualifiedName, faults: &mut Faults)
        ensures { AreModuleNames (module_terms self.now.types.now) self.now.modules.now →
            Notes (ValueNameFaults (module_terms self.now.types.now) document name.now) faults.old.first
            faults.new.first }
    {
        match self.meaning(document, name, faults) {
            Meaning::ValueAt(_) => {}
            Meaning::TypeAt(_) => faults.note(document, &name.name, FaultKind::WrongKind),
            Meaning::Standard(_) => faults.note(document, &name.name, FaultKind::WrongKind),
            Meaning::Nothing => {}
        }
    }

    fn note_stated_value(&self, document: u32, value: &Option<PropertyValue>, faults: &mut Faults)
        ensures { AreModuleNames (module_terms self.now.types.now) self.now.modules.now →
            Notes (AnyOf (ValueNameFaults (module_terms self.now.types.now) document)
            (stated_values (stated_term value.now))) faults.old.first faults.new.first }
    {
        if let Some(PropertyValue::Value(name)) = value {
            self.note_value(document, name, faults);
        }
    }

    /// Notes what is wrong with the names of types and values in the properties of an attribute.
    fn note_properties(&self, document: u32, properties: &Properties, faults: &mut Faults)
        ensures { AreModuleNames (module_terms self.now.types.now) self.now.modules.now →
            Notes (PropertyFaults (module_terms self.now.types.now) document properties.now) faults.old.first
            faults.new.first }
    {
        self.note_stated_value(document, &properties.default_value, faults);
        self.note_stated_value(document, &properties.initial_value, faults);
        self.note_stated_type(document, &properties.permitted_values, faults);
        self.note_stated_type(document, &properties.required_values, faults);
    }

    fn note_package(&self, document: u32, template: &PackageTemplate, faults: &mut Faults)
        ensures { AreModuleNames (module_terms self.now.types.now) self.now.modules.now →
            Notes (BodyNameFaults (module_terms self.now.types.now) document (body_of (package_term template.now)))
            faults.old.first faults.new.first }
    {
        if let Some(attributes) = &template.attributes {
            for x in attributes.iter() {
                self.note_properties(document, &x.properties, faults);
            }
        }
    }

    fn note_parameter(&self, document: u32, parameter: &ParameterTemplate, faults: &mut Faults)
        ensures { AreModuleNames (module_terms self.now.types.now) self.now.modules.now →
            Notes (BodyNameFaults (module_terms self.now.types.now) document
            (body_of (parameter_term parameter.now))) faults.old.first faults.new.first }
    {
        match &parameter.syntax {
            ParameterSyntax::TypeReference(name) => self.note_type(document, name, faults),
            ParameterSyntax::Attribute(_) => {}
        }
    }

    fn note_attribute(&self, document: u32, attribute: &AttributeTemplate, faults: &mut Faults)
        ensures { AreModuleNames (module_terms self.now.types.now) self.now.modules.now →
            Notes (BodyNameFaults (module_terms self.now.types.now) document
            (body_of (attribute_term attribute.now))) faults.old.first faults.new.first }
    {
        match &attribute.syntax {
            AttributeSyntax::TypeReference(name) => self.note_type(document, name, faults),
            AttributeSyntax::Derived(_) => {}
        }
    }

    fn note_action(&self, document: u32, action: &ActionTemplate, faults: &mut Faults)
        ensures { AreModuleNames (module_terms self.now.types.now) self.now.modules.now →
            Notes (BodyNameFaults (module_terms self.now.types.now) document (body_of (action_term action.now)))
            faults.old.first faults.new.first }
    {
        self.note_stated_type(document, &action.information, faults);
        self.note_stated_type(document, &action.reply, faults);
    }

    fn note_information(
        &self,
        document: u32,
        information: &Option<Information>,
        faults: &mut Faults,
    )
        ensures { AreModuleNames (module_terms self.now.types.now) self.now.modules.now →
            Notes (AnyOf (TypeNameFaults (module_terms self.now.types.now) document)
            (name_list (information_type information.now))) faults.old.first faults.new.first }
    {
        if let Some(information) = information {
            self.note_type(document, &information.syntax, faults);
        }
    }

    fn note_notification(
        &self,
        document: u32,
        notification: &NotificationTemplate,
        faults: &mut Faults,
    )
        ensures { AreModuleNames (module_terms self.now.types.now) self.now.modules.now →
            Notes (BodyNameFaults (module_terms self.now.types.now) document
            (body_of (notification_term notification.now))) faults.old.first faults.new.first }
    {
        self.note_information(document, &notification.information, faults);
        self.note_stated_type(document, &notification.reply, faults);
    }

    /// Notes what is wrong with the names of types and values in a template.
    pub fn note_template(&self, document: u32, body: &Body, faults: &mut Faults)
        ensures { AreModuleNames (module_terms self.now.types.now) self.now.modules.now →
            Notes (BodyNameFaults (module_terms self.now.types.now) document (body_term body.now)) faults.old.first
            faults.new.first }
    {
        match body {
            Body::Class(_) => {}
            Body::Package(package) => self.note_package(document, package, faults),
            Body::Parameter(parameter) => self.note_parameter(document, parameter, faults),
            Body::Binding(_) => {}
            Body::Attribute(attribute) => self.note_attribute(document, attribute, faults),
            Body::Group(_) => {}
            Body::Behaviour(_) => {}
            Body::Action(action) => self.note_action(document, action, faults),
            Body::Notification(notification) => {
                self.note_notification(document, notification, faults);
            }
        }
    }
}
