//! The number of its document, which a unit gets once it is read (docs/PROFILE.md, section 2).

ghost use Rattle.std.specs.Prelude.{◌≡◌};
ghost use Rattle.document_parts.specs.DocumentParts.{numbered_class, numbered_member, numbered_module};
ghost use Rattle.document_parts.specs.DocumentParts.{numbered_section};

use asn1_syntax::Module;
use extra_syntax::Section;
use gdmo_classes::ClassTemplate;
use gdmo_members::MemberTemplate;

/// A template of a managed object class, a package or a name binding, with the number of its document.
pub(crate) fn number_class(mut template: ClassTemplate, document: u32) -> ClassTemplate
    ensures { result ≡ numbered_class document template }
{
    match &mut template {
        ClassTemplate::Class(class) => class.document = document,
        ClassTemplate::Package(package) => package.document = document,
        ClassTemplate::NameBinding(binding) => binding.document = document,
    }
    template
}

/// A template of one of the other six kinds, with the number of its document.
pub(crate) fn number_member(mut template: MemberTemplate, document: u32) -> MemberTemplate
    ensures { result ≡ numbered_member document template }
{
    match &mut template {
        MemberTemplate::Attribute(attribute) => attribute.document = document,
        MemberTemplate::Group(group) => group.document = document,
        MemberTemplate::Action(action) => action.document = document,
        MemberTemplate::Notification(notification) => notification.document = document,
        MemberTemplate::Parameter(parameter) => parameter.document = document,
        MemberTemplate::Behaviour(behaviour) => behaviour.document = document,
    }
    template
}

/// A module with the number of its document.
pub(crate) fn number_module(mut read: Module, document: u32) -> Module
    ensures { result ≡ numbered_module document read }
{
    read.document = document;
    read
}

/// A section with the number of its document.
pub(crate) fn number_section(mut section: Section, document: u32) -> Section
    ensures { result ≡ numbered_section document section }
{
    match &mut section {
        Section::Rules(rules) => rules.document = document,
        Section::Instances(instances) => instances.document = document,
    }
    section
}
