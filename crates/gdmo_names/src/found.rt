//! Templates as they are found in documents, each with the templates that it names (X.722, section 8).

ghost use Rattle.std.specs.Prelude.{◌≡◌, IfOk, option_map};
ghost use Rattle.gdmo_names.specs.FindingSteps.{Begins, Tells};
ghost use Rattle.gdmo_names.specs.FoundViews.{body_term};
ghost use Rattle.gdmo_names.specs.MemberViews.{identifier_term};
ghost use Rattle.gdmo_names.specs.PartTerms.{kind_of_body};
ghost use Rattle.gdmo_names.specs.Roles.{kind_term};
ghost use Rattle.gdmo_names.specs.TemplateTerms.TemplateTerm.{Template};

use crate::roles::{Role, TemplateKind};
use gdmo_classes::class::ObjectClassTemplate;
use gdmo_classes::name_binding::NameBindingTemplate;
use gdmo_classes::package::PackageTemplate;
use gdmo_members::{
    ActionTemplate, AttributeTemplate, BehaviourTemplate, GroupTemplate, NotificationTemplate,
    ParameterTemplate,
};
use std::alloc::{AllocError, Global};
use token_grammar::Token;
use token_grammar::object_identifier::ObjectIdentifier;

/// What a reference is: a label, or the number of the template that stands there in line.
#[derive(Clone, Copy)]
pub enum Target<'a> {
    /// A label.
    Label(&'a Token),
    /// A template in line.
    InLine(usize),
}

/// A template is named in a role.
#[derive(Clone, Copy)]
pub struct Mention<'a> {
    /// Where it is named.
    pub role: Role,
    /// What names it.
    pub target: Target<'a>,
}

/// The text of a template.
#[derive(Clone, Copy)]
pub enum Body<'a> {
    /// A managed object class.
    Class(&'a ObjectClassTemplate),
    /// A package.
    Package(&'a PackageTemplate),
    /// A parameter.
    Parameter(&'a ParameterTemplate),
    /// A name binding.
    Binding(&'a NameBindingTemplate),
    /// An attribute.
    Attribute(&'a AttributeTemplate),
    /// An attribute group.
    Group(&'a GroupTemplate),
    /// A behaviour.
    Behaviour(&'a BehaviourTemplate),
    /// An action.
    Action(&'a ActionTemplate),
    /// A notification.
    Notification(&'a NotificationTemplate),
}

/// A template.
#[derive(Drop)]
pub struct Found<'a> {
    /// The number of its document.
    pub document: u32,
    /// Its label.
    pub label: &'a Token,
    /// The identifier under which it is registered, where it is.
    pub identifier: Option<&'a ObjectIdentifier>,
    /// Its text.
    pub body: Body<'a>,
    /// What it names, in the order of its clauses.
    pub mentions: Vec<Mention<'a>>,
}

/// The kind of a template.
pub fn kind_of(body: &Body) -> TemplateKind
    ensures { kind_term result ≡ kind_of_body (body_term body.now) }
{
    match body {
        Body::Class(_) => TemplateKind::Class,
        Body::Package(_) => TemplateKind::Package,
        Body::Parameter(_) => TemplateKind::Parameter,
        Body::Binding(_) => TemplateKind::Binding,
        Body::Attribute(_) => TemplateKind::Attribute,
        Body::Group(_) => TemplateKind::Group,
        Body::Behaviour(_) => TemplateKind::Behaviour,
        Body::Action(_) => TemplateKind::Action,
        Body::Notification(_) => TemplateKind::Notification,
    }
}

/// The templates that were found so far, each before those that stand in line in it.
#[derive(Drop)]
pub struct Finding<'a> {
    /// For the tables.
    pub alloc: Global,
    /// The number of the document in which is looked.
    pub document: u32,
    /// The templates.
    pub templates: Vec<Found<'a>>,
}

impl<'a> Finding<'a> {
    /// Adds a template, of which is not told yet what it names, and answers its number.
    pub fn begin(
        &mut self,
        label: &'a Token,
        identifier: Option<&'a ObjectIdentifier>,
        body: Body<'a>,
    ) -> Result<usize, AllocError>
        ensures { IfOk result (λ number. Begins self.old self.new number (Template label.now
            (option_map (λ x. identifier_term x.now) identifier.entry) (body_term body.entry))) }
    {
        let number = self.templates.as_slice().len();
        let mentions = Vec::new(self.alloc);
        self.templates.push(Found {
            document: self.document,
            label,
            identifier,
            body,
            mentions,
        })?;
        Ok(number)
    }

    /// Tells what the template that has a number names.
    pub fn end(&mut self, number: usize, mentions: Vec<Mention<'a>>)
        ensures { Tells self.old self.new number mentions.entry }
    {
        if number < self.templates.len() {
            self.templates[number].mentions = mentions;
        }
    }
}
