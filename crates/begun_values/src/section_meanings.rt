//! The types of the values that rules and instances state (docs/PROFILE.md, sections 9 and 12).

ghost use Rattle.std.specs.Prelude.{◌≡◌, ℕ, option_map};
ghost use Rattle.token_grammar.specs.declared.token.Token.{Token};
ghost use Rattle.asn1_names.specs.TermViews.{module_terms};
ghost use Rattle.gdmo_names.specs.BegunNames.{told_of};
ghost use Rattle.gdmo_names.specs.FoundViews.{body_term, found_view, found_views, numbered};
ghost use Rattle.gdmo_names.specs.Mentions.{Role, wanted_kind};
ghost use Rattle.gdmo_names.specs.Mentions.Role.{RuleAction, StepNotification};
ghost use Rattle.gdmo_names.specs.PartTerms.{PartTerms, RuleTerm, module_terms_of};
ghost use Rattle.gdmo_names.specs.RuleWords.{reply_of};
ghost use Rattle.gdmo_names.specs.TemplateTerms.TemplateKind.{AttributeKind};
ghost use Rattle.gdmo_targets.specs.SectionTables.{TellsLabel};
ghost use Rattle.gdmo_types.specs.Linkages.{IsLinkage};
ghost use Rattle.begun_values.specs.MeantSyntaxes.{MayMean};
ghost use Rattle.begun_values.specs.SectionValues.{LabelledSyntax, ReplySyntax, StatedSyntax, ToldSyntax};

use asn1_names::Meaning;
use asn1_types::Types;
use gdmo_names::found::{Body, Found};
use gdmo_types::attribute_types::{AttributeType, type_meaning};
use gdmo_types::linkage::Linkage;
use token_grammar::qualified_name::QualifiedName;

/// The type of an attribute.
pub(crate) fn attribute_meaning(linkage: &Linkage, attribute: Option<usize>) -> Option<Meaning>
    ensures { (parts : PartTerms) (document : ℕ) (role : Role) (label : Token) → IsLinkage parts linkage.now →
        wanted_kind role ≡ AttributeKind → TellsLabel parts linkage.now.templates.now document role label attribute →
        MayMean (module_terms_of parts) (LabelledSyntax parts document role label) result }
{
    match attribute {
        Some(number) => match linkage.attributes.get(number) {
            Some(own) => match own {
                AttributeType::Of(meaning) => Some(*meaning),
                AttributeType::Endless => None,
                AttributeType::Missing => None,
            },
            None => None,
        },
        None => None,
    }
}

/// The type that is stated.
fn stated_meaning(types: &Types, name: Option<&QualifiedName>) -> Option<Meaning>
    ensures { MayMean (module_terms types.now) (StatedSyntax (module_terms types.now)
        (option_map (λ one. one.now) name.entry)) result }
{
    match name {
        Some(name) => type_meaning(types, name),
        None => None,
    }
}

/// The type of a notification's information.
fn information_of<'a>(body: &Body<'a>) -> Option<&'a QualifiedName>
    ensures { option_map (λ name. name.now) result ≡ told_of (body_term body.now) }
{
    match body {
        Body::Notification(template) => match &template.information {
            Some(information) => Some(&information.syntax),
            None => None,
        },
        Body::Class(_) => None,
        Body::Package(_) => None,
        Body::Parameter(_) => None,
        Body::Binding(_) => None,
        Body::Attribute(_) => None,
        Body::Group(_) => None,
        Body::Behaviour(_) => None,
        Body::Action(_) => None,
    }
}

/// The type of an action's reply.
fn reply_of<'a>(body: &Body<'a>) -> Option<&'a QualifiedName>
    ensures { option_map (λ name. name.now) result ≡ reply_of (body_term body.now) }
{
    match body {
        Body::Action(template) => match &template.reply {
            Some(name) => Some(name),
            None => None,
        },
        Body::Class(_) => None,
        Body::Package(_) => None,
        Body::Parameter(_) => None,
        Body::Binding(_) => None,
        Body::Attribute(_) => None,
        Body::Group(_) => None,
        Body::Behaviour(_) => None,
        Body::Notification(_) => None,
    }
}

/// The template that is told.
fn template_told<'a, 'l>(
    linkage: &'l Linkage<'a, '_>,
    number: Option<usize>,
) -> Option<&'l Found<'a>>
    ensures { option_map (λ found. found_view found.now) result ≡
        numbered (found_views linkage.now.templates.now) number }
{
    match number {
        Some(number) => linkage.templates.get(number),
        None => None,
    }
}

/// The type of a notification's information.
pub(crate) fn told_meaning(linkage: &Linkage, notification: Option<usize>) -> Option<Meaning>
    ensures { (parts : PartTerms) (document : ℕ) (label : Token) → IsLinkage parts linkage.now →
        TellsLabel parts linkage.now.templates.now document StepNotification label notification →
        MayMean (module_terms_of parts) (ToldSyntax parts document label) result }
{
    match template_told(linkage, notification) {
        Some(found) => stated_meaning(linkage.types, information_of(&found.body)),
        None => None,
    }
}

/// The type of an action's reply.
pub(crate) fn reply_meaning(linkage: &Linkage, action: Option<usize>) -> Option<Meaning>
    ensures { (parts : PartTerms) (rule : RuleTerm) → IsLinkage parts linkage.now →
        TellsLabel parts linkage.now.templates.now rule.document RuleAction rule.action action →
        MayMean (module_terms_of parts) (ReplySyntax parts rule) result }
{
    match template_told(linkage, action) {
        Some(found) => stated_meaning(linkage.types, reply_of(&found.body)),
        None => None,
    }
}
