//! Templates, rules and instances with the targets of their references (X.722, section 8; docs/PROFILE.md, section 12).
//! A target is told by its number, counted from 0, in the table of its kind.

use asn1_values_syntax::value::ValueText;
use term_values::Oid;
use token_grammar::Token;

/// What a name of a type, or of a value, means.
#[derive(Drop)]
pub enum NamedMeaning {
    /// What a module assigns.
    Assigned {
        /// The place of the module among the modules.
        module: usize,
        /// The place of the assignment in the module.
        assignment: usize,
    },
    /// The type that CMIP-1 has under this name.
    Standard(Token),
}

/// `Module.Type` or `Module.value`, with what it means.
#[derive(Drop)]
pub struct LinkedName {
    /// The name behind the point, at which a fault of the value is told.
    pub name: Token,
    /// What it means.
    pub meaning: NamedMeaning,
}

/// What each template has: where it stands and what names it.
#[derive(Drop)]
pub struct LinkedHead {
    /// The number of its document.
    pub document: u32,
    /// Its label.
    pub label: Token,
    /// The identifier under which it is registered, where it is.
    pub identifier: Option<Oid>,
}

/// A managed object class: X.722, section 8.3.
#[derive(Drop)]
pub struct LinkedClass {
    /// Its head.
    pub head: LinkedHead,
    /// The classes of DERIVED FROM.
    pub superclasses: Vec<usize>,
    /// The packages of CHARACTERIZED BY.
    pub mandatory: Vec<usize>,
    /// The packages of CONDITIONAL PACKAGES.
    pub conditional: Vec<usize>,
}

/// An attribute of a package: X.722, section 8.4.
#[derive(Drop)]
pub struct LinkedUse {
    /// The attribute.
    pub attribute: usize,
    /// The token of the reference.
    pub token: Token,
    /// DEFAULT VALUE, where it is a value.
    pub default_value: Option<LinkedName>,
    /// INITIAL VALUE, where it is a value.
    pub initial_value: Option<LinkedName>,
    /// PERMITTED VALUES
    pub permitted: Option<LinkedName>,
    /// REQUIRED VALUES
    pub required: Option<LinkedName>,
    /// GET
    pub get: bool,
    /// REPLACE
    pub replace: bool,
    /// The word ADD or ADD-REMOVE, where it stands.
    pub add: Option<Token>,
    /// The word REMOVE or ADD-REMOVE, where it stands.
    pub remove: Option<Token>,
    /// REPLACE-WITH-DEFAULT
    pub set_to_default: bool,
}

/// A group of a package: X.722, section 8.4.
#[derive(Drop)]
pub struct LinkedGroupUse {
    /// The group.
    pub group: usize,
    /// The attributes that are added to it.
    pub added: Vec<usize>,
}

/// A package: X.722, section 8.4.
#[derive(Drop)]
pub struct LinkedPackage {
    /// Its head.
    pub head: LinkedHead,
    /// Its attributes.
    pub attributes: Vec<LinkedUse>,
    /// Its groups.
    pub groups: Vec<LinkedGroupUse>,
    /// Its actions.
    pub actions: Vec<usize>,
    /// Its notifications.
    pub notifications: Vec<usize>,
}

/// A name binding: X.722, section 8.6.
#[derive(Drop)]
pub struct LinkedBinding {
    /// Its head.
    pub head: LinkedHead,
    /// The subordinate class.
    pub subordinate: usize,
    /// AND SUBCLASSES stands behind it.
    pub subordinate_subclasses: bool,
    /// The superior class.
    pub superior: usize,
    /// AND SUBCLASSES stands behind it.
    pub superior_subclasses: bool,
    /// The naming attribute.
    pub attribute: usize,
    /// The words behind CREATE, where it stands.
    pub create: Option<Vec<Token>>,
    /// The words behind DELETE, where it stands.
    pub delete: Option<Vec<Token>>,
}

/// What says which syntax an attribute has: X.722, section 8.7.
#[derive(Drop)]
pub enum LinkedSyntax {
    /// WITH ATTRIBUTE SYNTAX
    OfType(LinkedName),
    /// DERIVED FROM
    OfAttribute(usize),
}

/// An attribute: X.722, section 8.7.
#[derive(Drop)]
pub struct LinkedAttribute {
    /// Its head.
    pub head: LinkedHead,
    /// What says which syntax it has.
    pub syntax: LinkedSyntax,
    /// The words of MATCHES FOR.
    pub rules: Vec<Token>,
}

/// An attribute group: X.722, section 8.8.
#[derive(Drop)]
pub struct LinkedGroup {
    /// Its head.
    pub head: LinkedHead,
    /// The attributes of GROUP ELEMENTS.
    pub elements: Vec<usize>,
    /// FIXED
    pub fixed: bool,
}

/// An action: X.722, section 8.10.
#[derive(Drop)]
pub struct LinkedAction {
    /// Its head.
    pub head: LinkedHead,
    /// MODE CONFIRMED
    pub confirmed: bool,
    /// WITH INFORMATION SYNTAX
    pub information: Option<LinkedName>,
    /// WITH REPLY SYNTAX
    pub reply: Option<LinkedName>,
}

/// A field of AND ATTRIBUTE IDS: X.722, section 8.11.
#[derive(Drop)]
pub struct LinkedField {
    /// The name of the component.
    pub name: Token,
    /// The attribute.
    pub attribute: usize,
}

/// A notification: X.722, section 8.11.
#[derive(Drop)]
pub struct LinkedNotification {
    /// Its head.
    pub head: LinkedHead,
    /// WITH INFORMATION SYNTAX
    pub information: Option<LinkedName>,
    /// AND ATTRIBUTE IDS
    pub fields: Vec<LinkedField>,
    /// WITH REPLY SYNTAX
    pub reply: Option<LinkedName>,
}

/// A step of a rule: docs/PROFILE.md, section 9.
#[derive(Drop)]
pub enum LinkedStep {
    /// SET attribute TO ARGUMENT
    SetArgument(usize),
    /// SET attribute TO value
    SetValue(usize, ValueText),
    /// ADD number TO attribute
    Add(u64, usize),
    /// EMIT notification, with its value where one stands
    Emit(usize, Option<ValueText>),
    /// REPLY ARGUMENT
    ReplyArgument,
    /// REPLY attribute
    ReplyAttribute(usize),
    /// REPLY value
    ReplyValue(ValueText),
}

/// What an action does to objects of a class: docs/PROFILE.md, section 9.
#[derive(Drop)]
pub struct LinkedRule {
    /// The number of its document.
    pub document: u32,
    /// The class.
    pub class: usize,
    /// The action.
    pub action: usize,
    /// The steps, in order.
    pub steps: Vec<LinkedStep>,
}

/// A pair of an attribute and its value.
#[derive(Drop)]
pub struct LinkedPair {
    /// The attribute.
    pub attribute: usize,
    /// The value.
    pub value: ValueText,
}

/// An object at the opening: docs/PROFILE.md, section 9.
#[derive(Drop)]
pub struct LinkedInstance {
    /// The number of its document.
    pub document: u32,
    /// It stands behind ROOT.
    pub is_root: bool,
    /// Its class.
    pub class: usize,
    /// The pairs of its name.
    pub name: Vec<LinkedPair>,
    /// The pairs behind WITH.
    pub given: Vec<LinkedPair>,
    /// The packages behind PACKAGES.
    pub packages: Vec<usize>,
}

/// A name with which object identifiers begin, and what it stands for: X.680, section 32.
#[derive(Drop)]
pub struct LinkedFirstName {
    /// The name, where the first module that defines it assigns it.
    pub name: Token,
    /// Its arcs, at most 64.
    pub arcs: Vec<u64>,
}

/// The templates of a set of documents that records are made of, those in line among them, and the rules and the
/// instances, with the targets of their references. Parameters and behaviours say nothing that is compiled.
#[derive(Drop)]
pub struct Linked {
    /// The managed object classes.
    pub classes: Vec<LinkedClass>,
    /// The packages.
    pub packages: Vec<LinkedPackage>,
    /// The name bindings.
    pub bindings: Vec<LinkedBinding>,
    /// The attributes.
    pub attributes: Vec<LinkedAttribute>,
    /// The attribute groups.
    pub groups: Vec<LinkedGroup>,
    /// The actions.
    pub actions: Vec<LinkedAction>,
    /// The notifications.
    pub notifications: Vec<LinkedNotification>,
    /// The rules.
    pub rules: Vec<LinkedRule>,
    /// The instances.
    pub instances: Vec<LinkedInstance>,
    /// The first names, other than those of the roots, with which identifiers or values begin, each once. One with more
    /// than 64 arcs isn't told: no object identifier begins with it.
    pub first_names: Vec<LinkedFirstName>,
}
