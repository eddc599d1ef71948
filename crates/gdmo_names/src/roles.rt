//! Where templates are named, and what is wanted there (X.722, sections 8.3 to 8.11; docs/PROFILE.md, section 12).

ghost use Rattle.std.specs.Prelude.{◌≡◌};
ghost use Rattle.gdmo_names.specs.Mentions.{must_be_registered, wanted_kind};
ghost use Rattle.gdmo_names.specs.Roles.{kind_term, role_term};

/// The nine kinds of templates.
#[derive(Clone, Copy, PartialEq, Eq)]
pub enum TemplateKind {
    /// A managed object class.
    Class,
    /// A package.
    Package,
    /// A parameter.
    Parameter,
    /// A name binding.
    Binding,
    /// An attribute.
    Attribute,
    /// An attribute group.
    Group,
    /// A behaviour.
    Behaviour,
    /// An action.
    Action,
    /// A notification.
    Notification,
}

/// Where a template is named.
#[derive(Clone, Copy, PartialEq, Eq)]
pub enum Role {
    /// DERIVED FROM of a class.
    Superclass,
    /// CHARACTERIZED BY.
    MandatoryPackage,
    /// CONDITIONAL PACKAGES.
    ConditionalPackage,
    /// ATTRIBUTES of a package.
    PackageAttribute,
    /// ATTRIBUTE GROUPS of a package.
    PackageGroup,
    /// An attribute behind a group of a package.
    AddedAttribute,
    /// ACTIONS of a package.
    PackageAction,
    /// NOTIFICATIONS of a package.
    PackageNotification,
    /// DERIVATION RULE.
    DerivationRule,
    /// SUBORDINATE OBJECT CLASS.
    SubordinateClass,
    /// NAMED BY SUPERIOR OBJECT CLASS.
    SuperiorClass,
    /// WITH ATTRIBUTE.
    NamingAttribute,
    /// DERIVED FROM of an attribute.
    BaseAttribute,
    /// ATTRIBUTE of a parameter.
    ParameterAttribute,
    /// GROUP ELEMENTS.
    GroupElement,
    /// AND ATTRIBUTE IDS.
    FieldAttribute,
    /// PARAMETERS, and parameters behind other references.
    OfParameter,
    /// BEHAVIOUR.
    OfBehaviour,
    /// ON of a rule.
    RuleClass,
    /// ACTION of a rule.
    RuleAction,
    /// The attribute of a step.
    StepAttribute,
    /// EMIT.
    StepNotification,
    /// ROOT or OBJECT.
    InstanceClass,
    /// AT.
    NameAttribute,
    /// WITH.
    GivenAttribute,
    /// PACKAGES.
    ChosenPackage,
}

impl Role {
    /// The kind of template that is wanted.
    pub fn wanted_kind(self) -> TemplateKind
        ensures { kind_term result ≡ wanted_kind (role_term self) }
    {
        match self {
            Role::Superclass
            | Role::SubordinateClass
            | Role::SuperiorClass
            | Role::RuleClass
            | Role::InstanceClass => TemplateKind::Class,
            Role::MandatoryPackage | Role::ConditionalPackage | Role::ChosenPackage => {
                TemplateKind::Package
            }
            Role::PackageGroup => TemplateKind::Group,
            Role::PackageAction | Role::RuleAction => TemplateKind::Action,
            Role::PackageNotification | Role::StepNotification => TemplateKind::Notification,
            Role::DerivationRule | Role::OfBehaviour => TemplateKind::Behaviour,
            Role::OfParameter => TemplateKind::Parameter,
            Role::PackageAttribute
            | Role::AddedAttribute
            | Role::NamingAttribute
            | Role::BaseAttribute
            | Role::ParameterAttribute
            | Role::GroupElement
            | Role::FieldAttribute
            | Role::StepAttribute
            | Role::NameAttribute
            | Role::GivenAttribute => TemplateKind::Attribute,
        }
    }

    /// Whether the template must be registered, since what is compiled names it by its identifier.
    pub fn must_be_registered(self) -> bool
        ensures { result ≡ must_be_registered (role_term self) }
    {
        match self {
            Role::PackageAttribute
            | Role::AddedAttribute
            | Role::NamingAttribute
            | Role::GroupElement
            | Role::FieldAttribute
            | Role::NameAttribute
            | Role::GivenAttribute
            | Role::ChosenPackage => true,
            _ => false,
        }
    }
}
