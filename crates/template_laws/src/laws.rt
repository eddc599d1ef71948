//! Laws of templates, as contracts: docs/PROFILE.md, section 2.

ghost use Rattle.template_laws.specs.OneTemplate.{TemplatesHaveOneTree};

/// From one place tokens spell a template of each kind in one way. Does nothing.
pub fn templates_have_one_tree()
    ensures { TemplatesHaveOneTree }
{}
