//! Which name bindings allow an object below another one: X.722, section 8.6; X.720, section 6.

ghost use Rattle.std.specs.Prelude.{◌≡◌, IfOk};
ghost use Rattle.std.specs.List.{list_any};
ghost use Rattle.term_model.specs.Comparing.{is_same_oid};
ghost use Rattle.term_model.specs.Licensing.{names_by};
ghost use Rattle.op_life.specs.Attempting.{binds_by, is_bound_by, licenses_by, line_of};

use class_packages::{classes_above, is_among};
use creation_values::attribute_tests::is_agent_written;
use std::alloc::{AllocError, Global};
use term_model::name_binding::BoundClass;
use term_model::{BindRec, Oids, Outline, Set};
use term_values::Oid;

/// A class with those above it, itself among them.
#[derive(Drop)]
pub struct ClassLine {
    /// The class.
    pub class: Oid,
    /// The class and those from which it derives.
    pub above: Oids,
}

/// A class with those above it.
pub fn class_line(alloc: Global, schema: &Set, class: &Oid) -> Result<ClassLine, AllocError>
    ensures { IfOk result (λ line. line ≡ line_of schema.now class.now) }
{
    let above = classes_above(alloc, &schema.classes, class)?;
    let class = class.copy(alloc)?;
    Ok(ClassLine { class, above })
}

/// Whether one of these identifiers is this one.
fn is_listed(id: &Oid, ids: &[Oid]) -> bool
    ensures { result ≡ list_any (is_same_oid id.now) ids.now }
{
    for other in ids {
        if id == other {
            return true;
        }
    }
    false
}

/// Whether a class is the one that a binding names or, with AND SUBCLASSES, derives from it.
fn is_bound_by(bound: &BoundClass, line: &ClassLine) -> bool
    ensures { result ≡ is_bound_by bound.now line.now }
{
    bound.class == line.class || bound.subclasses && is_listed(&bound.class, &line.above.items)
}

/// Whether a binding names objects of one class below those of another.
fn licenses_by(binding: &BindRec, subordinate: &ClassLine, superior: &ClassLine) -> bool
    ensures { result ≡ licenses_by subordinate.now superior.now binding.now }
{
    is_bound_by(&binding.subordinate, subordinate) && is_bound_by(&binding.superior, superior)
}

/// Whether it names them by the attribute.
pub fn binds_by(
    binding: &BindRec,
    subordinate: &ClassLine,
    superior: &ClassLine,
    attribute: &Oid,
) -> bool
    ensures { result ≡ binds_by subordinate.now superior.now attribute.now binding.now }
{
    binding.attribute == *attribute && licenses_by(binding, subordinate, superior)
}

/// Whether an object can be named by the attribute: it is one of its own, which the agent doesn't write.
pub fn names_by(schema: &Set, outline: &Outline, attribute: &Oid) -> bool
    ensures { result ≡ names_by schema.now outline.now attribute.now }
{
    is_among(&outline.attributes.items, attribute)
        && !is_agent_written(schema, outline.bound_log, attribute)
}
