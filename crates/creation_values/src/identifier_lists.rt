//! Values of identifiers: the class, the name binding and the packages of an object. X.721, top.

ghost use Rattle.std.specs.Prelude.{◌≡◌, ◌++◌, ◌∷◌, [], IfOk, OnOk, flat_map};
ghost use Rattle.term_values.specs.Typed.TypedValue.{Identifier, Many, Pick};
ghost use Rattle.term_values.specs.Typed.TypedValues.{Nothing};
ghost use Rattle.term_model.specs.CreateValues.{binding_value};
ghost use Rattle.term_model.specs.Creation.{identifiers_in, identifiers_of};

use std::alloc::{AllocError, Global};
use std::boxed::Box;
use term_model::Oids;
use term_values::value::ValueForm;
use term_values::{Oid, Value, Values};

/// The place of globalForm in ObjectClass.
const GLOBAL_FORM: u32 = 0;

/// An OBJECT IDENTIFIER.
pub fn identifier(oid: Oid) -> Value
    ensures { result ≡ Identifier oid }
{
    Value {
        form: ValueForm::Oid(oid),
    }
}

/// A class in globalForm.
pub fn class_choice_value(alloc: Global, class: &Oid) -> Result<Value, AllocError>
    ensures { IfOk result (λ value. value ≡ Pick 0 (Identifier class.now)) }
{
    let inner = identifier(class.copy(alloc)?);
    let boxed = Box::new(alloc, inner)?;
    Ok(Value {
        form: ValueForm::Pick(GLOBAL_FORM, boxed),
    })
}

/// The name binding of an object; 0.0 of the root, which has none.
pub fn binding_value(alloc: Global, binding: &Option<Oid>) -> Result<Value, AllocError>
    ensures { IfOk result (λ value. value ≡ binding_value binding.now) }
{
    match binding {
        Some(id) => Ok(identifier(id.copy(alloc)?)),
        None => no_binding(alloc),
    }
}

/// The identifier 0.0.
fn no_binding(alloc: Global) -> Result<Value, AllocError>
    ensures { IfOk result (λ value. value ≡ Identifier (0 ∷ 0 ∷ [])) }
{
    match Oid::from_arcs(vec![in alloc; 0, 0]?) {
        Some(oid) => Ok(identifier(oid)),
        None => Err(AllocError),
    }
}

/// A set without members.
pub fn no_identifiers(alloc: Global) -> Value
    ensures { result ≡ Many Nothing }
{
    Value {
        form: ValueForm::Many(Values {
            items: Vec::new(alloc),
        }),
    }
}

/// Appends the identifier that a value is, where it is one.
fn append_identifier(alloc: Global, value: &Value, into: &mut Vec<Oid>) -> Result<(), AllocError>
    ensures { OnOk result (into.new.items ≡ into.old.items ++ identifiers_of value.now) }
{
    if let ValueForm::Oid(oid) = &value.form {
        into.push(oid.copy(alloc)?)?;
    }
    Ok(())
}

/// The identifiers among values.
fn identifiers_among(alloc: Global, values: &[Value]) -> Result<Oids, AllocError>
    ensures { IfOk result (λ ids. ids ≡ flat_map identifiers_of values.now) }
{
    let mut items = Vec::new(alloc);
    for value in values {
        append_identifier(alloc, value, &mut items)?;
    }
    Ok(Oids { items })
}

/// The identifiers in a set of them.
#[tactic(auto, using(crate::proofs::IdentifierLaws::among))]
pub fn identifiers_in(alloc: Global, value: &Value) -> Result<Oids, AllocError>
    ensures { IfOk result (λ ids. ids ≡ identifiers_in value.now) }
{
    match &value.form {
        ValueForm::Many(values) => identifiers_among(alloc, &values.items),
        _ => Ok(Oids {
            items: Vec::new(alloc),
        }),
    }
}
