//! What the creation of an instance is asked for with: its class, its name, the values of WITH and, behind them, the
//! packages of PACKAGES. docs/PROFILE.md, section 16.

ghost use Rattle.std.specs.Prelude.{◌≡◌, ◌++◌, IfOk, None, OnOk, Some, find, if◌then◌else◌, map};
ghost use Rattle.std.specs.Option.{option_copied};
ghost use Rattle.term_values.specs.Typed.{listed};
ghost use Rattle.term_values.specs.Typed.TypedValue.{Identifier};
ghost use Rattle.term_model.specs.AgentWritten.{is_package_list};
ghost use Rattle.term_model.specs.CreateValues.{identifiers_value};
ghost use Rattle.term_model.specs.Opening.{asking_of, behind_packages, given_of, is_labelled_packages};
ghost use Rattle.term_model.specs.Opening.{packages_given};
ghost use Rattle.op_life.specs.AskingView.{asking_view};

use attribute_rules::bound_logs::is_attribute;
use attribute_rules::control_syntaxes::identifiers;
use ber_values::member_order::rising_members;
use op_life::Asking;
use result_contents::names;
use std::alloc::{AllocError, Global};
use term_model::{AttrRec, Attribute, Given, Givens, IdRef, InstRec, Set};
use term_values::syntax::SyntaxForm;
use term_values::value::ValueForm;
use term_values::{Bytes, Oid, Syntax, Value, Values};

/// The label of the attribute that lists the packages of an object.
const PACKAGES: &[u8] = b"packages";

/// A number that names no attribute.
const NO_ATTRIBUTE: i64 = 0;

/// A value of WITH, as a member of the list of a creation.
fn given_of(alloc: Global, held: &Attribute) -> Result<Given, AllocError>
    ensures { IfOk result (λ given. given ≡ given_of held.now) }
{
    let id = IdRef::Global(held.id.copy(alloc)?);
    let value = Some(held.value.copy(alloc)?);
    let raw = Bytes {
        items: Vec::new(alloc),
    };
    Ok(Given { id, value, raw })
}

/// Identifiers as values.
fn identifier_values(alloc: Global, ids: &[Oid]) -> Result<Values, AllocError>
    ensures { IfOk result (λ values. values ≡ listed (map Identifier ids.now)) }
{
    let mut items = Vec::new(alloc);
    for id in ids {
        let form = ValueForm::Oid(id.copy(alloc)?);
        items.push(Value { form })?;
    }
    Ok(Values { items })
}

/// The set of these identifiers.
fn identifiers_value(alloc: Global, ids: &[Oid]) -> Result<Value, AllocError>
    ensures { IfOk result (λ value. value ≡ identifiers_value ids.now) }
{
    let values = identifier_values(alloc, ids)?;
    let member = Syntax {
        form: SyntaxForm::Oid,
    };
    let form = ValueForm::Many(rising_members(alloc, &member, values)?);
    Ok(Value { form })
}

/// The first attribute labelled packages.
fn packages_template(records: &[AttrRec]) -> Option<&AttrRec>
    ensures { option_copied result ≡ find is_labelled_packages records.now }
{
    for template in records {
        if template.label.as_slice() == PACKAGES {
            return Some(template);
        }
    }
    None
}

/// The value of that attribute: none where it has another syntax.
fn packages_value(
    alloc: Global,
    schema: &Set,
    chosen: &[Oid],
    id: &Oid,
) -> Result<Option<Value>, AllocError>
    ensures { IfOk result (λ value. value
        ≡ (if is_package_list schema.now id.now then Some (identifiers_value chosen.now) else None)) }
{
    if is_attribute(&schema.attributes, PACKAGES, &identifiers(alloc)?, id) {
        Ok(Some(identifiers_value(alloc, chosen)?))
    } else {
        Ok(None)
    }
}

/// The packages as a member of the list of a creation.
fn packages_given(alloc: Global, schema: &Set, chosen: &[Oid]) -> Result<Given, AllocError>
    ensures { IfOk result (λ given. given ≡ packages_given schema.now chosen.now) }
{
    let raw = Bytes {
        items: Vec::new(alloc),
    };
    match packages_template(schema.attributes.as_slice()) {
        Some(template) => {
            let value = packages_value(alloc, schema, chosen, &template.id)?;
            let id = IdRef::Global(template.id.copy(alloc)?);
            Ok(Given { id, value, raw })
        }
        None => Ok(Given {
            id: IdRef::Local(NO_ATTRIBUTE),
            value: None,
            raw,
        }),
    }
}

/// The values of WITH.
fn with_values(alloc: Global, given: &[Attribute]) -> Result<Givens, AllocError>
    ensures { IfOk result (λ givens. givens ≡ map given_of given.now) }
{
    let mut items = Vec::new(alloc);
    for held in given {
        items.push(given_of(alloc, held)?)?;
    }
    Ok(Givens { items })
}

/// Adds what stands behind PACKAGES.
fn add_packages(
    alloc: Global,
    schema: &Set,
    chosen: &[Oid],
    list: &mut Givens,
) -> Result<(), AllocError>
    ensures { OnOk result (list.new ≡ list.old ++ behind_packages schema.now chosen.now) }
{
    if !chosen.is_empty() {
        list.items.push(packages_given(alloc, schema, chosen)?)?;
    }
    Ok(())
}

/// What the creation of an instance is asked for with. A CREATE clause isn't asked for.
pub fn asking_of(alloc: Global, schema: &Set, instance: &InstRec) -> Result<Asking, AllocError>
    ensures { IfOk result (λ asking. asking_view asking ≡ asking_of schema.now instance.now) }
{
    let class = IdRef::Global(instance.class.copy(alloc)?);
    let octets = names::instance(alloc, instance.name.parts.as_slice())?;
    let mut given = with_values(alloc, instance.given.items.as_slice())?;
    add_packages(alloc, schema, instance.chosen.items.as_slice(), &mut given)?;
    Ok(Asking {
        class,
        instance: octets,
        reference: None,
        given,
        clause: false,
    })
}
