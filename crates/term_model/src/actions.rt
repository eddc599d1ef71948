//! Actions and notifications: X.722, sections 8.10 and 8.11.

use std::marker::Model;
use term_values::{Bytes, Oid, Syntax};

/// An action: X.722, section 8.10.
#[derive(Drop)]
pub struct ActRec {
    /// The identifier under which it is registered.
    pub id: Oid,
    /// Its label.
    pub label: Bytes,
    /// MODE CONFIRMED
    pub confirmed: bool,
    /// WITH INFORMATION SYNTAX
    pub information: Option<Syntax>,
    /// WITH REPLY SYNTAX
    pub reply: Option<Syntax>,
}

/// Actions in the order of their documents.
#[derive(Drop)]
pub struct ActRecs {
    /// The records.
    pub items: Vec<ActRec>,
}

impl Model for ActRecs {
    ghost use Rattle.std.specs.Prelude.{List};
    ghost use Rattle.std.specs.Coded.{codes};
    ghost use Rattle.term_values.specs.SyntaxCode.{syntax_code};
    ghost use Rattle.term_model.specs.declared.actions.ActRec.{ActRec};

    ghost Value = { List ActRec };

    ghost coded = { Prim.hlevel (codes, syntax_code) };

    ghost view = { λ list. list.items.items };
}

/// AND ATTRIBUTE IDS: a field of a notification's information that is an attribute's value.
#[derive(Drop)]
pub struct AttributeField {
    /// The name of the component.
    pub component: Bytes,
    /// The identifier of the attribute.
    pub attribute: Oid,
}

/// Fields of a notification's information, in the order of its template.
#[derive(Drop)]
pub struct AttributeFields {
    /// The fields.
    pub items: Vec<AttributeField>,
}

impl Model for AttributeFields {
    ghost use Rattle.std.specs.Prelude.{List};
    ghost use Rattle.term_model.specs.declared.actions.AttributeField.{AttributeField};

    ghost Value = { List AttributeField };

    ghost view = { λ list. list.items.items };
}

/// A notification: X.722, section 8.11.
#[derive(Drop)]
pub struct NoteRec {
    /// The identifier under which it is registered.
    pub id: Oid,
    /// Its label.
    pub label: Bytes,
    /// WITH INFORMATION SYNTAX
    pub information: Option<Syntax>,
    /// AND ATTRIBUTE IDS
    pub fields: AttributeFields,
    /// WITH REPLY SYNTAX
    pub reply: Option<Syntax>,
}

/// Notifications in the order of their documents.
#[derive(Drop)]
pub struct NoteRecs {
    /// The records.
    pub items: Vec<NoteRec>,
}

impl Model for NoteRecs {
    ghost use Rattle.std.specs.Prelude.{List};
    ghost use Rattle.std.specs.Coded.{codes};
    ghost use Rattle.term_values.specs.SyntaxCode.{syntax_code};
    ghost use Rattle.term_model.specs.declared.actions.NoteRec.{NoteRec};

    ghost Value = { List NoteRec };

    ghost coded = { Prim.hlevel (codes, syntax_code) };

    ghost view = { λ list. list.items.items };
}
