//! The name binding template (X.722, section 8.6).

ghost use Rattle.std.specs.Prelude.{◌≡◌, ℕ, IfSome, None, true, false};
ghost use Rattle.token_grammar.specs.Form.{AnyOrder, Named, Maybe, is_complete, slots_tree};
ghost use Rattle.token_grammar.specs.Outcome.{Reads, closed};
ghost use Rattle.token_grammar.specs.Parts.{optional_tree};
ghost use Rattle.token_grammar.specs.Turns.{TakesClause};
ghost use Rattle.gdmo_members.specs.Clauses.{name_bindings};
ghost use Rattle.gdmo_members.specs.Templates.{templates, class_with_subclasses, name_binding_clauses};
ghost use Rattle.gdmo_members.specs.Trees.{clause_tree};
ghost use Rattle.gdmo_members.specs.MemberTrees.{attribute_reference_tree};
ghost use Rattle.gdmo_classes.specs.ClassForms.{is_part_end, subclasses, subordinate_clause, superior_clause};
ghost use Rattle.gdmo_classes.specs.ClassForms.{naming_clause};
ghost use Rattle.gdmo_classes.specs.BindingTrees.{subclasses_tree, class_scope_tree, name_binding_tree};
ghost use Rattle.gdmo_classes.specs.BindingTrees.{name_binding_slots, name_binding_clauses_tree};
ghost use Rattle.gdmo_classes.specs.BindingTrees.{is_name_binding_clause};

use super::class::{ClassReference, read_class_reference};
use super::creation::{Creation, Deletion, read_create_clause, read_delete_clause};
use gdmo_members::attribute::{AttributeReference, read_attribute_reference};
use gdmo_members::behaviour::{BehaviourReference, read_behaviour_clause};
use gdmo_members::registration::read_registered_ending;
use std::alloc::Global;
use token_grammar::clause_ending::end_clause;
use token_grammar::clause_keeping::keep_clause;
use token_grammar::object_identifier::ObjectIdentifier;
use token_grammar::parts_beside::beside;
use token_grammar::token_reading::{read_label, read_one_of, skip_words};
use token_grammar::token_tests::is_word_at;
use token_grammar::{SyntaxRefusal, Token};

/// A class of a name binding, alone or with its subclasses.
#[derive(Drop)]
pub struct ClassScope {
    /// What names the class.
    pub class: ClassReference,
    /// The word SUBCLASSES of `AND SUBCLASSES`.
    pub subclasses: Option<Token>,
}

/// A name binding template.
#[derive(Drop)]
pub struct NameBindingTemplate {
    /// The number of its document, which the reader leaves 0.
    pub document: u32,
    /// The binding's label.
    pub label: Token,
    /// The class of the objects that are named, `SUBORDINATE OBJECT CLASS ref ..;`.
    pub subordinate: ClassScope,
    /// The class of the objects below which they stand, `NAMED BY SUPERIOR OBJECT CLASS ref ..;`.
    pub superior: ClassScope,
    /// The attribute that names them, `WITH ATTRIBUTE ref;`.
    pub attribute: AttributeReference,
    /// Its behaviours, `BEHAVIOUR ref, ..;`.
    pub behaviour: Option<Vec<BehaviourReference>>,
    /// How they are created, `CREATE ..;`.
    pub create: Option<Creation>,
    /// How they are deleted, `DELETE ..;`.
    pub delete: Option<Deletion>,
    /// The identifier under which it is registered.
    pub registration: ObjectIdentifier,
}

/// The clauses of a name binding template that came so far.
#[derive(Drop)]
struct NameBindingDraft {
    subordinate: Option<ClassScope>,
    superior: Option<ClassScope>,
    attribute: Option<AttributeReference>,
    behaviour: Option<Vec<BehaviourReference>>,
    create: Option<Creation>,
    delete: Option<Deletion>,
}

/// The clauses of a name binding template.
#[derive(Drop)]
struct NameBindingClauses {
    subordinate: ClassScope,
    superior: ClassScope,
    attribute: AttributeReference,
    behaviour: Option<Vec<BehaviourReference>>,
    create: Option<Creation>,
    delete: Option<Deletion>,
}

/// Reads `AND SUBCLASSES` where it comes.
fn read_subclasses(
    alloc: Global,
    tokens: &[Token],
    at: usize,
) -> Result<(Option<Token>, usize), SyntaxRefusal>
    ensures { Reads tokens.now templates is_part_end (Maybe subclasses) at (optional_tree subclasses_tree) result }
{
    if !is_word_at(tokens, at, "AND") {
        return Ok((None, at));
    }
    let next = skip_words(tokens, at, &["AND"])?;
    let (word, next) = read_one_of(alloc, tokens, next, &["SUBCLASSES"])?;
    Ok((Some(word), next))
}

/// Reads a class, and `AND SUBCLASSES` where it comes.
fn read_class_scope(
    alloc: Global,
    tokens: &[Token],
    at: usize,
) -> Result<(ClassScope, usize), SyntaxRefusal>
    ensures { Reads tokens.now templates is_part_end class_with_subclasses at class_scope_tree result }
{
    let (class, next) = read_class_reference(alloc, tokens, at)?;
    let (parts, next) = beside(class, read_subclasses(alloc, tokens, next))?;
    let (class, subclasses) = parts;
    Ok((ClassScope { class, subclasses }, next))
}

/// Reads the clause `SUBORDINATE OBJECT CLASS ref ..;`.
fn read_subordinate_clause(
    alloc: Global,
    tokens: &[Token],
    at: usize,
) -> Result<(ClassScope, usize), SyntaxRefusal>
    ensures { Reads tokens.now templates closed subordinate_clause at (clause_tree class_scope_tree) result }
{
    let next = skip_words(tokens, at, &["SUBORDINATE", "OBJECT", "CLASS"])?;
    end_clause(tokens, read_class_scope(alloc, tokens, next))
}

/// Reads the clause `NAMED BY SUPERIOR OBJECT CLASS ref ..;`.
fn read_superior_clause(
    alloc: Global,
    tokens: &[Token],
    at: usize,
) -> Result<(ClassScope, usize), SyntaxRefusal>
    ensures { Reads tokens.now templates closed superior_clause at (clause_tree class_scope_tree) result }
{
    let next = skip_words(tokens, at, &["NAMED", "BY", "SUPERIOR", "OBJECT", "CLASS"])?;
    end_clause(tokens, read_class_scope(alloc, tokens, next))
}

/// Reads the clause `WITH ATTRIBUTE ref;`.
fn read_naming_clause(
    alloc: Global,
    tokens: &[Token],
    at: usize,
) -> Result<(AttributeReference, usize), SyntaxRefusal>
    ensures { Reads tokens.now templates closed naming_clause at (clause_tree attribute_reference_tree) result }
{
    let next = skip_words(tokens, at, &["WITH", "ATTRIBUTE"])?;
    end_clause(tokens, read_attribute_reference(alloc, tokens, next))
}

/// Reads a name binding template from the place `at` on, and answers it with the place behind it. `Syntax`
/// has the first token with which the template doesn't go on, or the number of tokens where they end too
/// early; `Memory` comes where there is none for it (X.722, section 8.6).
pub fn read_name_binding(
    alloc: Global,
    tokens: &[Token],
    at: usize,
) -> Result<(NameBindingTemplate, usize), SyntaxRefusal>
    ensures { Reads tokens.now templates closed (Named name_bindings) at name_binding_tree result }
{
    let (label, next) = read_label(alloc, tokens, at)?;
    let next = skip_words(tokens, next, &["NAME", "BINDING"])?;
    let (clauses, next) = read_name_binding_clauses(alloc, tokens, next)?;
    let (parts, next) = beside(clauses, read_registered_ending(alloc, tokens, next))?;
    let (clauses, registration) = parts;
    Ok((
        NameBindingTemplate {
            document: 0,
            label,
            subordinate: clauses.subordinate,
            superior: clauses.superior,
            attribute: clauses.attribute,
            behaviour: clauses.behaviour,
            create: clauses.create,
            delete: clauses.delete,
            registration,
        },
        next,
    ))
}

/// Reads the clauses of a name binding template, in any order.
fn read_name_binding_clauses(
    alloc: Global,
    tokens: &[Token],
    at: usize,
) -> Result<(NameBindingClauses, usize), SyntaxRefusal>
    ensures { Reads tokens.now templates is_name_binding_clause (AnyOrder name_binding_clauses) at
        name_binding_clauses_tree result }
{
    let mut draft = NameBindingDraft {
        subordinate: None,
        superior: None,
        attribute: None,
        behaviour: None,
        create: None,
        delete: None,
    };
    let mut next = at;
    'turns: while let Some(behind) = read_name_binding_clause(alloc, tokens, next, &mut draft)? {
        next = behind;
    }
    match complete_clauses(draft) {
        Some(clauses) => Ok((clauses, next)),
        None => Err(SyntaxRefusal::Syntax { token: next as u64 }),
    }
}

/// The clauses, where the needed ones came.
fn complete_clauses(draft: NameBindingDraft) -> Option<NameBindingClauses>
    ensures missing { result ≡ None → is_complete (name_binding_slots draft) ≡ false }
    ensures made { IfSome result (λ clauses. (is_complete (name_binding_slots draft) ≡ true)
        × (name_binding_clauses_tree clauses ≡ slots_tree (name_binding_slots draft))) }
{
    match draft.subordinate.zip(draft.superior).zip(draft.attribute) {
        Some(((subordinate, superior), attribute)) => Some(NameBindingClauses {
            subordinate,
            superior,
            attribute,
            behaviour: draft.behaviour,
            create: draft.create,
            delete: draft.delete,
        }),
        None => None,
    }
}

/// Reads the next clause of a name binding template, where one comes that didn't come before.
fn read_name_binding_clause(
    alloc: Global,
    tokens: &[Token],
    at: usize,
    draft: &mut NameBindingDraft,
) -> Result<Option<usize>, SyntaxRefusal>
    ensures { TakesClause tokens.now templates is_name_binding_clause (name_binding_slots draft.old)
        (name_binding_slots draft.new) at result }
{
    let has_subordinate = draft.subordinate.is_none() & is_word_at(tokens, at, "SUBORDINATE");
    if has_subordinate {
        return keep_clause(
            &mut draft.subordinate,
            read_subordinate_clause(alloc, tokens, at),
        );
    }
    let has_superior = draft.superior.is_none() & is_word_at(tokens, at, "NAMED");
    if has_superior {
        return keep_clause(&mut draft.superior, read_superior_clause(alloc, tokens, at));
    }
    let has_attribute = draft.attribute.is_none() & is_word_at(tokens, at, "WITH");
    if has_attribute {
        return keep_clause(&mut draft.attribute, read_naming_clause(alloc, tokens, at));
    }
    let has_behaviour = draft.behaviour.is_none() & is_word_at(tokens, at, "BEHAVIOUR");
    if has_behaviour {
        return keep_clause(
            &mut draft.behaviour,
            read_behaviour_clause(alloc, tokens, at),
        );
    }
    let has_create = draft.create.is_none() & is_word_at(tokens, at, "CREATE");
    if has_create {
        return keep_clause(&mut draft.create, read_create_clause(alloc, tokens, at));
    }
    let has_delete = draft.delete.is_none() & is_word_at(tokens, at, "DELETE");
    if has_delete {
        return keep_clause(&mut draft.delete, read_delete_clause(alloc, tokens, at));
    }
    Ok(None)
}
