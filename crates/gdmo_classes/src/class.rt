//! The managed object class template (X.722, section 8.3) and references to it. It may have class templates
//! in line.

ghost use Rattle.std.specs.Prelude.{◌≡◌, ℕ, codes, IfOk};
ghost use Rattle.token_grammar.specs.Form.{AnyOrder, Named, Listed, Empty};
ghost use Rattle.token_grammar.specs.Outcome.{Reads, closed};
ghost use Rattle.token_grammar.specs.Parts.{either, vector_tree};
ghost use Rattle.token_grammar.specs.Turns.{TakesClause};
ghost use Rattle.token_grammar.specs.TokenTests.{is_word_of};
ghost use Rattle.gdmo_members.specs.Clauses.{classes, comma, reference, references, registered_ending};
ghost use Rattle.gdmo_members.specs.Templates.{templates, class_clauses, conditional_package};
ghost use Rattle.gdmo_members.specs.Trees.{clause_tree, registered_ending_tree};
ghost use Rattle.gdmo_members.specs.MemberTrees.{template_tree};
ghost use Rattle.gdmo_classes.specs.ClassForms.{superclasses_clause, packages_clause, condition, conditional_clause};
ghost use Rattle.gdmo_classes.specs.PackageTrees.{package_reference_tree, condition_tree, conditional_tree};
ghost use Rattle.gdmo_classes.specs.ClassTrees.{class_tree, class_slots, class_clauses_tree, is_class_clause};
ghost use Rattle.gdmo_classes.specs.ClassTrees.{class_reference_tree};

use super::package::{PackageReference, read_package_list, read_package_reference};
use gdmo_members::registration::read_registered_ending;
use std::alloc::Global;
use token_grammar::clause_ending::end_clause;
use token_grammar::clause_keeping::keep_clause;
use token_grammar::label_reference::{LabelReference, read_label_reference};
use token_grammar::object_identifier::ObjectIdentifier;
use token_grammar::part_keeping::keep_part;
use token_grammar::parts_beside::beside;
use token_grammar::token_reading::{place_behind, read_label, read_string, skip_sign, skip_words};
use token_grammar::token_tests::{is_template_at, is_word_at};
use token_grammar::{SyntaxRefusal, Token};

/// A package that some objects of a class have.
#[derive(Drop)]
pub struct ConditionalPackage {
    /// What names the package.
    pub package: PackageReference,
    /// The string that says when it is present.
    pub condition: Token,
}

/// A managed object class template.
#[cycle(classes)]
#[derive(Drop)]
pub struct ObjectClassTemplate {
    /// The number of its document, which the reader leaves 0.
    pub document: u32,
    /// The class's label.
    pub label: Token,
    /// Its superclasses, `DERIVED FROM ref, ..;`.
    pub superclasses: Option<Vec<ClassReference>>,
    /// The packages of each of its objects, `CHARACTERIZED BY ref, ..;`.
    pub packages: Option<Vec<PackageReference>>,
    /// The packages of some of its objects, `CONDITIONAL PACKAGES ref PRESENT IF string, ..;`.
    pub conditional: Option<Vec<ConditionalPackage>>,
    /// The identifier under which it is registered.
    pub registration: ObjectIdentifier,
}

/// What names a class.
#[cycle(classes)]
#[derive(Drop)]
pub enum ClassReference {
    /// Its label.
    Label(LabelReference),
    /// The template itself, in line.
    Template(Box<ObjectClassTemplate>),
}

/// The clauses of a class template that came.
#[derive(Drop)]
struct ClassClauses {
    superclasses: Option<Vec<ClassReference>>,
    packages: Option<Vec<PackageReference>>,
    conditional: Option<Vec<ConditionalPackage>>,
}

/// Reads `PRESENT IF string`.
fn read_condition(
    alloc: Global,
    tokens: &[Token],
    at: usize,
) -> Result<(Token, usize), SyntaxRefusal>
    ensures { Reads tokens.now templates closed condition at condition_tree result }
{
    let next = skip_words(tokens, at, &["PRESENT", "IF"])?;
    read_string(alloc, tokens, next)
}

/// Reads a package and the string that says when it is present.
fn read_conditional_package(
    alloc: Global,
    tokens: &[Token],
    at: usize,
) -> Result<(ConditionalPackage, usize), SyntaxRefusal>
    ensures { Reads tokens.now templates closed conditional_package at conditional_tree result }
{
    let (package, next) = read_package_reference(alloc, tokens, at)?;
    let (parts, next) = beside(package, read_condition(alloc, tokens, next))?;
    let (package, condition) = parts;
    Ok((ConditionalPackage { package, condition }, next))
}

/// Reads conditional packages with commas between them.
fn read_conditional_list(
    alloc: Global,
    tokens: &[Token],
    at: usize,
) -> Result<(Vec<ConditionalPackage>, usize), SyntaxRefusal>
    ensures { Reads tokens.now templates comma (Listed comma Empty conditional_package) at
        (vector_tree conditional_tree) result }
{
    let mut list = Vec::new(alloc);
    let mut next = at;
    'turns: loop {
        let behind = keep_part(&mut list, read_conditional_package(alloc, tokens, next))?;
        let Some(place) = place_behind(tokens, behind, ",") else {
            return Ok((list, behind));
        };
        next = place;
    }
}

/// Reads the clause `CONDITIONAL PACKAGES ref PRESENT IF string, ..;`. It isn't inlined, so that its locals
/// take no room while a class in line is read.
#[inline(never)]
fn read_conditional_clause(
    alloc: Global,
    tokens: &[Token],
    at: usize,
) -> Result<(Vec<ConditionalPackage>, usize), SyntaxRefusal>
    ensures { Reads tokens.now templates closed conditional_clause at
        (clause_tree (vector_tree conditional_tree)) result }
{
    let next = skip_words(tokens, at, &["CONDITIONAL", "PACKAGES"])?;
    end_clause(tokens, read_conditional_list(alloc, tokens, next))
}

/// Reads the clause `CHARACTERIZED BY ref, ..;`. It isn't inlined, so that its locals take no room while a
/// class in line is read.
#[inline(never)]
fn read_packages_clause(
    alloc: Global,
    tokens: &[Token],
    at: usize,
) -> Result<(Vec<PackageReference>, usize), SyntaxRefusal>
    ensures { Reads tokens.now templates closed packages_clause at
        (clause_tree (vector_tree package_reference_tree)) result }
{
    let next = skip_words(tokens, at, &["CHARACTERIZED", "BY"])?;
    end_clause(tokens, read_package_list(alloc, tokens, next))
}

/// Reads a managed object class template from the place `at` on, and answers it with the place behind it.
/// `Syntax` has the first token with which the template doesn't go on, or the number of tokens where they
/// end too early; `Memory` comes where there is none for it (X.722, section 8.3).
pub fn read_class(
    alloc: Global,
    tokens: &[Token],
    at: usize,
) -> Result<(ObjectClassTemplate, usize), SyntaxRefusal>
    ensures { Reads tokens.now templates closed (Named classes) at class_tree result }
{
    let (template, next) = read_class_in_line(alloc, tokens, at)?;
    Ok((Box::into_inner(template), next))
}

/// Reads a class template into a box, so that few octets of the stack are held for each template that it
/// stands in.
#[cycle(classes)]
fn read_class_in_line(
    alloc: Global,
    tokens: &[Token],
    at: usize,
) -> Result<(Box<ObjectClassTemplate>, usize), SyntaxRefusal>
    ensures { Reads tokens.now templates closed (Named classes) at (λ template. class_tree template.value) result }
{
    let (label, next) = read_label(alloc, tokens, at)?;
    let next = skip_words(tokens, next, &["MANAGED", "OBJECT", "CLASS"])?;
    let (clauses, next) = read_class_clauses(alloc, tokens, next)?;
    let (template, next) = end_class(alloc, tokens, next, label, clauses)?;
    Ok((template, next))
}

/// Reads the end of a class template, and puts its parts together. It isn't inlined, so that its locals
/// take no room while a template in line is read.
#[inline(never)]
fn end_class(
    alloc: Global,
    tokens: &[Token],
    at: usize,
    label: Token,
    clauses: ClassClauses,
) -> Result<(Box<ObjectClassTemplate>, usize), SyntaxRefusal>
    ensures reads { Reads tokens.now templates closed registered_ending at
        (λ template. registered_ending_tree template.value.registration) result }
    ensures made { IfOk result
        (λ answer. class_tree answer.0.value ≡ template_tree 0 label (class_clauses_tree clauses)
        (registered_ending_tree answer.0.value.registration)) }
{
    let (registration, next) = read_registered_ending(alloc, tokens, at)?;
    let template = Box::new(
        alloc,
        ObjectClassTemplate {
            document: 0,
            label,
            superclasses: clauses.superclasses,
            packages: clauses.packages,
            conditional: clauses.conditional,
            registration,
        },
    )?;
    Ok((template, next))
}

/// Reads what names a class: a label, or a template in line where the word MANAGED is behind it.
#[cycle(classes)]
pub fn read_class_reference(
    alloc: Global,
    tokens: &[Token],
    at: usize,
) -> Result<(ClassReference, usize), SyntaxRefusal>
    ensures { Reads tokens.now templates (is_word_of (codes "MANAGED")) (reference classes) at
        class_reference_tree result }
{
    if is_template_at(tokens, at, "MANAGED") {
        let (template, next) = read_class_in_line(alloc, tokens, at)?;
        return Ok((ClassReference::Template(template), next));
    }
    let (label, next) = read_label_reference(alloc, tokens, at)?;
    Ok((ClassReference::Label(label), next))
}

/// Reads references to classes with commas between them.
#[cycle(classes)]
fn read_class_list(
    alloc: Global,
    tokens: &[Token],
    at: usize,
) -> Result<(Vec<ClassReference>, usize), SyntaxRefusal>
    ensures { Reads tokens.now templates (either comma (is_word_of (codes "MANAGED"))) (references classes) at
        (vector_tree class_reference_tree) result }
{
    let mut list = Vec::new(alloc);
    let mut next = at;
    'turns: loop {
        let (reference, behind) = read_class_reference(alloc, tokens, next)?;
        list.push(reference)?;
        let Some(place) = place_behind(tokens, behind, ",") else {
            return Ok((list, behind));
        };
        next = place;
    }
}

/// Reads the clause `DERIVED FROM ref, ..;`.
#[cycle(classes)]
fn read_superclasses_clause(
    alloc: Global,
    tokens: &[Token],
    at: usize,
) -> Result<(Vec<ClassReference>, usize), SyntaxRefusal>
    ensures { Reads tokens.now templates closed superclasses_clause at
        (clause_tree (vector_tree class_reference_tree)) result }
{
    let next = skip_words(tokens, at, &["DERIVED", "FROM"])?;
    let (list, next) = read_class_list(alloc, tokens, next)?;
    let next = skip_sign(tokens, next, ";")?;
    Ok((list, next))
}

/// Reads the clauses of a class template, in any order.
#[cycle(classes)]
fn read_class_clauses(
    alloc: Global,
    tokens: &[Token],
    at: usize,
) -> Result<(ClassClauses, usize), SyntaxRefusal>
    ensures { Reads tokens.now templates is_class_clause (AnyOrder class_clauses) at class_clauses_tree result }
{
    let mut clauses = ClassClauses {
        superclasses: None,
        packages: None,
        conditional: None,
    };
    let mut next = at;
    'turns: while let Some(behind) = read_class_clause(alloc, tokens, next, &mut clauses)? {
        next = behind;
    }
    Ok((clauses, next))
}

/// Reads the next clause of a class template, where one comes that didn't come before.
#[cycle(classes)]
fn read_class_clause(
    alloc: Global,
    tokens: &[Token],
    at: usize,
    clauses: &mut ClassClauses,
) -> Result<Option<usize>, SyntaxRefusal>
    ensures { TakesClause tokens.now templates is_class_clause (class_slots clauses.old)
        (class_slots clauses.new) at result }
{
    let has_superclasses = clauses.superclasses.is_none() & is_word_at(tokens, at, "DERIVED");
    if has_superclasses {
        return keep_clause(
            &mut clauses.superclasses,
            read_superclasses_clause(alloc, tokens, at),
        );
    }
    let has_packages = clauses.packages.is_none() & is_word_at(tokens, at, "CHARACTERIZED");
    if has_packages {
        return keep_clause(
            &mut clauses.packages,
            read_packages_clause(alloc, tokens, at),
        );
    }
    let has_conditional = clauses.conditional.is_none() & is_word_at(tokens, at, "CONDITIONAL");
    if has_conditional {
        return keep_clause(
            &mut clauses.conditional,
            read_conditional_clause(alloc, tokens, at),
        );
    }
    Ok(None)
}
