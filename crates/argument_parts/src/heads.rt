//! With what the arguments of m-Get, m-Set, m-Action and m-Delete begin: X.711, section 7.4.

ghost use Rattle.std.specs.Prelude.{◌≡◌, IfOk};
ghost use Rattle.std.specs.Option.{option_copied, option_map};
ghost use Rattle.term_values.specs.Tree.{listed};
ghost use Rattle.term_values.specs.Tree.TreeValue.{Primitive};
ghost use Rattle.term_model.specs.declared.filter.Asked.TheVariants.{Good};
ghost use Rattle.term_model.specs.FilterTrees.FilterTree.{And};
ghost use Rattle.term_model.specs.FilterTrees.FilterTrees.{Nothing as no_filters};
ghost use Rattle.term_model.specs.RequestHeads.{ScopedTrees, filter_of, head_of, head_with, is_controlled, object_of};
ghost use Rattle.term_model.specs.RequestHeads.{options_behind, options_of, scope_in, scope_of, scoped_in, sync_of};

use crate::asking::read_asked;
use crate::asserting::read_id;
use crate::instances::read_instance;
use crate::parts::integer_of;
use crate::rows::{at_front, filter_at_front, held_under, is_context, one_under};
use ber_tree::tree_reading::read_integer_contents;
use ber_values::tagging::is_same_tag;
use std::alloc::{AllocError, Global};
use term_model::request::BEST_EFFORT;
use term_model::scope::BASE_OBJECT;
use term_model::{Asked, Filter, FilterForm, Filters, Head, IdRef, Instance, Scope, Set};
use term_values::{Body, Tag, Tree};

/// The trees that stand for the components of such an argument, and those that follow.
#[derive(Clone, Copy)]
pub struct Scoped<'a> {
    pub class: &'a Tree,
    pub base: &'a Tree,
    pub access: Option<&'a Tree>,
    pub sync: Option<&'a Tree>,
    pub scope: Option<&'a Tree>,
    pub filter: Option<&'a Tree>,
    pub rest: &'a [Tree],
}

/// The components behind class and base object.
fn options_behind<'a>(class: &'a Tree, base: &'a Tree, trees: &'a [Tree]) -> Scoped<'a>
    ensures { record {
      class = result.class.now;
      base = result.base.now;
      access = option_copied result.access;
      sync = option_copied result.sync;
      scope = option_copied result.scope;
      filter = option_copied result.filter;
      rest = listed result.rest.now;
    } ≡ options_behind class.now base.now (listed trees.now) }
{
    let (access, trees) = at_front(5, trees);
    let (sync, trees) = at_front(6, trees);
    let (scope, trees) = at_front(7, trees);
    let (filter, rest) = filter_at_front(trees);
    Scoped {
        class,
        base,
        access,
        sync,
        scope,
        filter,
        rest,
    }
}

/// The components of an argument with a scope, or none where class or base object is missing.
pub fn scoped_in(trees: &[Tree]) -> Option<Scoped<'_>>
    ensures { option_map (λ s. record {
      class = s.class.now;
      base = s.base.now;
      access = option_copied s.access;
      sync = option_copied s.sync;
      scope = option_copied s.scope;
      filter = option_copied s.filter;
      rest = listed s.rest.now;
    }) result ≡ scoped_in (listed trees.now) }
{
    match trees.split_first() {
        None => None,
        Some((class, behind)) => match behind.split_first() {
            None => None,
            Some((base, rest)) => Some(options_behind(class, base, rest)),
        },
    }
}

/// The synchronization.
fn sync_of(tree: Option<&Tree>) -> Option<i64>
    ensures { result ≡ sync_of (option_copied tree.entry) }
{
    match tree {
        None => Some(BEST_EFFORT),
        Some(tree) => integer_of(tree, Tag::context(6)),
    }
}

/// The scope that contents octets give under a tag.
fn scope_by(tag: Tag, contents: &[u8]) -> Option<Scope>
    ensures { result ≡ scope_in (Primitive tag contents.now) }
{
    if is_same_tag(Tag::INTEGER, tag) {
        Some(Scope::Plain(read_integer_contents(contents)?))
    } else if is_context(1, tag) {
        Some(Scope::Level(read_integer_contents(contents)?))
    } else if is_context(2, tag) {
        Some(Scope::Upto(read_integer_contents(contents)?))
    } else {
        None
    }
}

fn scope_in(tree: &Tree) -> Option<Scope>
    ensures { result ≡ scope_in tree.now }
{
    match &tree.body {
        Body::Prim(contents) => scope_by(tree.tag, contents.as_slice()),
        Body::Cons(_) => None,
    }
}

/// The scope.
fn scope_of(tree: Option<&Tree>) -> Option<Scope>
    ensures { result ≡ scope_of (option_copied tree.entry) }
{
    match tree {
        None => Some(Scope::Plain(BASE_OBJECT)),
        Some(tree) => scope_in(one_under(7, tree)?),
    }
}

/// Access control is left out, or holds one value.
pub fn is_controlled(tree: Option<&Tree>) -> bool
    ensures { result ≡ is_controlled (option_copied tree.entry) }
{
    held_under(5, tree).is_some()
}

/// The empty `and`, which each object passes.
fn no_filter(alloc: Global) -> Asked
    ensures { result ≡ Good (And no_filters) }
{
    Asked::Good(Filter {
        form: FilterForm::And(Filters {
            items: Vec::new(alloc),
        }),
    })
}

/// The filter.
fn filter_of(alloc: Global, set: &Set, tree: Option<&Tree>) -> Result<Option<Asked>, AllocError>
    ensures { IfOk result (λ asked. asked ≡ filter_of set.now (option_copied tree.entry)) }
{
    match tree {
        None => Ok(Some(no_filter(alloc))),
        Some(tree) => read_asked(alloc, set, tree),
    }
}

/// Synchronization and scope.
fn options_of(
    access: Option<&Tree>,
    sync: Option<&Tree>,
    scope: Option<&Tree>,
) -> Option<(i64, Scope)>
    ensures { result ≡ options_of (option_copied access.entry) (option_copied sync.entry) (option_copied scope.entry) }
{
    if is_controlled(access) {
        let sync = sync_of(sync)?;
        let scope = scope_of(scope)?;
        Some((sync, scope))
    } else {
        None
    }
}

/// Class and base object.
pub fn read_object(
    alloc: Global,
    set: &Set,
    class: &Tree,
    base: &Tree,
) -> Result<Option<(IdRef, Instance)>, AllocError>
    ensures { IfOk result (λ object. object ≡ object_of set.now class.now base.now) }
{
    match read_id(alloc, 0, 1, class)? {
        None => Ok(None),
        Some(class) => match read_instance(alloc, set, base)? {
            None => Ok(None),
            Some(base) => Ok(Some((class, base))),
        },
    }
}

/// The head with this synchronization and this scope.
fn head_with(
    alloc: Global,
    set: &Set,
    class: &Tree,
    base: &Tree,
    filter: Option<&Tree>,
    options: (i64, Scope),
) -> Result<Option<Head>, AllocError>
    ensures { IfOk result (λ head.
        head ≡ head_with set.now class.now base.now (option_copied filter.entry) options) }
{
    match read_object(alloc, set, class, base)? {
        None => Ok(None),
        Some((class, base)) => match filter_of(alloc, set, filter)? {
            None => Ok(None),
            Some(filter) => Ok(Some(Head {
                class,
                base,
                sync: options.0,
                scope: options.1,
                filter,
            })),
        },
    }
}

/// The class, the base object and how the operation reaches further objects.
pub fn read_head(alloc: Global, set: &Set, trees: &Scoped<'_>) -> Result<Option<Head>, AllocError>
    ensures { IfOk result (λ head. head ≡ head_of set.now (record {
      class = trees.now.class.now;
      base = trees.now.base.now;
      access = option_copied trees.now.access;
      sync = option_copied trees.now.sync;
      scope = option_copied trees.now.scope;
      filter = option_copied trees.now.filter;
      rest = listed trees.now.rest.now;
    })) }
{
    match options_of(trees.access, trees.sync, trees.scope) {
        None => Ok(None),
        Some(options) => head_with(alloc, set, trees.class, trees.base, trees.filter, options),
    }
}
