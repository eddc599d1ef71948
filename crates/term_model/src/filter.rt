//! Filters of scoped operations: X.711, section 7.5, type CMISFilter.

use crate::filter_item::Item;
use std::boxed::Box;
use std::marker::Model;
use term_values::Bytes;

/// A condition on the attributes of an object.
#[cycle(filters)]
#[derive(Drop)]
pub struct Filter {
    /// Its form.
    pub form: FilterForm,
}

/// The forms of filters.
#[cycle(filters)]
#[derive(Drop)]
pub enum FilterForm {
    /// A condition on one attribute.
    Item(Item),
    /// and: all of these are true; the empty one is true.
    And(Filters),
    /// or: some of these is true; the empty one is false.
    Or(Filters),
    /// not: this is false.
    Not(Box<Filter>),
}

/// Filters that are joined.
#[cycle(filters)]
#[derive(Drop)]
pub struct Filters {
    /// The filters.
    pub items: Vec<Filter>,
}

impl Model for Filter {
    ghost use Rattle.std.specs.Coded.{codes};
    ghost use Rattle.term_values.specs.Typed.{value_code};
    ghost use Rattle.term_model.specs.FilterTrees.{FilterTree};
    ghost use Rattle.term_model.specs.FilterCode.{filter_code};

    ghost Value = { FilterTree };

    ghost coded = { filter_code (Prim.hlevel (codes, value_code)) };

    ghost use Rattle.term_model.specs.FilterView.{filter_of};
    ghost use Rattle.term_model.specs.FilterSize.{nodes};

    ghost view = { λ filter. filter_of filter.form };

    ghost size = { nodes };

    ghost use Rattle.term_model.specs.FilterDepth.{depth_below_nodes};

    ghost size_decreases = { λ filter h. depth_below_nodes filter.form };
}

impl Model for Filters {
    ghost use Rattle.std.specs.Coded.{codes};
    ghost use Rattle.std.proofs.Common.{arith};
    ghost use Rattle.term_values.specs.Typed.{value_code};
    ghost use Rattle.term_model.specs.FilterTrees.{FilterTrees, filters_listed};
    ghost use Rattle.term_model.specs.FilterCode.{filters_code};
    ghost use Rattle.term_model.specs.FilterSize.{nodes_filters};
    ghost use Rattle.term_model.specs.FiltersDepth.{most_below_filters};

    ghost Value = { FilterTrees };

    ghost coded = { filters_code (Prim.hlevel (codes, value_code)) };

    ghost view = { λ filters. filters_listed filters.items.items };

    ghost size = { nodes_filters };

    ghost size_decreases = { λ filters h. Prim.omega (arith, most_below_filters filters.items.items) };
}

/// The filter of a request as it was decoded.
#[derive(Drop)]
pub enum Asked {
    /// A filter within the limits.
    Good(Filter),
    /// A filter with an invalid item, as it is given back.
    Bad(Bytes),
    /// A filter that is deeper or has more items than the limits admit.
    Large,
}
