//! The properties of each class, joined from what it states and what its direct superclasses have (X.722, sections 5.2
//! and 8.4; docs/PROFILE.md, section 18).

ghost use Rattle.std.specs.Prelude.{◌≡◌, ℕ, true, false, Contains, IfOk, OnOk, None, Some, slice_get};
ghost use Rattle.std.specs.BTreeMap.{get};
ghost use Rattle.std.specs.Ordering.{nat_cmp};
ghost use Rattle.joined_statements.specs.JoinedStatements.{IsJoinedOf};
ghost use Rattle.joined_statements.specs.declared.joined.Joining.TheVariants as joining;
ghost use Rattle.link_graphs.specs.Cycles.{IsBehindTargets, MarkCycles};
ghost use Rattle.class_faults.specs.CyclicFaults.{CyclicClassFaults, superclasses_of};
ghost use Rattle.class_faults.specs.FaultSets.{Notes};
ghost use Rattle.joined_properties.specs.ClassProperties.{ArePropertiesOfAll};
ghost use Rattle.joined_properties.specs.JoiningSteps.{AreJoinedAgain, AreNone, IsNext, IsPass, IsPut, IsStep};
ghost use Rattle.joined_properties.specs.OwnStatements.{AreStatements};
ghost use Rattle.joined_properties.specs.StatementChains.{IsChain, items_of, own_statements, said_by, said_in};
ghost use Rattle.joined_properties.specs.StatementChains.{statements_of};

use crate::comparing::are_same_tables;
use crate::cyclic_classes::note_cyclic;
use crate::statement::Statement;
use class_faults::Faults;
use joined_statements::{AssignedValues, JoinedAttributes, Joining, join_many, join_one};
use link_graphs::Cycles;
use linked_parts::linked::LinkedClass;
use std::alloc::{AllocError, Global};
use std::collections::BTreeMap;

/// What joins the properties of classes.
#[derive(Clone, Copy)]
pub struct Inheriting<'v> {
    /// What gives memory.
    pub alloc: Global,
    /// The classes.
    pub classes: &'v [LinkedClass],
    /// What each package states, by its place.
    pub stated: &'v [Vec<Statement>],
    /// The values of assignments.
    pub values: AssignedValues<'v>,
}

/// Whether something is marked.
fn is_any(marks: &[bool]) -> bool
    ensures { result ≡ false → ¬ Contains marks.now true }
{
    for mark in marks {
        if *mark {
            return true;
        }
    }
    false
}

impl Inheriting<'_> {
    /// Joins the statements of a package.
    fn join_statements(
        &self,
        statements: &[Statement],
        own: &mut JoinedAttributes,
    ) -> Result<(), AllocError>
        ensures { OnOk result ((q : ℕ) → IsChain self.now.values.items.now joining.Beside (said_by q)
            (get nat_cmp own.old q) statements.now (get nat_cmp own.new q)) }
    {
        for statement in statements {
            let attribute = statement.attribute;
            join_one(
                &self.values,
                Joining::Beside,
                own,
                attribute,
                &statement.joined,
            )?;
        }
        Ok(())
    }

    /// Joins what a package states.
    fn join_package(&self, place: usize, own: &mut JoinedAttributes) -> Result<(), AllocError>
        ensures { OnOk result ((q : ℕ) → IsChain self.now.values.items.now joining.Beside (said_by q)
            (get nat_cmp own.old q) (items_of (slice_get self.now.stated.now place)) (get nat_cmp own.new q)) }
    {
        match self.stated.get(place) {
            Some(statements) => self.join_statements(statements.as_slice(), own),
            None => Ok(()),
        }
    }

    /// Joins what packages of one class state.
    fn join_packages(
        &self,
        packages: &[usize],
        own: &mut JoinedAttributes,
    ) -> Result<(), AllocError>
        ensures { OnOk result ((q : ℕ) → IsChain self.now.values.items.now joining.Beside (said_by q)
            (get nat_cmp own.old q) (statements_of self.now.stated.now packages.now) (get nat_cmp own.new q)) }
    {
        for place in packages {
            self.join_package(*place, own)?;
        }
        Ok(())
    }

    /// What a class states itself.
    fn own(&self, class: &LinkedClass) -> Result<JoinedAttributes, AllocError>
        ensures { IfOk result (λ own. (q : ℕ) → IsChain self.now.values.items.now joining.Beside (said_by q)
            None (own_statements self.now.stated.now class.now) (get nat_cmp own q)) }
    {
        let mut own: JoinedAttributes = BTreeMap::new(self.alloc);
        self.join_packages(class.mandatory.as_slice(), &mut own)?;
        self.join_packages(class.conditional.as_slice(), &mut own)?;
        Ok(own)
    }

    /// Joins what a direct superclass has so far.
    fn join_superclass(
        &self,
        place: usize,
        known: &[JoinedAttributes],
        inherited: &mut JoinedAttributes,
    ) -> Result<(), AllocError>
        ensures { OnOk result ((q : ℕ) → IsJoinedOf self.now.values.items.now joining.Inherited
            (get nat_cmp inherited.old q) (said_in known.now q place) (get nat_cmp inherited.new q)) }
    {
        match known.get(place) {
            Some(others) => join_many(&self.values, Joining::Inherited, inherited, others),
            None => Ok(()),
        }
    }

    /// What a class inherits, from what its direct superclasses have so far.
    fn inherited(
        &self,
        class: &LinkedClass,
        known: &[JoinedAttributes],
    ) -> Result<JoinedAttributes, AllocError>
        ensures { IfOk result (λ inherited. (q : ℕ) → IsChain self.now.values.items.now joining.Inherited
            (said_in known.now q) None class.now.superclasses.items (get nat_cmp inherited q)) }
    {
        let mut inherited: JoinedAttributes = BTreeMap::new(self.alloc);
        for superclass in class.superclasses.as_slice() {
            self.join_superclass(*superclass, known, &mut inherited)?;
        }
        Ok(inherited)
    }

    /// What a class has, from what its direct superclasses have so far.
    fn joined(
        &self,
        class: &LinkedClass,
        known: &[JoinedAttributes],
    ) -> Result<JoinedAttributes, AllocError>
        ensures { IfOk result (IsNext self.now.values.items.now self.now.stated.now class.now known.now) }
    {
        let mut joined = self.inherited(class, known)?;
        let own = self.own(class)?;
        join_many(&self.values, Joining::Own, &mut joined, &own)?;
        Ok(joined)
    }

    /// Puts the table of a class in its place. The answer is whether it says something else than the former one.
    fn put(&self, place: usize, table: JoinedAttributes, known: &mut Vec<JoinedAttributes>) -> bool
        ensures { IsPut self.now.values.items.now place table known.old.items known.new.items result }
    {
        match known.get_mut(place) {
            Some(slot) => {
                let same = are_same_tables(&self.values, slot, &table);
                *slot = table;
                !same
            }
            None => false,
        }
    }

    /// Joins the properties of the class at a place once more. The answer is whether this changed them.
    fn join_known(
        &self,
        place: usize,
        class: &LinkedClass,
        known: &mut Vec<JoinedAttributes>,
    ) -> Result<bool, AllocError>
        ensures { slice_get self.now.classes.now place ≡ Some class.now
            → IfOk result (IsStep self.now.values.items.now self.now.classes.now self.now.stated.now place
            known.old.items known.new.items) }
    {
        let table = self.joined(class, known.as_slice())?;
        Ok(self.put(place, table, known))
    }

    /// Joins the properties of one class once more, where it is there. The answer is whether this changed them.
    fn join_class(
        &self,
        place: usize,
        known: &mut Vec<JoinedAttributes>,
    ) -> Result<bool, AllocError>
        ensures { IfOk result (IsStep self.now.values.items.now self.now.classes.now self.now.stated.now place
            known.old.items known.new.items) }
    {
        match self.classes.get(place) {
            Some(class) => self.join_known(place, class, known),
            None => Ok(false),
        }
    }

    /// Joins the properties of each class once more, in this order. The answer is whether this changed them.
    fn join_in_order(
        &self,
        order: &[usize],
        known: &mut Vec<JoinedAttributes>,
    ) -> Result<bool, AllocError>
        ensures { IfOk result (IsPass self.now.values.items.now self.now.classes.now self.now.stated.now
            known.old.items order.now known.new.items) }
    {
        let mut changed = false;
        for place in order {
            let anew = self.join_class(*place, known)?;
            changed |= anew;
        }
        Ok(changed)
    }

    /// Nothing is joined of any class yet.
    fn none_joined(&self) -> Result<Vec<JoinedAttributes>, AllocError>
        ensures { IfOk result (λ known. AreNone self.now.classes.now known.items) }
    {
        let mut known = Vec::new(self.alloc);
        for _ in 0..self.classes.len() {
            let none: JoinedAttributes = BTreeMap::new(self.alloc);
            known.push(none)?;
        }
        Ok(known)
    }

    /// Joins the properties of each class again and again, until nothing changes.
    fn join_again(
        &self,
        order: &[usize],
        known: &mut Vec<JoinedAttributes>,
    ) -> Result<(), AllocError>
        ensures { OnOk result (AreJoinedAgain self.now.values.items.now self.now.classes.now self.now.stated.now
            order.now known.old.items known.new.items) }
    {
        for _ in 0..u64::MAX {
            let changed = self.join_in_order(order, known)?;
            if !changed {
                return Ok(());
            }
        }
        Err(AllocError)
    }

    /// Joins the properties of the classes again, where this is wanted.
    fn join_further(
        &self,
        wanted: bool,
        order: &[usize],
        known: &mut Vec<JoinedAttributes>,
    ) -> Result<(), AllocError>
        ensures again { wanted ≡ true → OnOk result (AreJoinedAgain self.now.values.items.now self.now.classes.now
            self.now.stated.now order.now known.old.items known.new.items) }
        ensures once { wanted ≡ false → OnOk result (known.new.items ≡ known.old.items) }
    {
        if wanted {
            return self.join_again(order, known);
        }
        Ok(())
    }

    /// The properties of each class, joined once where none derives from itself.
    fn all_joined(&self, cycles: &Cycles) -> Result<Vec<JoinedAttributes>, AllocError>
        ensures { AreStatements self.now.stated.now
            → MarkCycles (superclasses_of self.now.classes.now) cycles.now.cyclic.items
            → IsBehindTargets (superclasses_of self.now.classes.now) cycles.now.order.items
            → IfOk result (λ known. ArePropertiesOfAll self.now.values.items.now self.now.classes.now
            self.now.stated.now known.items) }
    {
        let order = cycles.order.as_slice();
        let marks = cycles.cyclic.as_slice();
        let wanted = is_any(marks);
        let mut known = self.none_joined()?;
        self.join_in_order(order, &mut known)?;
        self.join_further(wanted, order, &mut known)?;
        Ok(known)
    }

    /// The properties of each class, by its place. Notes the classes that derive from themselves.
    pub fn properties(&self, faults: &mut Faults) -> Result<Vec<JoinedAttributes>, AllocError>
        ensures noted { OnOk result (Notes (CyclicClassFaults self.now.classes.now) faults.old.first faults.new.first) }
        ensures properties { AreStatements self.now.stated.now → IfOk result (λ known.
            ArePropertiesOfAll self.now.values.items.now self.now.classes.now self.now.stated.now known.items) }
    {
        let cycles = note_cyclic(self.alloc, self.classes, faults)?;
        self.all_joined(&cycles)
    }
}
