//! Trees by numbers, in which types are told apart: what has no parts is a list of numbers, and the others join two.

ghost use Rattle.std.specs.Prelude.{◌≡◌, ◌<◌, ◌++◌, ◌∷◌, [], ℕ, IfOk, IfSome, List};
ghost use Rattle.term_values.specs.SyntaxPieces.{mark, tag_sketch};
ghost use Rattle.key_numbers.specs.KeyNumbers.{IsKeyNumber, IsSketchNumber, TellsTwo, leaf_code, names_sketch, pair_code, pairs_code, parts_sketch, sign_mark, signed_code};
ghost use Rattle.key_numbers.specs.ComponentKeys.{TellsComponent, beneath_key, component_key, has_number_key, is_integer_key, names_one, part_key};
ghost use Rattle.key_numbers.specs.TypeKeys.{PartKeys, TypeKey};
ghost use Rattle.key_numbers.specs.NumberedLists.{Grows, IsList};
ghost use Rattle.term_values.specs.Sketch.{Sketch};
ghost use Rattle.term_values.specs.Syntaxes.{Named};
ghost use Rattle.term_values.specs.Sketch.Sketch.{Join, Leaf};

use crate::number_lists::{EMPTY_LIST, NumberLists};
use std::alloc::AllocError;
use term_values::{Bytes, Names, Ranges, Tag};

/// The form of what has no parts.
const LEAF: u64 = 1;

/// The forms of types that are looked into.
const INTEGER_FORM: u64 = 2;

const ENUMERATED_FORM: u64 = 3;

const SEQUENCE_FORM: u64 = 6;

const SET_FORM: u64 = 7;

const TAGGED_FORM: u64 = 11;

/// A number that isn't below zero.
const UPWARD: u64 = 0;
/// A number below zero.
const DOWNWARD: u64 = 1;

/// What stands for an explicit tag, or an implicit one.
fn mark_of(explicit: bool) -> u64
    ensures { result ≡ mark explicit }
{
    if explicit { 1 } else { 0 }
}

/// Whether a number is below zero.
fn way_of(number: i64) -> u64
    ensures { result ≡ sign_mark number }
{
    if number < 0 { DOWNWARD } else { UPWARD }
}

impl NumberLists {
    /// The list with octets behind it, each a number.
    pub fn extended_by_octets(&mut self, before: usize, octets: &[u8]) -> Result<usize, AllocError>
        ensures grows { Grows self.old self.new }
        ensures is { IfOk result (λ n. (xs : List ℕ) → IsList self.old before xs →
            IsList self.new n (xs ++ octets.now)) }
    {
        let mut list = before;
        for i in 0..octets.len() {
            list = self.extended(list, octets[i] as u64)?;
        }
        Ok(list)
    }

    /// The list with a number and its sign behind it.
    fn extended_by_number(&mut self, before: usize, number: i64) -> Result<usize, AllocError>
        ensures grows { Grows self.old self.new }
        ensures is { IfOk result (λ n. (xs : List ℕ) → IsList self.old before xs →
            IsList self.new n (xs ++ signed_code number)) }
    {
        let signed = self.extended(before, way_of(number))?;
        let list = self.extended(signed, number.unsigned_abs())?;
        Ok(list)
    }

    /// The list with a pair of numbers behind it.
    fn extended_by_pair(&mut self, before: usize, pair: (i64, i64)) -> Result<usize, AllocError>
        ensures grows { Grows self.old self.new }
        ensures is { IfOk result (λ n. (xs : List ℕ) → IsList self.old before xs →
            IsList self.new n (xs ++ pair_code pair)) }
    {
        let first = self.extended_by_number(before, pair.0)?;
        let list = self.extended_by_number(first, pair.1)?;
        Ok(list)
    }

    /// The list with pairs of numbers behind it.
    fn extended_by_pairs(
        &mut self,
        before: usize,
        pairs: &[(i64, i64)],
    ) -> Result<usize, AllocError>
        ensures grows { Grows self.old self.new }
        ensures is { IfOk result (λ n. (xs : List ℕ) → IsList self.old before xs →
            IsList self.new n (xs ++ pairs_code pairs.now)) }
    {
        let mut list = before;
        for i in 0..pairs.len() {
            list = self.extended_by_pair(list, pairs[i])?;
        }
        Ok(list)
    }

    /// The list of what a leaf has.
    fn leaf_list(
        &mut self,
        kind: u8,
        octets: &[u8],
        pairs: &[(i64, i64)],
    ) -> Result<usize, AllocError>
        ensures grows { Grows self.old self.new }
        ensures is { IfOk result (λ n. IsList self.new n (leaf_code kind octets.now pairs.now)) }
    {
        let kind_alone = self.extended(EMPTY_LIST, kind as u64)?;
        let counted = self.extended(kind_alone, octets.len() as u64)?;
        let named = self.extended_by_octets(counted, octets)?;
        let list = self.extended_by_pairs(named, pairs)?;
        Ok(list)
    }

    /// The number of what has no parts, but octets and pairs of numbers.
    pub fn leaf(
        &mut self,
        kind: u8,
        octets: &[u8],
        pairs: &[(i64, i64)],
    ) -> Result<usize, AllocError>
        ensures grows { Grows self.old self.new }
        ensures is { IfOk result (λ n. IsSketchNumber self.new (Leaf kind octets.now pairs.now) n) }
    {
        let list = self.leaf_list(kind, octets, pairs)?;
        let number = self.number_of(LEAF, list, 0)?;
        Ok(number)
    }

    /// The number of two that are joined. What is no number of one stands for none.
    pub fn joined(&mut self, kind: u8, one: usize, other: usize) -> Result<usize, AllocError>
        ensures grows { Grows self.old self.new }
        ensures is { IfOk result (λ n. (x y : Sketch) → IsSketchNumber self.old x one →
            IsSketchNumber self.old y other → IsSketchNumber self.new (Join kind x y) n) }
    {
        let left = self.known(one);
        let right = self.known(other);
        let number = self.number_of(kind as u64 + 2, left, right as u64)?;
        Ok(number)
    }

    /// The number of bounds alone.
    pub fn bounds(&mut self, ranges: &Ranges) -> Result<usize, AllocError>
        ensures grows { Grows self.old self.new }
        ensures is { IfOk result (λ n. IsSketchNumber self.new (Leaf 0 [] ranges.now) n) }
    {
        self.leaf(0, &[], ranges.items.as_slice())
    }

    /// The number of a number alone.
    fn number_alone(&mut self, number: i64) -> Result<usize, AllocError>
        ensures grows { Grows self.old self.new }
        ensures is { IfOk result (λ n. IsSketchNumber self.new (Leaf 0 [] ((number, number) ∷ [])) n) }
    {
        let found = self.leaf(0, &[], &[(number, number)])?;
        Ok(found)
    }

    /// The number of a name with its number and what stands behind it.
    fn with_name(&mut self, entry: &(Bytes, i64), behind: usize) -> Result<usize, AllocError>
        ensures grows { Grows self.old self.new }
        ensures is { IfOk result (λ n. (rest : Sketch) → IsSketchNumber self.old rest behind →
            IsSketchNumber self.new (Join 0 (Leaf 0 entry.now.0 [])
            (Join 0 (Leaf 0 [] ((entry.now.1, entry.now.1) ∷ [])) rest)) n) }
    {
        let called = self.leaf(0, entry.0.as_slice(), &[])?;
        let numbered = self.number_alone(entry.1)?;
        let more = self.joined(0, numbered, behind)?;
        let number = self.joined(0, called, more)?;
        Ok(number)
    }

    /// The number of names with their numbers.
    pub fn names(&mut self, names: &Names) -> Result<usize, AllocError>
        ensures grows { Grows self.old self.new }
        ensures is { IfOk result (λ n. IsSketchNumber self.new (names_sketch names.now) n) }
    {
        let items = names.items.as_slice();
        let mut rest = self.leaf(0, &[], &[])?;
        for i in 0..items.len() {
            let place = items.len() - 1 - i;
            rest = self.with_name(&items[place], rest)?;
        }
        Ok(rest)
    }

    /// The number of a tag.
    pub fn tag(&mut self, tag: Tag, explicit: bool) -> Result<usize, AllocError>
        ensures grows { Grows self.old self.new }
        ensures is { IfOk result (λ n. IsSketchNumber self.new (tag_sketch tag explicit) n) }
    {
        let list = self.tag_list(tag, explicit)?;
        let number = self.number_of(LEAF, list, 0)?;
        Ok(number)
    }

    /// The list of a tag.
    fn tag_list(&mut self, tag: Tag, explicit: bool) -> Result<usize, AllocError>
        ensures grows { Grows self.old self.new }
        ensures is { IfOk result (λ n. IsList self.new n
            (leaf_code (mark explicit) (tag.class ∷ (tag.number ∷ [])) [])) }
    {
        let kind = self.extended(EMPTY_LIST, mark_of(explicit))?;
        let counted = self.extended(kind, 2)?;
        let classed = self.extended(counted, tag.class as u64)?;
        let list = self.extended(classed, tag.number as u64)?;
        Ok(list)
    }

    /// The two that are joined, with what is two above their kind.
    fn two(&self, number: usize) -> Option<(u64, usize, usize)>
        ensures smaller { IfSome result (λ x. (x.1 < number) × (x.2 < number)) }
        ensures told { (s : Sketch) → IsSketchNumber self.now s number → TellsTwo self.now s result }
    {
        let Some((form, one, other)) = self.formed(number) else {
            return None;
        };
        if form < 2 {
            return None;
        }
        Some((form, one, other as usize))
    }

    /// The number of the type beneath all tags.
    fn beneath_tags(&self, number: usize) -> usize
        ensures { (key : TypeKey) → IsKeyNumber self.now key number →
            IsKeyNumber self.now (beneath_key key) result }
    {
        let mut at = number;
        'tags: loop {
            match self.two(at) {
                Some((form, _, of)) => {
                    if form != TAGGED_FORM {
                        return at;
                    }
                    at = of;
                }
                None => return at,
            }
        }
    }

    /// Whether a type is INTEGER, under any tags.
    pub fn is_integer(&self, number: usize) -> bool
        ensures { (key : TypeKey) → IsKeyNumber self.now key number → result ≡ is_integer_key key }
    {
        let at = self.beneath_tags(number);
        match self.two(at) {
            Some((form, _, _)) => form == INTEGER_FORM,
            None => false,
        }
    }

    /// Whether one of names with numbers has this number of its own.
    fn has_name(&self, names: usize, called: usize) -> bool
        ensures { (name : List ℕ) (xs : Named) → IsSketchNumber self.now (Leaf 0 name []) called →
            IsSketchNumber self.now (names_sketch xs) names → result ≡ names_one name xs }
    {
        self.has_each_once();
        let mut at = names;
        'names: loop {
            let Some((_, one, other)) = self.two(at) else {
                return false;
            };
            if one == called {
                return true;
            }
            let Some((_, _, rest)) = self.two(other) else {
                return false;
            };
            at = rest;
        }
    }

    /// Whether a type, under any tags, is an INTEGER or ENUMERATED with a number of this name.
    pub fn names_number(&mut self, number: usize, name: &[u8]) -> Result<bool, AllocError>
        ensures grows { Grows self.old self.new }
        ensures told { IfOk result (λ has. (key : TypeKey) → IsKeyNumber self.old key number →
            has ≡ has_number_key name.now key) }
    {
        let called = self.leaf(0, name, &[])?;
        Ok(self.number_called(number, called))
    }

    /// Whether a type has a number whose name has this number.
    fn number_called(&self, number: usize, called: usize) -> bool
        ensures { (name : List ℕ) (key : TypeKey) → IsSketchNumber self.now (Leaf 0 name []) called →
            IsKeyNumber self.now key number → result ≡ has_number_key name key }
    {
        match self.two(self.beneath_tags(number)) {
            Some((form, _, names)) => {
                if form == INTEGER_FORM || form == ENUMERATED_FORM {
                    return self.has_name(names, called);
                }
                false
            }
            None => false,
        }
    }

    /// The number of the type of the first of parts whose name has this number.
    fn part_called(&self, parts: usize, called: usize) -> Option<usize>
        ensures { (name : List ℕ) (keys : PartKeys) → IsSketchNumber self.now (Leaf 0 name []) called →
            IsSketchNumber self.now (parts_sketch keys) parts →
            TellsComponent self.now (part_key name keys) result }
    {
        self.has_each_once();
        let mut at = parts;
        'parts: loop {
            let Some((_, one, other)) = self.two(at) else {
                return None;
            };
            let Some((_, of, rest)) = self.two(other) else {
                return None;
            };
            if one == called {
                return Some(of);
            }
            at = rest;
        }
    }

    /// The number of the type of the first component of this name, of a SEQUENCE or SET under any tags.
    pub fn component(&mut self, number: usize, name: &[u8]) -> Result<Option<usize>, AllocError>
        ensures grows { Grows self.old self.new }
        ensures told { IfOk result (λ told. (key : TypeKey) → IsKeyNumber self.old key number →
            TellsComponent self.new (component_key name.now key) told) }
    {
        let called = self.leaf(0, name, &[])?;
        Ok(self.component_called(number, called))
    }

    /// The number of the type of the first component whose name has this number.
    fn component_called(&self, number: usize, called: usize) -> Option<usize>
        ensures { (name : List ℕ) (key : TypeKey) → IsSketchNumber self.now (Leaf 0 name []) called →
            IsKeyNumber self.now key number → TellsComponent self.now (component_key name key) result }
    {
        match self.two(self.beneath_tags(number)) {
            Some((form, _, parts)) => {
                if form == SEQUENCE_FORM || form == SET_FORM {
                    return self.part_called(parts, called);
                }
                None
            }
            None => None,
        }
    }
}
