//! Lists of numbers, of which each is kept once: two lists are equal where they have one number. The arcs of
//! identifiers are such lists (X.660, annex A), and what types are told apart by (docs/PROFILE.md, section 12).

ghost use Rattle.std.specs.Prelude.{◌≡◌, ◌++◌, ◌∷◌, [], ◌≤◌, ◌<◌, ℕ, None, suc, IfOk, List, MatchOption, Some, length, reverse};
ghost use Rattle.std.specs.List.{slice_get};
ghost use Rattle.key_numbers.specs.ListPlaces.{IsMadeOf};
ghost use Rattle.key_numbers.specs.NumberedLists.{AreOnce, Grows, IsList};

use std::alloc::{AllocError, Global};
use std::collections::BTreeMap;
use std::marker::Model;

/// The number of the empty list.
pub const EMPTY_LIST: usize = 0;

/// The form of a list. Others are those of `key_tables`.
const LIST: u64 = 0;

/// Lists of numbers, and trees of them, by numbers of their own. Contracts see them in a row.
#[derive(Drop)]
pub struct NumberLists {
    alloc: Global,
    row: Vec<(u64, usize, u64)>,
    places: BTreeMap<(u64, usize, u64), usize>,
}

impl Model for NumberLists {
    ghost use Rattle.key_numbers.specs.NumberedLists.{Row};

    ghost Value = { Row };

    ghost use Rattle.key_numbers.specs.ListPlaces.{ArePlaces};

    ghost view = { λ lists. lists.row.items };

    ghost invariant = { λ lists. ArePlaces lists.row.items lists.places };
}

impl NumberLists {
    /// The empty list alone.
    pub fn new(alloc: Global) -> NumberLists
        ensures { result ≡ [] }
    {
        NumberLists {
            alloc,
            row: Vec::new(alloc),
            places: BTreeMap::new(alloc),
        }
    }

    /// Nothing has two numbers. Does nothing.
    pub fn has_each_once(&self)
        ensures { AreOnce self.now }
    {
        let _count = self.row.as_slice().len();
    }

    /// A number that is given, or that of the empty list.
    pub(crate) fn known(&self, number: usize) -> usize
        ensures within { result ≤ length self.now }
        ensures same { number ≤ length self.now → result ≡ number }
    {
        if number <= self.row.as_slice().len() {
            number
        } else {
            EMPTY_LIST
        }
    }

    /// What has this number; none where nothing has it.
    pub(crate) fn formed(&self, number: usize) -> Option<(u64, usize, u64)>
        ensures { MatchOption result ((k : ℕ) → number ≡ suc k → slice_get self.now k ≡ None)
            (λ x. (k : ℕ) × (number ≡ suc k) × (slice_get self.now k ≡ Some x) × IsMadeOf k x) }
    {
        if number == 0 {
            return None;
        }
        match self.row.get(number - 1) {
            Some(formed) => Some(*formed),
            None => None,
        }
    }

    /// The number of what has this form and is made of these.
    pub(crate) fn number_of(
        &mut self,
        form: u64,
        one: usize,
        other: u64,
    ) -> Result<usize, AllocError>
        requires { IsMadeOf (length self.now) (form, one, other) }
        ensures grows { Grows self.old self.new }
        ensures is { IfOk result (λ n. (k : ℕ) × (n ≡ suc k) × (slice_get self.new k ≡ Some (form, one, other))) }
    {
        let formed = (form, one, other);
        if let Some(place) = self.places.get(&formed) {
            return Ok(*place);
        }
        self.row.push(formed)?;
        let place = self.row.as_slice().len();
        match self.places.insert(formed, place) {
            Ok(_) => Ok(place),
            Err(_) => {
                self.row.pop();
                Err(AllocError)
            }
        }
    }

    /// The list with one number more behind it. What is no list's number stands for the empty list.
    pub fn extended(&mut self, before: usize, last: u64) -> Result<usize, AllocError>
        ensures grows { Grows self.old self.new }
        ensures is { IfOk result (λ n. (xs : List ℕ) → IsList self.old before xs →
            IsList self.new n (xs ++ last ∷ [])) }
    {
        let known = self.known(before);
        let number = self.number_of(LIST, known, last)?;
        Ok(number)
    }

    /// The list before the last number of a list, and this number; none where the list is empty.
    pub fn parted(&self, list: usize) -> Option<(usize, u64)>
        ensures { (xs : List ℕ) → IsList self.now list xs → MatchOption result (xs ≡ [])
            (λ x. (ys : List ℕ) × IsList self.now x.0 ys × (xs ≡ ys ++ x.1 ∷ [])) }
    {
        match self.formed(list) {
            Some((_, before, last)) => Some((before, last)),
            None => None,
        }
    }

    /// The numbers of a list, where they are at most so many.
    pub fn numbers(&self, list: usize, most: usize) -> Result<Option<Vec<u64>>, AllocError>
        ensures { IfOk result (λ told. (xs : List ℕ) → IsList self.now list xs →
            MatchOption told (most < length xs) (λ numbers. (numbers.items ≡ xs) × (length xs ≤ most))) }
    {
        let mut numbers = Vec::new(self.alloc);
        let mut at = list;
        for _step in 0..most {
            let Some((before, last)) = self.parted(at) else {
                return Ok(Some(turned(numbers)));
            };
            numbers.push(last)?;
            at = before;
        }
        match self.parted(at) {
            Some(_) => Ok(None),
            None => Ok(Some(turned(numbers))),
        }
    }
}

/// Numbers in the other order.
fn turned(numbers: Vec<u64>) -> Vec<u64>
    ensures { result.items ≡ reverse numbers.items }
{
    let mut numbers = numbers;
    numbers.reverse();
    numbers
}
