//! Whether tags tell members apart: the tags of those that stand together are kept in order, and each further one is
//! looked for among them (X.680, sections 25.6, 27.3 and 29.3).

ghost use Rattle.std.specs.Prelude.{◌≡◌, ◌&&◌, ◌||◌, IfOk, OnOk, false};
ghost use Rattle.std.specs.List.{list_any};
ghost use Rattle.term_values.specs.Beginnings.{is_one_of};
ghost use Rattle.term_values.specs.Tag.{is_same_tag};
ghost use Rattle.term_values.specs.declared.tag.Tag.{Tag};
ghost use Rattle.asn1_tags.specs.TagRuns.{begins_some, has_key, seen};

use crate::tag_sets::TagSet;
use std::alloc::{AllocError, Global};
use std::collections::BTreeSet;
use term_values::Tag;

/// The tags of the members that were passed.
#[derive(Drop)]
pub struct Run {
    /// The tags, by class and number.
    pub tags: BTreeSet<(u8, u32)>,
    /// Whether one begins with each tag.
    pub any: bool,
    /// Whether one begins with some tag.
    pub some: bool,
}

/// No members.
pub(crate) fn empty_run(alloc: Global) -> Run
    ensures any { result.any ≡ false }
    ensures some { result.some ≡ false }
    ensures tags { (tag : Tag) → seen result tag ≡ false }
{
    Run {
        tags: BTreeSet::new(alloc),
        any: false,
        some: false,
    }
}

/// Whether a tag is among those.
fn has_key(keys: &BTreeSet<(u8, u32)>, tag: Tag) -> bool
    ensures { result ≡ has_key keys.now tag }
{
    keys.contains(&(tag.class, tag.number))
}

/// Whether one of these tags is among those.
fn has_one_of(keys: &BTreeSet<(u8, u32)>, tags: &[Tag]) -> bool
    ensures { result ≡ list_any (has_key keys.now) tags.now }
{
    tags.iter().any(|tag| has_key(keys, *tag))
}

/// Adds a tag to those.
fn add_key(keys: &mut BTreeSet<(u8, u32)>, tag: Tag) -> Result<(), AllocError>
    ensures { OnOk result ((other : Tag) → has_key keys.new other ≡ (has_key keys.old other || is_same_tag tag other)) }
{
    keys.insert((tag.class, tag.number))?;
    Ok(())
}

/// Adds these tags to those.
fn add_tags(keys: &mut BTreeSet<(u8, u32)>, tags: &[Tag]) -> Result<(), AllocError>
    ensures { OnOk result ((other : Tag) →
        has_key keys.new other ≡ (has_key keys.old other || is_one_of tags.now other)) }
{
    for tag in tags.iter() {
        add_key(keys, *tag)?;
    }
    Ok(())
}

impl Run {
    /// Adds a member that begins with these tags; answers whether a former one begins with one of them too.
    pub(crate) fn push(&mut self, set: &TagSet) -> Result<bool, AllocError>
        ensures shares { IfOk result (λ told. told ≡ ((self.old.any && begins_some set.now)
            || ((set.now.any && self.old.some) || list_any (seen self.old) set.now.tags.items))) }
        ensures any { OnOk result (self.new.any ≡ (self.old.any || set.now.any)) }
        ensures some { OnOk result (self.new.some ≡ (self.old.some || begins_some set.now)) }
        ensures tags { OnOk result ((tag : Tag) →
            seen self.new tag ≡ (seen self.old tag || is_one_of set.now.tags.items tag)) }
    {
        let begins = set.any | !set.tags.as_slice().is_empty();
        let among = has_one_of(&self.tags, set.tags.as_slice());
        let shares = (self.any & begins) | ((set.any & self.some) | among);
        add_tags(&mut self.tags, set.tags.as_slice())?;
        self.any |= set.any;
        self.some |= begins;
        Ok(shares)
    }
}
