//! Names in a list, and their positions, which are found without a walk.

ghost use Rattle.std.specs.Prelude.{◌≡◌, ◌&&◌, ℕ, List as Seq, IfOk, length, map, nat_lt, option_copied, slice_get, take};
ghost use Rattle.base_types.specs.Names.{is_among};
ghost use Rattle.wf_places.specs.Inside.Tables.{IsTable, first_of};

use base_types::{Memory, Text, TryCopy};
use std::alloc::Global;
use std::collections::HashMap;
use std::marker::Model;
use tree_types::Limit;
use wf_manifest::{Argument, Input, OutputDecl, Template};

/// What has a name.
pub(crate) trait Named {
    ghost name_of: { Self → Seq ℕ };

    fn name(&self) -> &Text
        ensures { result.now ≡ name_of self.now };
}

impl Named for Argument {
    ghost name_of = { λ argument. argument.name };

    fn name(&self) -> &Text {
        &self.name
    }
}

impl Named for Input {
    ghost name_of = { λ input. input.name };

    fn name(&self) -> &Text {
        &self.name
    }
}

impl Named for OutputDecl {
    ghost name_of = { λ output. output.name };

    fn name(&self) -> &Text {
        &self.name
    }
}

impl Named for Template {
    ghost name_of = { λ template. template.name };

    fn name(&self) -> &Text {
        &self.name
    }
}

impl Named for Limit {
    ghost name_of = { λ limit. limit.lock.text };

    fn name(&self) -> &Text {
        &self.lock.text
    }
}

/// The names of these.
pub(crate) fn names_of<'a, T: Named>(alloc: Global, items: &'a [T]) -> Result<Vec<&'a Text>, Memory>
    ensures { IfOk result (λ names. map (λ name. name.now) names.items ≡ map T.name_of items.entry.now) }
{
    let mut names = Vec::new(alloc);
    for i in 0..items.len() {
        names.push(items[i].name())?;
    }
    Ok(names)
}

/// Names with their positions. Contracts see them as their list.
#[derive(Drop)]
pub(crate) struct NameTable<'a> {
    names: Vec<&'a Text>,
    positions: HashMap<Text, usize>,
}

impl<'a> Model for NameTable<'a> {
    ghost use Rattle.std.specs.Prelude.{ℕ, List as Seq, map};
    ghost use Rattle.wf_places.specs.Inside.Tables.{IsTable};

    ghost Value = { Seq (Seq ℕ) };

    ghost view = { λ table. map (λ name. name.now) table.names.items };

    ghost invariant = { λ table. IsTable table.positions (map (λ name. name.now) table.names.items) 0 };
}

impl<'a> NameTable<'a> {
    pub(crate) fn new(alloc: Global, names: Vec<&'a Text>) -> Result<NameTable<'a>, Memory>
        ensures { IfOk result (λ table. table ≡ map (λ name. name.now) names.entry.items) }
    {
        let positions = positions_of(alloc, names.as_slice())?;
        Ok(NameTable { names, positions })
    }

    /// The position of the first of this name, else how many names there are.
    pub(crate) fn position(&self, name: &Text) -> usize
        ensures { result ≡ first_of name.now self.now }
    {
        match self.positions.get(name) {
            Some(position) => *position,
            None => self.names.len(),
        }
    }

    pub(crate) fn has(&self, name: &Text) -> bool
        ensures { result ≡ is_among self.now name.now }
    {
        self.position(name) < len_of(&self.names)
    }

    /// Whether the name is among the first so many.
    pub(crate) fn is_before(&self, count: usize, name: &Text) -> bool
        ensures { result ≡ is_among (take count self.now) name.now }
    {
        is_below(self.position(name), count, len_of(&self.names))
    }
}

fn len_of(names: &Vec<&Text>) -> usize
    ensures { result ≡ length names.now.items }
{
    names.len()
}

/// The item at a position, if it is there.
pub(crate) fn item_at<'a, T>(items: &'a [T], position: usize) -> Option<&'a T>
    ensures { option_copied result ≡ slice_get items.entry.now position }
{
    items.get(position)
}

fn is_below(position: usize, count: usize, all: usize) -> bool
    ensures { result ≡ (nat_lt position count && nat_lt position all) }
{
    position < count && position < all
}

fn positions_of(alloc: Global, names: &[&Text]) -> Result<HashMap<Text, usize>, Memory>
    ensures { IfOk result (λ positions. IsTable positions (map (λ name. name.now) names.now) 0) }
{
    let mut positions = HashMap::new(alloc);
    let mut i = names.len();
    while i > 0 {
        i -= 1;
        let name = names[i].copy()?;
        positions.insert(name, i)?;
    }
    Ok(positions)
}
