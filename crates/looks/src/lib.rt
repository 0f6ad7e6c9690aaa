//! Looks at things by their names: what was found, or that there was nothing. The last look at a name is found without a
//! walk.
#![tactic(auto)]

ghost use Rattle.std.specs.Prelude.{◌≡◌, [], ◌∷◌, not, find, filter, IfOk, OnOk};
ghost use Rattle.std.specs.Option.{option_copied};
ghost use Rattle.looks.specs.Named.{is_named, look};

use base_types::{Memory, Text, TryCopy};
use indexmap::IndexMap;
use std::alloc::Global;
use std::marker::Model;

/// A look at what has a name: what was found, or nothing.
#[derive(Drop)]
pub struct Look<T> {
    pub name: Text,
    pub found: Option<T>,
}

/// Looks, which contracts see with the last one first.
#[derive(Drop)]
pub struct Looks<T> {
    // The last one last.
    looks: Vec<Look<T>>,
    // Where the last look at a name stands.
    places: IndexMap<Text, usize>,
}

impl<T> Model for Looks<T> {
    ghost use Rattle.std.specs.Prelude.{List, reverse};
    ghost use Rattle.looks.specs.declared.Look.{Look};
    ghost use Rattle.looks.specs.Inside.{IsPlaced};

    ghost Value = { List (Look T) };

    ghost view = { λ l. reverse l.looks.items };

    ghost invariant = { λ l. IsPlaced l.places (reverse l.looks.items) };
}

impl<T: Drop> Looks<T> {
    /// No looks. It takes no memory.
    pub fn new(alloc: Global) -> Self
        ensures { result ≡ [] }
    {
        Looks {
            looks: Vec::new(alloc),
            places: IndexMap::new(alloc),
        }
    }

    /// The last look at a name.
    pub fn last(&self, name: &Text) -> Option<&Look<T>>
        ensures { option_copied result ≡ find (is_named name.now) self.now }
    {
        match self.places.get(name) {
            None => None,
            Some(place) => self.looks.get(*place),
        }
    }

    /// Adds a look.
    pub fn add(&mut self, name: Text, found: Option<T>) -> Result<(), Memory>
        ensures { OnOk result (self.new ≡ look name found ∷ self.old) }
    {
        let key = name.copy()?;
        self.looks.try_reserve(1)?;
        self.places.insert(key, self.looks.len())?;
        self.looks.push_reserved(Look { name, found });
        Ok(())
    }

    /// These looks without those at a name. It walks over all of them.
    pub fn without(self, name: &Text) -> Result<Looks<T>, Memory>
        ensures { IfOk result (λ left. left ≡ filter (λ l. not (is_named name.now l)) self) }
    {
        let mut left = Looks::new(*self.looks.allocator());
        for look in self.looks {
            if look.name != *name {
                left.add(look.name, look.found)?;
            }
        }
        Ok(left)
    }
}
