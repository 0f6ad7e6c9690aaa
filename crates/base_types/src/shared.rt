//! A value that its copies share.

ghost use Rattle.std.specs.Prelude.{◌≡◌, IfOk};

use crate::{Memory, TryCopy};
use std::alloc::Global;
use std::marker::Model;
use std::sync::Arc;

/// A value that its copies share, and that contracts see as the value itself.
#[derive(Debug, Drop)]
pub struct Shared<T> {
    value: Arc<T>,
}

impl<T> Model for Shared<T> {
    ghost Value = { T };

    ghost view = { λ shared. shared.value.value };
}

impl<T: Drop> Shared<T> {
    pub fn new(alloc: Global, value: T) -> Result<Shared<T>, Memory>
        ensures { IfOk result (λ shared. shared ≡ value) }
    {
        Ok(Shared {
            value: Arc::new(alloc, value)?,
        })
    }
}

impl<T> Shared<T> {
    pub fn value(&self) -> &T
        ensures { result.now ≡ self.now }
    {
        &self.value
    }
}

impl<T: Drop> TryCopy for Shared<T> {
    fn copy(&self) -> Result<Shared<T>, Memory> {
        Ok(Shared {
            value: Arc::try_clone(&self.value)?,
        })
    }
}
