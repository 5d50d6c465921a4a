//! An object that several hold.
ghost use Rattle.std.specs.Prelude.{◌≡◌, IfOk};

use crate::object::Object;
use std::alloc::{AllocError, Global};
use std::marker::Model;
use std::sync::Arc;

/// An object that several hold, each as its own. Contracts see the deck.
#[derive(Drop)]
pub struct SharedObject {
    object: Arc<Object>,
}

impl Model for SharedObject {
    ghost use Rattle.definitions.specs.DeckInput.{Deck};

    ghost Value = { Deck };

    ghost view = { λ s. s.object.value };
}

impl SharedObject {
    /// The object, to be shared.
    pub fn new(alloc: Global, object: Object) -> Result<SharedObject, AllocError>
        ensures { IfOk result (λ shared. shared ≡ object) }
    {
        Ok(SharedObject {
            object: Arc::new(alloc, object)?,
        })
    }

    /// The same object once more.
    pub fn share(&self) -> Result<SharedObject, AllocError>
        ensures { IfOk result (λ shared. shared ≡ self.now) }
    {
        Ok(SharedObject {
            object: Arc::clone(&self.object)?,
        })
    }

    pub fn object(&self) -> &Object
        ensures { result.now ≡ self.now }
    {
        &self.object
    }

    /// Frees it. Crates above call this in place of `drop` (CONTRIBUTING).
    pub fn free(self) {
        drop(self);
    }
}
