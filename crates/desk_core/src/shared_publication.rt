//! A publication that several hold.
ghost use Rattle.std.specs.Prelude.{◌≡◌, IfOk};

use deck_linker::ListedPublication;
use std::alloc::{AllocError, Global};
use std::marker::Model;
use std::sync::Arc;

/// A publication that several hold, each as its own. Contracts see its version and its decks.
#[derive(Drop)]
pub struct SharedPublication {
    publication: Arc<ListedPublication>,
}

impl Model for SharedPublication {
    ghost use Rattle.desk_core.specs.Desks.{Publication};
    ghost use Rattle.desk_core.specs.Joins.Held.{published};

    ghost Value = { Publication };

    ghost view = { λ s. published s.publication.value };
}

impl SharedPublication {
    /// The publication, to be shared.
    pub fn new(
        alloc: Global,
        publication: ListedPublication,
    ) -> Result<SharedPublication, AllocError>
        ensures { IfOk result (λ shared. shared ≡ record { version = publication.version; decks = publication.decks }) }
    {
        Ok(SharedPublication {
            publication: Arc::new(alloc, publication)?,
        })
    }

    /// The same publication once more.
    pub fn share(&self) -> Result<SharedPublication, AllocError>
        ensures { IfOk result (λ shared. shared ≡ self.now) }
    {
        Ok(SharedPublication {
            publication: Arc::clone(&self.publication)?,
        })
    }

    /// The publication, to look at.
    pub fn publication(&self) -> &ListedPublication
        ensures { self.now ≡ record { version = result.now.version; decks = result.now.decks } }
    {
        &self.publication
    }

    /// Frees it. Crates above call this in place of `drop` (CONTRIBUTING).
    pub fn free(self) {
        drop(self);
    }
}
