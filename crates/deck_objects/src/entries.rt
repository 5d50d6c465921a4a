//! The names that a deck enters.
ghost use Rattle.std.specs.Prelude.{◌≡◌};

use expr_forms::{Form, Name};
use std::marker::Model;

/// A name that a deck enters, with its form. Contracts see the definitions' record.
#[derive(Drop)]
pub struct Entry {
    name: Name,
    form: Form,
}

impl Model for Entry {
    ghost use Rattle.definitions.specs.Settled.{Definition};

    ghost Value = { Definition };

    ghost view = { λ e. record { name = e.name; form = e.form } };
}

impl Entry {
    pub fn new(name: Name, form: Form) -> Entry
        ensures { result ≡ record { name = name; form = form } }
    {
        Entry { name, form }
    }

    pub fn name(&self) -> &Name
        ensures { result.now ≡ self.now.name }
    {
        &self.name
    }

    pub fn form(&self) -> Form
        ensures { result ≡ self.now.form }
    {
        self.form
    }
}
