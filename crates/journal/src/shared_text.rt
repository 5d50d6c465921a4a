//! A text that several hold.
ghost use Rattle.std.specs.Prelude.{◌≡◌, IfOk};

use std::alloc::{AllocError, Global};
use std::marker::Model;
use std::sync::Arc;
use text_ports::Text;

/// A text that several hold, each as its own. Contracts see its bytes.
#[derive(Drop)]
pub struct SharedText {
    text: Arc<Text>,
}

impl Model for SharedText {
    ghost use Rattle.std.specs.Prelude.{ℕ, List};

    ghost Value = { List ℕ };

    ghost view = { λ s. s.text.value };
}

impl SharedText {
    /// The text, to be shared.
    pub fn new(alloc: Global, text: Text) -> Result<SharedText, AllocError>
        ensures { IfOk result (λ shared. shared ≡ text) }
    {
        Ok(SharedText {
            text: Arc::new(alloc, text)?,
        })
    }

    /// The same text once more.
    pub fn share(&self) -> Result<SharedText, AllocError>
        ensures { IfOk result (λ shared. shared ≡ self.now) }
    {
        Ok(SharedText {
            text: Arc::clone(&self.text)?,
        })
    }

    pub fn as_slice(&self) -> &[u8]
        ensures { result.now ≡ self.now }
    {
        let text: &Text = &self.text;
        text.as_slice()
    }
}
