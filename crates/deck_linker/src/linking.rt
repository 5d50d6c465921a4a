//! The bits that a link makes of forms.
ghost use Rattle.definitions.specs.LinkValues.{linking_of};

use crate::based::Based;
use crate::layout::Layout;
use deck_objects::{Linking, coded_or_zero};
use expr_forms::Form;

/// A deck in a link: its blocks have their places, and its externals are what the decks enter. A field
/// that does not fit is 0.
#[derive(Clone, Copy)]
pub struct DeckLinking<'a> {
    pub layout: &'a Layout,
    pub based: &'a Based,
}

impl Linking for DeckLinking<'_> {
    ghost linking = { λ d. linking_of d.layout.now d.based.now };

    #[inline(never)]
    fn bits(&self, width: u32, form: Form) -> u64 {
        coded_or_zero(width, self.layout.linked_value(self.based, form))
    }
}
