//! Symbols, literals and counters as the rows give them.
ghost use Rattle.std.specs.Prelude.{Ok};

use definitions::Letter;
use expr_forms::{Form, Literal, Names};

/// Each symbol has this value, or none is defined; each literal stands here, and so do the counters.
#[derive(Drop)]
pub struct KnownNames {
    pub value: Option<Form>,
    pub literal: Form,
    pub location: Form,
    pub origin: Form,
}

impl Names for KnownNames {
    ghost names = { λ known. record {
      symbol = λ name. known.value;
      literal = λ literal. Ok known.literal;
      location = known.location;
      origin = known.origin;
    } };

    fn symbol(&self, _name: &[u8]) -> Option<Form> {
        self.value
    }

    fn literal(&self, _literal: Literal<'_>) -> Result<Form, Letter> {
        Ok(self.literal)
    }

    fn location(&self) -> Form {
        self.location
    }

    fn origin(&self) -> Form {
        self.origin
    }
}
