//! Expressions without registers, and those that are one item.
ghost use Rattle.std.specs.Prelude.{◌≡◌, ◌≤◌, length, nat_le, option_map, MatchResult, Some, None};
ghost use Rattle.std.specs.List.{list_all};
ghost use Rattle.definitions.specs.CountedItems.{bits_needed};
ghost use Rattle.definitions.specs.Expressions.{is_allowed, is_allowed_literal, is_plain};
ghost use Rattle.definitions.specs.Operands.{plain_of};
ghost use Rattle.definitions.specs.Pieces.{pieces_of};
ghost use Rattle.definitions.specs.StatementItems.{whole_term, whole_counted_item};
ghost use Rattle.definitions.specs.Laws.ItemTexts.{item_as};
ghost use Rattle.expr_forms.specs.Joins.Elements.{literal_as, element_as};
ghost use Rattle.expr_forms.specs.Joins.ElementLists.{elements_in, item_alone};

use crate::counted_item::CountedItem;
use crate::elements::{Element, Literal, Sign};
use crate::expressions::Expr;
use crate::links::{Links, LoneRegisters};
use definitions::{ItemText, Letter, NumberBase};

/// How many bits a word has.
const WORD_BITS: usize = 60;

/// Whether an item goes into a word of 60 bits.
fn fits_word(item: ItemText<'_>) -> bool
    ensures { result ≡ nat_le (bits_needed (item_as item.entry)) 60 }
{
    CountedItem::of_text(item).bits_needed() <= WORD_BITS
}

fn is_allowed_literal(literals: bool, literal: Literal<'_>) -> bool
    ensures { result ≡ is_allowed_literal literals (literal_as literal.entry) }
{
    match literal {
        Literal::Number(_, _) => literals,
        Literal::Item(item) => literals && fits_word(item),
    }
}

/// Whether an element is no register, and no literal where none are allowed.
#[inline(always)]
pub(crate) fn is_allowed(literals: bool, element: Element<'_>) -> bool
    ensures { result ≡ is_allowed literals (element_as element.entry) }
{
    match element {
        Element::Register(_) => false,
        Element::Literal(literal) => is_allowed_literal(literals, literal),
        _ => true,
    }
}

fn are_allowed(literals: bool, behind: Links<'_>) -> bool
    ensures { result ≡ list_all (is_allowed literals) (elements_in behind.entry) }
{
    let mut links = behind;
    'links: loop {
        match links.next() {
            None => return true,
            Some(link) => {
                if !is_allowed(literals, link.element) {
                    return false;
                }
            }
        }
    }
}

/// The item that is the only element, if one is.
fn item_alone<'a>(links: &mut Links<'a>) -> Option<ItemText<'a>>
    ensures { option_map item_as result ≡ item_alone links.old }
{
    match links.next() {
        None => None,
        Some(link) => match links.next() {
            None => whole_item(link.element),
            Some(_) => None,
        },
    }
}

/// The item that an element is, if it is one.
#[inline(always)]
fn whole_item(element: Element<'_>) -> Option<ItemText<'_>>
    ensures { option_map item_as result ≡ whole_term (element_as element.entry) }
{
    match element {
        Element::Item(item) => Some(item),
        _ => None,
    }
}

impl<'a> Expr<'a> {
    /// The expression that a text of at most 711 characters spells in this number base, if it has no
    /// register, and no literal where none are allowed: else V.
    pub fn plain(text: &'a [u8], literals: bool, base: NumberBase) -> Result<Expr<'a>, Letter>
        requires { length text.now ≤ 711 }
        ensures { MatchResult result
            (λ e. plain_of literals base (pieces_of text.now) ≡ Some e)
            (λ letter. (letter ≡ Letter.V) × (plain_of literals base (pieces_of text.now) ≡ None)) }
    {
        let expression = Expr::parse(text, base)?;
        if expression.is_plain(literals) {
            Ok(expression)
        } else {
            Err(Letter::V)
        }
    }

    /// Whether no element is a register, and none a literal where literals are not allowed; nor a
    /// literal item of more than a word.
    pub fn is_plain(&self, literals: bool) -> bool
        ensures { result ≡ is_plain literals self.now }
    {
        if self.known_plain {
            return true;
        }
        are_allowed(literals, self.links())
    }

    /// The item that is all of it, without a sign: such an item fills its field as in DATA.
    #[inline(always)]
    pub fn whole_item(&self) -> Option<ItemText<'a>>
        ensures { option_map item_as result ≡ whole_counted_item self.now.sign self.now.terms }
    {
        match (self.registers, whole_item(self.element)) {
            (LoneRegisters::Kept, None) => None,
            _ => self.item_among_links(),
        }
    }

    /// The same by all links.
    #[inline(never)]
    fn item_among_links(&self) -> Option<ItemText<'a>>
        ensures { option_map item_as result ≡ whole_counted_item self.now.sign self.now.terms }
    {
        match self.sign() {
            Sign::Absent => item_alone(&mut self.links()),
            Sign::Plus | Sign::Minus => None,
        }
    }
}
