//! The line of one statement of a deck.
ghost use Rattle.std.specs.Prelude.{ℕ, ◌≡◌, ◌≤◌, ◌+◌, ◌-◌, ◌^◌, List, IfOk, min, slice_get};
ghost use Rattle.definitions.specs.Cards.{Card};
ghost use Rattle.definitions.specs.Objects.{shown_of};
ghost use Rattle.definitions.specs.Settling.{settle, settled_all};
ghost use Rattle.definitions.specs.Statements as statements;
ghost use Rattle.statement_coder.specs.Joins.ReadOperands.{IsReadOperand};
ghost use Rattle.deck_objects.specs.Joins.CodedLines.{IsNamed, IsShown};
ghost use Rattle.deck_assembler.specs.Joins.KeptFields.{AreKeptOn};
ghost use Rattle.deck_assembler.specs.Joins.SizedDecks.{IsSizedStatement};
ghost use Rattle.deck_assembler.specs.Joins.Walks.{IsWhole, context_in, whole_of};

use crate::SizedStatement;
use crate::deck_view::DeckView;
use crate::statement_lines::coded_line;
use deck_objects::{FieldLists, Line, Unlinked};
use statement_coder::{Content, Item, Meter, ReadOperand, code};
use std::alloc::AllocError;

/// No bits, of which a room for fields is made.
fn no_field() -> Item {
    Item {
        width: 0,
        letter: None,
        content: Content::Known(0),
    }
}

/// The line of a statement whose operand was read, and whose block has this index. Its fields are put
/// behind those of the lines before it, if they are listed; where memory runs out the lists are of no
/// use.
pub(crate) fn statement_line(
    view: &DeckView<'_>,
    read: &ReadOperand<'_>,
    sized: &SizedStatement,
    block: u32,
    lists: &mut FieldLists,
    meter: &mut Meter,
) -> Result<Line, AllocError>
    ensures line { IfOk result (λ line. (known others earlier : List statements.Statement) (given : statements.Statement) (stood : ℕ) (ahead : List Card) →
        let whole = whole_of view.now known others in
        let kind = whole.deck.kind in
        let settled = settle kind (settled_all kind earlier) given in
        IsWhole whole → read.now.kind ≡ kind → IsReadOperand read.now settled → IsSizedStatement kind earlier stood ahead sized.now given → IsNamed (slice_get whole.rows block) settled.block →
        IsShown kind whole.rows lists.new stood ahead line (shown_of (context_in whole) settled) × AreKeptOn lists.old lists.new) }
    ensures cards { IfOk result (λ line. line.cards ≡ sized.now.cards) }
    ensures coded { meter.new.coded ≡ min (meter.old.coded + 1) (2 ^ 64 - 1) }
    ensures rises { meter.old.coded ≤ meter.new.coded }
    ensures sized { meter.new.sized ≡ meter.old.sized }
{
    let bases = Unlinked { bases: view.bases };
    let mut room = [no_field(), no_field(), no_field()];
    let coded = code(
        read,
        &sized.sizing,
        view,
        &bases,
        &mut lists.items,
        &mut room,
        meter,
    )?;
    let line = coded_line(
        read.operation,
        block,
        &sized.sizing,
        read.kind,
        coded.items,
        lists,
    )?;
    Ok(Line {
        cards: sized.cards as u32,
        letters: coded.letters,
        coded: Some(line),
    })
}
