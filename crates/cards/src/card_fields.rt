//! The fields of a statement's cards.
ghost use Rattle.std.specs.Prelude.{◌≡◌, ◌≤◌, length};
ghost use Rattle.definitions.specs.Fields.{fields_of};

use crate::card::Card;
use crate::statement_fields::Fields;
use crate::statement_room::StatementRoom;

/// The fields of one statement, whose cards these are: at most ten. One pass over its text, which
/// lies on the card, or is put into the room where the statement goes over several cards.
pub fn fields<'a>(cards: &'a [Card], room: &'a mut StatementRoom) -> Fields<'a>
    requires { length cards.now ≤ 10 }
    ensures { result ≡ fields_of cards.now }
{
    let Some((first, others)) = cards.split_first() else {
        return Fields::none();
    };
    if others.is_empty() || first.is_unread() {
        return Fields::of_card(first);
    }
    room.join(first, others);
    let joined: &'a StatementRoom = room;
    Fields::of_text(joined.as_slice())
}
