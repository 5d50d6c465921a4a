//! What a client may rest on, as the contract of a function that does nothing.
ghost use Rattle.turn_office.specs.Seats.{OfficeFacts, SeatFacts};
ghost use Rattle.desk_core.specs.Desks.{Desk};
ghost use Rattle.desk_core.specs.Runs.{IsUnchanged};
ghost use Rattle.desk_core.specs.declared.calls.Call.{Call};
ghost use Rattle.desk_core.specs.declared.replies.Reply.{Reply};
ghost use Rattle.desk_core.specs.Steps.{Steps};
ghost use Rattle.session_line.specs.DeskRelations.{asks_seat};
ghost use Rattle.session_line.specs.Refusing.{RefusesCommand};
ghost use Rattle.session_line.specs.Serving.{Sides};
ghost use Rattle.session_line.specs.declared.rights.Rights.{Rights};
ghost use Rattle.kept_desk.specs.Doors.{door_of};
ghost use Rattle.kept_desk.specs.Refused.{ChangesNothing};

use crate::ends::Ends;
use deck_files::Shelf;

/// A command of a session that is told as refused has changed nothing, be its first line taken before the others
/// or with them: at a desk whose changes are kept, with whatever ends of the session and whatever shelf, version,
/// cards and publication are as before. A change that the desk made, and whose record was not kept, is told as
/// `Unkept`.
pub fn refusals_change_nothing<E: Ends, S: Shelf>()
    ensures { (rights : Rights) (old new : Sides (Desk × E) S) →
        RefusesCommand rights (door_of Steps E.relations) S.relations old new →
        IsUnchanged old.desk.0 new.desk.0 }
{}

/// The same of whoever calls from a seat, where others change the desk meanwhile: what the seat has seen goes on,
/// and each call of its own behind that left version, cards and publication as they were.
pub fn refusals_at_a_seat_change_nothing<C, E: Ends, S: Shelf>()
    ensures { (office : C → OfficeFacts Desk) (seat : C → SeatFacts Call Reply) (rights : Rights) (old new : Sides (C × E) S) →
        RefusesCommand rights (door_of (asks_seat office seat) E.relations) S.relations old new →
        ChangesNothing (seat old.desk.0) (seat new.desk.0) }
{}
