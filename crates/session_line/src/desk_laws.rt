//! What a session may rest on, as the contract of a function that does nothing.
ghost use Rattle.std.specs.Prelude.{◌≡◌, ℕ, List, true};
ghost use Rattle.desk_core.specs.Desks.{Desk};
ghost use Rattle.desk_core.specs.Steps.{Steps};
ghost use Rattle.desk_core.specs.declared.calls.Call.TheVariants.{Ask, Make};
ghost use Rattle.desk_core.specs.declared.calls.Change.{Change};
ghost use Rattle.desk_core.specs.declared.calls.Question.{Question};
ghost use Rattle.desk_core.specs.declared.replies.Reply.{Reply};
ghost use Rattle.session_line.specs.Joins.Kinds.{fits_change, fits_question};

/// A desk answers each change and each question of a session by the reply that it asks for, a change, cards, a
/// publication or a status, or by a refusal; and never by another, by a job or by the end of one.
pub fn a_desk_answers_sessions()
    ensures changes { (desk next : Desk) (by : List ℕ) (change : Change) (reply : Reply) → Steps desk (Make by change) reply next → fits_change change reply ≡ true }
    ensures questions { (desk next : Desk) (question : Question) (reply : Reply) → Steps desk (Ask question) reply next → fits_question question reply ≡ true }
{}
