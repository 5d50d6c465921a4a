//! What a session may do: edit and ask, or ask alone.
ghost use Rattle.std.specs.Prelude.{◌≡◌};
ghost use Rattle.session_line.specs.Rights.{allowed};

use crate::tasks::Task;
use cards::DeckName;
use session_commands::Refusal;

/// What a session may do.
#[derive(Clone, Copy)]
pub enum Rights {
    /// All that there is.
    Edits,
    /// It may ask, and change no deck and no file.
    Reads,
}

/// What is done of a task that changes the deck or the file of this name.
fn refused(name: DeckName) -> Task
    ensures { result ≡ Task.Refuse Refusal.ReadOnly }
{
    drop(name);
    Task::Refuse(Refusal::ReadOnly)
}

/// What is done of a task by who may only ask.
fn task_to_read(task: Task) -> Task
    ensures { result ≡ allowed Rights.Reads task }
{
    match task {
        Task::Make(change) => {
            change.free();
            Task::Refuse(Refusal::ReadOnly)
        }
        Task::LoadDeck(name) | Task::LoadAll(name) | Task::ReloadDeck(name) => refused(name),
        Task::SaveDeck(name, _) => refused(name),
        Task::SaveAll => Task::Refuse(Refusal::ReadOnly),
        other => other,
    }
}

/// What is done of a task: nothing where it changes something and the session may only ask.
pub(crate) fn allowed(rights: Rights, task: Task) -> Task
    ensures { result ≡ allowed rights task }
{
    match rights {
        Rights::Edits => task,
        Rights::Reads => task_to_read(task),
    }
}
