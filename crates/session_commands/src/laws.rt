//! What a client may rest on, as the contract of a function that does nothing.
ghost use Rattle.std.specs.Prelude.{ℕ, ◌≡◌, List, ◌++◌, Ok, codes};
ghost use Rattle.session_commands.specs.declared.commands.Command.{Command};
ghost use Rattle.session_commands.specs.Commands.{command_of};
ghost use Rattle.cards.specs.declared.edits.Edit.{Edit};
ghost use Rattle.session_commands.specs.Edits.{edit_in_batch};
ghost use Rattle.session_commands.specs.Lines.{IsLawful, IsLawfulEdit, line_in_batch, line_of_command};
ghost use Rattle.session_commands.specs.declared.refusals.Refusal.TheVariants.{UnknownCommand};
ghost use Rattle.session_commands.specs.Refusals.{refusal_text};
ghost use Rattle.session_commands.specs.UnknownWords.{told_word};

/// The line that a client writes for a command, with a lawful name, numbers up to 2^62, and a card,
/// reads back as that command; and the line of an edit in a batch as that edit.
pub fn lines_read_back()
    ensures commands { (command : Command) → IsLawful command → command_of (line_of_command command) ≡ Ok command }
    ensures edits { (edit : Edit) → IsLawfulEdit edit → edit_in_batch (line_in_batch edit) ≡ Ok edit }
{}

/// A word that begins no command is shown whole: the refusal has the word behind its name, and nothing else.
pub fn words_are_told_whole()
    ensures { (word : List ℕ) → refusal_text (UnknownCommand (told_word word)) ≡ codes "UnknownCommand " ++ word }
{}
