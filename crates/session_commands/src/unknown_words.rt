//! Words that begin no command.
ghost use Rattle.std.specs.Prelude.{◌≡◌, ◌≤◌, length};
ghost use Rattle.std.specs.List.{list_all};
ghost use Rattle.session_commands.specs.UnknownWords.{can_be_told, is_printed, text_of_word, told_word, word_in};

/// How many characters a word has at most that is shown.
const MOST_CHARACTERS: usize = 16;

/// The first word of a line, which begins no command: 1 to 16 ASCII characters that are printed, and no
/// blank, with zeros behind them.
#[derive(Clone, Copy, Debug)]
pub struct UnknownWord {
    characters: [u8; MOST_CHARACTERS],
    len: u8,
}

impl UnknownWord {
    /// The word that these characters make, if it can be written.
    pub fn read(text: &[u8]) -> Option<UnknownWord>
        ensures { result ≡ word_in text.now }
    {
        if can_be_told(text) {
            Some(UnknownWord::of_characters(text))
        } else {
            None
        }
    }

    fn of_characters(text: &[u8]) -> UnknownWord
        requires { length text.now ≤ 16 }
        ensures { result ≡ told_word text.now }
    {
        let mut characters = [0; MOST_CHARACTERS];
        characters.split_at_mut(text.len()).0.copy_from_slice(text);
        UnknownWord {
            characters,
            len: text.len() as u8,
        }
    }

    pub fn as_slice(&self) -> &[u8]
        ensures word { result.now ≡ text_of_word self.now }
        ensures short { length result.now ≤ 16 }
    {
        let len = usize::from(self.len);
        if len < MOST_CHARACTERS {
            self.characters.split_at(len).0
        } else {
            &self.characters
        }
    }
}

/// Whether a word has 1 to 16 characters that are printed.
fn can_be_told(word: &[u8]) -> bool
    ensures { result ≡ can_be_told word.now }
{
    !word.is_empty() && word.len() <= MOST_CHARACTERS && are_printed(word)
}

fn are_printed(word: &[u8]) -> bool
    ensures { result ≡ list_all is_printed word.now }
{
    word.iter().all(|c| c.is_ascii_graphic())
}
