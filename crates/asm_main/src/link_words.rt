//! What the letters of LINK lines mean.
ghost use Rattle.std.specs.Prelude.{◌≡◌};
ghost use Rattle.asm_main.specs.Joins.LinkWords.{words_of_link};

/// What a LINK line means by its letter; no words for what is none.
pub fn words_of_link(letter: u8) -> &'static str
    ensures { result.now ≡ words_of_link letter }
{
    match letter {
        b'D' => "an earlier deck has this entry already",
        b'U' => "no deck has an entry for this external",
        b'A' => "a field does not fit once it is linked, and is 0",
        b'F' => "it does not fit into memory",
        _ => "",
    }
}
