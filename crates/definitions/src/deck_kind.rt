//! The kinds of decks, and what depends on the kind of a deck alone: its text, the units and bits of its
//! words, the words of its blocks, and where its memory ends (6600 reference 60100000, central memory,
//! peripheral processors; COMPASS 60492600, ABS, PERIPH).
ghost use Rattle.std.specs.Prelude.{◌≡◌};
ghost use Rattle.definitions.specs.Kinds.{kind_text, memory_end, most_words, unit_bits, units, word_bits};

/// The kind of a deck: relocatable or absolute central program, or peripheral program.
#[derive(Clone, Copy, Debug, PartialEq, Eq)]
pub enum DeckKind {
    Rel,
    Abs,
    Periph,
}

impl DeckKind {
    /// The kind as it is written.
    pub fn text(self) -> &'static [u8]
        ensures { result.now ≡ kind_text self }
    {
        match self {
            DeckKind::Rel => b"REL",
            DeckKind::Abs => b"ABS",
            DeckKind::Periph => b"PERIPH",
        }
    }

    /// How many bits a word has.
    pub fn word_bits(self) -> u32
        ensures { result ≡ word_bits self }
    {
        match self {
            DeckKind::Rel | DeckKind::Abs => 60,
            DeckKind::Periph => 12,
        }
    }

    /// How many units a word has: four parcels, or the one peripheral word.
    pub fn units(self) -> u32
        ensures { result ≡ units self }
    {
        match self {
            DeckKind::Rel | DeckKind::Abs => 4,
            DeckKind::Periph => 1,
        }
    }

    /// How many bits a unit has.
    pub fn unit_bits(self) -> u32
        ensures { result ≡ unit_bits self }
    {
        match self {
            DeckKind::Rel | DeckKind::Abs => 15,
            DeckKind::Periph => 12,
        }
    }

    /// How many words a block has at most.
    pub fn most_words(self) -> u32
        ensures { result ≡ most_words self }
    {
        match self {
            DeckKind::Rel | DeckKind::Abs => 131072,
            DeckKind::Periph => 4096,
        }
    }

    /// The first address behind the memory that a deck is for.
    pub fn memory_end(self) -> u32
        ensures { result ≡ memory_end self }
    {
        match self {
            DeckKind::Rel | DeckKind::Abs => 0o400000,
            DeckKind::Periph => 0o10000,
        }
    }
}
