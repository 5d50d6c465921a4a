//! The two processors whose words an image has.
ghost use Rattle.std.specs.Prelude.{◌≡◌, ◌<◌, ◌*◌, ◌^◌};
ghost use Rattle.images.specs.Processors.{hexadecimal_digits};

/// Which processor words are of.
#[derive(Clone, Copy, PartialEq, Eq)]
pub(crate) enum Processor {
    /// Words of 60 bits.
    Central,
    /// Words of 12 bits.
    Peripheral,
}

impl Processor {
    /// How many hexadecimal digits a word has.
    pub(crate) fn hexadecimal_digits(self) -> usize
        ensures { result ≡ hexadecimal_digits self }
    {
        match self {
            Processor::Central => 15,
            Processor::Peripheral => 3,
        }
    }

    /// How many octal digits a word has.
    pub(crate) fn octal_digits(self) -> usize {
        match self {
            Processor::Central => 20,
            Processor::Peripheral => 4,
        }
    }

    /// The last bits of a number, as many as a word has.
    pub(crate) fn word_of(self, number: u64) -> u64
        ensures fits { result < 2 ^ (4 * hexadecimal_digits self) }
        ensures same { number < 2 ^ (4 * hexadecimal_digits self) → result ≡ number }
    {
        match self {
            Processor::Central => number % 0o100_000_000_000_000_000_000,
            Processor::Peripheral => number % 0o10_000,
        }
    }

    /// How many words its memory has at most.
    pub(crate) fn memory_size(self) -> usize {
        match self {
            Processor::Central => 0o1_000_000,
            Processor::Peripheral => 0o10_000,
        }
    }
}
