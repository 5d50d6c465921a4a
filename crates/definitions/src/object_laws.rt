//! What holds of the object of a deck, each law as the contract of a function that does nothing.
ghost use Rattle.std.specs.List.{IsDistinct};
ghost use Rattle.std.specs.Prelude.{◌≡◌, filter_map, map};
ghost use Rattle.definitions.specs.Characters.{same_text};
ghost use Rattle.definitions.specs.DeckInput.{Deck};
ghost use Rattle.definitions.specs.Lengths.{BlockRow};
ghost use Rattle.definitions.specs.Objects.{Shown, object_of};

/// The statements that the listing shows with their fields are those of the object, in their order.
pub fn coded_statements_are_shown()
    ensures shown { (deck : Deck) → filter_map (λ (shown : Shown). shown.coded) (object_of deck).shown ≡ (object_of deck).coded }
{}

/// The blocks of an object have different names, and its literals' block has one of its own.
pub fn names_of_blocks_differ()
    ensures names { (deck : Deck) → IsDistinct same_text (map (λ (row : BlockRow). row.name) (object_of deck).rows) }
{}
