//! The operations that the language distinguishes, and their classes (COMPASS 60492600,
//! pseudo-instructions).
ghost use Rattle.std.specs.Prelude.{◌≡◌, Some};
ghost use Rattle.definitions.specs.Operations.{is_neutral, is_instruction, is_data, is_reserving, is_machine, has_place, is_labelled};
ghost use Rattle.operations.specs.Joins.OperationsAs.{operation_as};

use definitions::DeckKind;

/// What the operation field of a statement names.
#[derive(Clone, Copy, Debug, PartialEq, Eq)]
pub enum Operation {
    /// The field is empty.
    EmptyField,
    /// IDENT, TITLE, EJECT, SPACE, LIST.
    Listed,
    End,
    /// ABS, PERIPH.
    Kind(DeckKind),
    Base,
    Use,
    Org,
    Loc,
    /// EQU, and `=`.
    Equ,
    Bss,
    Bssz,
    Data,
    Con,
    Vfd,
    Dis,
    Entry,
    Ext,
    /// An instruction of the deck's kind.
    Instruction,
    Unknown,
}

impl Operation {
    /// Whether it may stand in front of the ABS or PERIPH that makes the kind of a deck.
    pub fn is_neutral(self) -> bool
        ensures { result ≡ is_neutral (Some (operation_as self)) }
    {
        matches!(
            self,
            Operation::EmptyField | Operation::Listed | Operation::Base
        )
    }

    /// Whether it is an instruction of the deck's kind.
    pub fn is_instruction(self) -> bool
        ensures { result ≡ is_instruction (operation_as self) }
    {
        matches!(self, Operation::Instruction)
    }

    /// Whether it is DATA, CON, VFD or DIS.
    pub fn is_data(self) -> bool
        ensures { result ≡ is_data (operation_as self) }
    {
        matches!(
            self,
            Operation::Data | Operation::Con | Operation::Vfd | Operation::Dis
        )
    }

    /// Whether it is BSS, BSSZ, ORG or LOC.
    pub fn is_reserving(self) -> bool
        ensures { result ≡ is_reserving (operation_as self) }
    {
        matches!(
            self,
            Operation::Bss | Operation::Bssz | Operation::Org | Operation::Loc
        )
    }

    /// Whether it is placed as instructions are: an instruction, or unknown.
    pub fn is_machine(self) -> bool
        ensures { result ≡ is_machine (operation_as self) }
    {
        matches!(self, Operation::Instruction | Operation::Unknown)
    }

    /// Whether its statement has a place of its own.
    pub fn has_place(self) -> bool
        ensures { result ≡ has_place (operation_as self) }
    {
        self.is_machine() || self.is_data() || self.is_reserving()
    }

    /// Whether it defines the symbol of its location field as a place; EQU, which defines it as a
    /// value, is not among them.
    pub fn is_labelled(self) -> bool
        ensures { result ≡ is_labelled (operation_as self) }
    {
        matches!(self, Operation::Bss | Operation::Bssz) || self.is_machine() || self.is_data()
    }
}
