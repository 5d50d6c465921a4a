//! The names that an operand has: those of an ENTRY or an EXT (COMPASS 60492600, ENTRY, EXT).
ghost use Rattle.std.specs.Prelude.{◌≡◌};
ghost use Rattle.definitions.specs.Operands as operands;
ghost use Rattle.statement_coder.specs.Joins.Readings.{IsReading};
ghost use Rattle.deck_assembler.specs.Joins.OperandNames.{names_in};

use expr_forms::LinkedNames;
use statement_coder::Reading;

/// The names that an operand has, if it has names.
pub(crate) fn names_of<'a>(reading: &Reading<'a>) -> Option<LinkedNames<'a>>
    ensures { (operand : operands.Operand) → IsReading reading.now operand → result ≡ names_in operand }
{
    match reading {
        Reading::Names(names) => Some(names.copied()),
        Reading::Unread => None,
        Reading::Bad => None,
        Reading::Instruction(_) => None,
        Reading::Data(_) => None,
        Reading::Con(_) => None,
        Reading::Vfd(_) => None,
        Reading::Text(_) => None,
        Reading::Value(_) => None,
        Reading::Use(_) => None,
    }
}
