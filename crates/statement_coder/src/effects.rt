//! What a sized statement does to the state between statements, and how many words of its block it
//! reaches (COMPASS 60492600, USE, BASE, LOC, ORG, blocks).
ghost use Rattle.std.specs.Prelude.{◌≡◌, ◌≤◌, ◌+◌, ◌-◌, ◌/◌, Some, None, false, if◌then◌else◌};
ghost use Rattle.definitions.specs.Kinds.{units};
ghost use Rattle.definitions.specs.Lengths.{reached};
ghost use Rattle.definitions.specs.Settled.{Settled, read_of};
ghost use Rattle.definitions.specs.Settling.{View};
ghost use Rattle.definitions.specs.Laws.States.{effect_of};
ghost use Rattle.definitions.specs.Statements as statements;
ghost use Rattle.definitions.specs.declared.deck_kind.DeckKind as kinds;
ghost use Rattle.definitions.specs.declared.number_base.NumberBase as bases;
ghost use Rattle.use_blocks.specs.Joins.EffectsAs.{effect_as};
ghost use Rattle.statement_coder.specs.Joins.Sizings.{IsSizing};
ghost use Rattle.statement_coder.specs.Joins.StatementsRead.{IsRead};

use crate::kept_sizing::KeptSizing;
use crate::statement::Statement;
use definitions::DeckKind;
use operations::number_base_set;
use use_blocks::{Effect, Position};

/// How many words reach to the end of a statement.
fn words_to(kind: DeckKind, end: u32) -> u32
    requires { end ≤ 524288 }
    ensures { result ≡ (end + units kind - 1) / units kind }
{
    (end + kind.units() - 1) / kind.units()
}

/// The new position of a block, where the statement has a place.
fn position_behind(is_placed: bool, end: u32, asks: bool) -> Option<Position>
    requires { end ≤ 524288 }
    ensures { result ≡ (if is_placed then Some (record { end = end; asks = asks }) else None) }
{
    if is_placed {
        Some(Position::new(end, asks))
    } else {
        None
    }
}

/// How many words of its block a statement that begins no run reaches from its place to its end.
fn reached_from(kind: DeckKind, is_placed: bool, place: u32, end: u32) -> u32
    requires { end ≤ 524288 }
    ensures { (settled : Settled) → settled.is_placed ≡ is_placed → settled.place ≡ place → settled.end ≡ end → settled.begins_run ≡ false → result ≡ reached kind settled }
{
    if is_placed && place < end {
        words_to(kind, end)
    } else {
        0
    }
}

impl KeptSizing {
    /// How many words of its block the statement reaches; an ORG reaches none.
    fn reached(&self, kind: DeckKind) -> u32
        ensures { (view : View) (settled : Settled) → IsSizing kind view settled self.now → result ≡ reached kind settled }
    {
        if self.begins_run() {
            return 0;
        }
        let usual = self.usual();
        reached_from(kind, usual.is_placed, usual.place, usual.end)
    }

    /// What the statement that was sized does to the state before it: exactly the definitions' effect.
    /// Its position is in units of the block, what it reaches in words. The state that it was sized
    /// from accepts its change.
    #[inline(always)]
    pub fn effect(&self, statement: &Statement<'_>) -> Effect
        ensures effect { (kind : kinds.DeckKind) (given : statements.Statement) (base : bases.NumberBase) (view : View) (settled : Settled) →
            IsRead kind given.cards statement.now → settled.read ≡ read_of kind base given → IsSizing kind view settled self.now →
            effect_as result ≡ effect_of kind settled }
        ensures change { result.change ≡ self.now.change }
    {
        let usual = self.usual();
        Effect {
            change: self.change(),
            position: position_behind(usual.is_placed, usual.end, usual.asks),
            setting: self.setting(),
            number_base: number_base_set(statement.name, statement.variable),
            neutral: statement.operation.is_neutral(),
            reached: self.reached(statement.kind),
        }
    }
}
