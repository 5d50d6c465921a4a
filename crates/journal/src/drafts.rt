//! Records of changes that are asked for, whose versions are not known yet.
ghost use Rattle.std.specs.Prelude.{◌≡◌, IfNone, IfOk, IfSome, OnErr, false};
ghost use Rattle.desk_core.specs.declared.calls.Change.TheVariants.{DropDeck};
ghost use Rattle.journal.specs.Drafts.{change_carried, form_text, is_dropped, stamped_text};
ghost use Rattle.journal.specs.RecordTexts.{IsLong};

use crate::record_texts::RecordText;
use crate::writing::text_behind_version;
use cards::{DeckName, Edit};
use desk_core::{Change, Edits, Listed};
use moments::Moment;
use session_commands::Seen;
use std::alloc::{AllocError, Global};
use std::marker::Model;

/// When a change is asked for, and the name of the session that asks.
#[derive(Drop)]
pub struct Stamp {
    pub moment: Moment,
    pub by: DeckName,
}

/// How a record is there before it is written.
#[derive(Drop)]
pub(crate) enum Form {
    /// As its text.
    Written(RecordText),
    /// As what it shows, whose text is made when it is written.
    Told(Stamp, Change),
    /// None is written.
    Nothing,
}

/// The record of a change that is asked for. Contracts see its text, from behind the version to in front
/// of the check sum.
#[derive(Drop)]
pub struct Draft {
    form: Form,
}

impl Model for Draft {
    ghost use Rattle.std.specs.Prelude.{ℕ, List};
    ghost use Rattle.journal.specs.Drafts.{form_text};

    ghost Value = { List ℕ };

    ghost view = { λ d. form_text d.form };
}

/// The record of a drop is short.
fn drop_is_short(stamp: &Stamp, name: &DeckName, seen: u64)
    ensures { IsLong (stamped_text stamp.now (DropDeck name.now seen)) → ⊥ }
{
    stamp.moment.as_slice();
    stamp.by.as_slice();
    name.as_slice();
}

/// The same of a change.
fn drops_are_short(stamp: &Stamp, change: &Change)
    ensures { IsLong (stamped_text stamp.now change.now) → is_dropped change.now ≡ false }
{
    if let Change::DropDeck { name, seen } = change {
        drop_is_short(stamp, name, *seen);
    }
}

/// The record of a change. That of a drop is made also where no memory is left.
pub(crate) fn draft_whole(alloc: Global, stamp: Stamp, change: &Change) -> Result<Draft, AllocError>
    ensures text { IfOk result (λ draft. draft ≡ stamped_text stamp change.now) }
    ensures memory { OnErr result (is_dropped change.now ≡ false) }
{
    drops_are_short(&stamp, change);
    Ok(Draft {
        form: Form::Written(text_behind_version(alloc, &stamp.moment, &stamp.by, change)?),
    })
}

/// The record of a change that was carried, by its edits as they were made. It takes no memory: its text is
/// made when it is written.
pub fn draft_carried(stamp: Stamp, name: DeckName, seen: u64, edits: Listed<Edit>) -> Draft
    ensures { result ≡ stamped_text stamp (change_carried name seen edits) }
{
    let (seen, edits) = (Seen::Exactly(seen), Edits::Batch(edits));
    Draft {
        form: Form::Told(stamp, Change::EditDeck { name, seen, edits }),
    }
}

impl Draft {
    /// What stands in place of a record where none is written.
    pub fn empty() -> Draft {
        Draft {
            form: Form::Nothing,
        }
    }

    /// The text of the record, from behind its version.
    pub(crate) fn text(&self, alloc: Global) -> Result<RecordText, AllocError>
        ensures text { IfOk result (λ text. text ≡ self.now) }
        ensures memory { OnErr result (IsLong self.now) }
    {
        match &self.form {
            Form::Written(text) => text.share(),
            Form::Told(stamp, change) => {
                text_behind_version(alloc, &stamp.moment, &stamp.by, change)
            }
            Form::Nothing => Ok(RecordText::default()),
        }
    }

    /// The record as its text, and that text once more; or the record as it was, where there is no memory for
    /// a text that is long.
    pub fn with_text(self, alloc: Global) -> (Draft, Option<RecordText>)
        ensures draft { result.0 ≡ self }
        ensures text { IfSome result.1 (λ text. text ≡ self) }
        ensures memory { IfNone result.1 (IsLong self) }
    {
        let Ok(text) = self.text(alloc) else {
            return (self, None);
        };
        match text.share() {
            Ok(own) => {
                let form = Form::Written(text);
                (Draft { form }, Some(own))
            }
            Err(_) => (self, None),
        }
    }
}
