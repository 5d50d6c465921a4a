//! What a statement is once the state before it is known.

use crate::usual_sizing::UsualSizing;
use expr_forms::Form;
use use_blocks::{BlockChange, LocationSetting};

/// A statement with all that it and the state before it decide; its counters follow from block and place.
#[derive(Drop)]
pub struct Sizing {
    pub usual: UsualSizing,
    pub change: BlockChange,
    pub setting: LocationSetting,
    /// The location counter, `*`, where it is not the origin counter, `*O`.
    pub location: Option<Form>,
    /// The value of its expression: 0 where that is missing or faulty.
    pub value: Form,
}
