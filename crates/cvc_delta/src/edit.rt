//! Edits of declared rows.

use cvc_base::{ItemList, Mv, Text};

/// An edit of the declared rows, or a recheck. Voltages are in millivolts.
#[derive(Debug, Drop)]
pub enum Edit {
    /// The row of this name has these bounds; where there is none, a new one stands last.
    Set { name: Text, low: Mv, high: Mv },
    /// The row of this name is gone.
    Unset { name: Text },
    /// The rows are checked.
    Recheck,
}

/// The edits of a file, in order.
pub type Edits = ItemList<Edit>;
