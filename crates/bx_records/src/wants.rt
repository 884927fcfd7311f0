//! What a call still wants.

use bx_layout::base::{List, Mode};

/// The blocks that a call wants to hold, in their order: the number of each, and how it is to be held.
pub type Wants = List<(u64, Mode)>;
