//! Why expected bounds are refused.

use cvc_base::Cause;
use cvc_rows::{LineFault, Refused};

/// A fault of an expected file, at its line, from 1.
pub type ExpectFault = LineFault<Cause>;

/// The first fault of an expected file, or want of memory.
pub type ExpectRefusal = Refused<ExpectFault>;
