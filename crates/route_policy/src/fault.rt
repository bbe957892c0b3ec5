//! Why a text is no route script.

use std::error::Error;
use std::fmt;

/// Why a text is no route script.
#[derive(Clone, Copy, Debug, PartialEq, Eq)]
pub enum ScriptFault {
    /// The first of the leading 64 words that is none begins at this byte.
    BadWord { at: u32 },
    /// The leading 64 words are in form, and there are more.
    TooLong,
}

impl fmt::Display for ScriptFault {
    fn fmt<W: fmt::Write>(&self, f: &mut fmt::Formatter<W>) -> fmt::Result {
        match self {
            ScriptFault::BadWord { at } => write!(f, "no route word at byte {at}"),
            ScriptFault::TooLong => f.write_str("more than 64 route words"),
        }
    }
}

impl Error for ScriptFault {}
