//! Texts.
ghost use Rattle.std.specs.Prelude.{◌≡◌, IfOk};
ghost use Rattle.sq_value.specs.Text.{kept_bytes};

use crate::memory::Memory;
use arrayvec::ArrayString;
use std::alloc::Global;
use std::fmt;
use std::marker::Model;

/// The most bytes of a short text. With the length and the variant it fills 40 bytes, a whole number
/// of what common allocators hand out.
const SHORT: usize = 24;

/// What a text is kept as: a short one lies in one piece of memory, and a long one in two.
#[derive(Drop)]
pub(crate) enum Kept {
    Short(ArrayString<SHORT>),
    Long(String),
}

/// A text in UTF-8, which contracts see as its bytes.
///
/// It is one pointer wide, so that a table's cell is three words. A text of up to 24 bytes is one
/// allocation.
#[derive(Drop)]
pub struct SqText {
    kept: Box<Kept>,
}

impl Model for SqText {
    ghost use Rattle.std.specs.Prelude.{List, ℕ};
    ghost use Rattle.sq_value.specs.Text.{kept_bytes};

    ghost Value = { List ℕ };

    ghost view = { λ t. kept_bytes t.kept.value };
}

/// Shows the text alone, however it is kept.
impl fmt::Debug for SqText {
    fn fmt<W: fmt::Write>(&self, f: &mut fmt::Formatter<W>) -> fmt::Result {
        f.debug_struct("SqText")
            .field("text", &self.as_str())
            .finish()
    }
}

/// What a text is kept as.
fn keep(alloc: Global, text: &str) -> Result<Kept, Memory>
    ensures { IfOk result (λ kept. kept_bytes kept ≡ text.now) }
{
    match ArrayString::from(text) {
        Ok(short) => Ok(Kept::Short(short)),
        Err(_) => Ok(Kept::Long(String::from_str(alloc, text)?)),
    }
}

impl SqText {
    /// A copy of `text`.
    ///
    /// # Errors
    /// `Memory`: there is no memory for the copy.
    pub fn of(alloc: Global, text: &str) -> Result<SqText, Memory>
        ensures { IfOk result (λ t. t ≡ text.now) }
    {
        let kept = Box::new(alloc, keep(alloc, text)?)?;
        Ok(SqText { kept })
    }

    /// The text.
    pub fn as_str(&self) -> &str
        ensures { result.now ≡ self.now }
    {
        match self.kept.as_ref() {
            Kept::Short(text) => text.as_str(),
            Kept::Long(text) => text.as_str(),
        }
    }
}
