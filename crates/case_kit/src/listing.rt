//! Lists as text.
ghost use Rattle.std.specs.Prelude.{◌≡◌, OnOk, string_bytes};
ghost use Rattle.case_kit.specs.Listing.{listed};

use sq_value::Memory;

/// Puts another part of a list behind the others, with what stands between two.
///
/// # Errors
/// There is no memory for it. A front of it may be there.
pub fn push_listed(text: &mut String, between: &str, part: &str) -> Result<(), Memory>
    ensures { OnOk result (string_bytes text.new ≡ listed between.now (string_bytes text.old) part.now) }
{
    if !text.is_empty() {
        text.push_str(between)?;
    }
    text.push_str(part)?;
    Ok(())
}
