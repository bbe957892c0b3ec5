//! The marks at the ends of a heading's fields, which fix types.
ghost use Rattle.std.specs.Prelude.{◌≡◌, ◌-◌, true, false, length, take, IfSome, IfNone, Option, option_map};
ghost use Rattle.table_csv.specs.Marks.{ends, marked_kind, marked_scale, written_name};

use sq_value::ColType;

/// What stands before a mark, where the text ends with it.
fn before_mark<'a>(text: &'a str, mark: &str) -> Option<&'a str>
    ensures some { IfSome result (λ name. (ends mark.now text.now ≡ true) × (name.now
        ≡ take (length text.now - length mark.now) text.now)) }
    ensures none { IfNone result (ends mark.now text.now ≡ false) }
{
    text.strip_suffix(mark)
}

/// The scale that a text's mark fixes, behind the name before it.
fn split_scale(text: &str) -> Option<(&str, u8)>
    ensures scale { option_map (λ found. found.1) result ≡ marked_scale text.now }
    ensures name { IfSome result (λ found. found.0.now ≡ take (length text.now - 5) text.now) }
{
    if let Some(name) = before_mark(text, ":dec0") {
        return Some((name, 0));
    }
    if let Some(name) = before_mark(text, ":dec1") {
        return Some((name, 1));
    }
    if let Some(name) = before_mark(text, ":dec2") {
        return Some((name, 2));
    }
    if let Some(name) = before_mark(text, ":dec3") {
        return Some((name, 3));
    }
    if let Some(name) = before_mark(text, ":dec4") {
        return Some((name, 4));
    }
    if let Some(name) = before_mark(text, ":dec5") {
        return Some((name, 5));
    }
    if let Some(name) = before_mark(text, ":dec6") {
        return Some((name, 6));
    }
    None
}

/// The name that a heading's field writes, and the type that its mark fixes, if it has one.
pub(crate) fn split_mark(text: &str) -> (&str, Option<ColType>)
    ensures name { result.0.now ≡ written_name text.now }
    ensures kind { result.1 ≡ marked_kind text.now }
{
    if let Some(name) = before_mark(text, ":int") {
        return (name, Some(ColType::Integer));
    }
    if let Some(name) = before_mark(text, ":text") {
        return (name, Some(ColType::Text));
    }
    match split_scale(text) {
        Some((name, scale)) => (name, Some(ColType::Decimal(scale))),
        None => (text, None),
    }
}
