//! The names of a catalogue, in lower case and in the order in which they came.
ghost use Rattle.std.specs.Prelude.{◌≡◌, [], ◌∷◌, ◌++◌, ◌<◌, None, false, map, position, is_some, length, IfSome, IsSome, string_bytes};
ghost use Rattle.std.specs.List.{list_any};
ghost use Rattle.std.specs.Str.{bytes_eq};
ghost use Rattle.indexmap.specs.IndexSet.{spare};
ghost use Rattle.sq_value.specs.Name.{lower};
ghost use Rattle.catalogue.specs.Names.{bytes_of};

use crate::fault::CatalogueFault;
use indexmap::IndexSet;

/// The place of a name, which is given in lower case.
pub(crate) fn place_of(names: &IndexSet<String>, lower: &str) -> Option<usize>
    ensures place { result ≡ position (bytes_eq lower.now) (bytes_of names.now.keys) }
    ensures found { is_some result ≡ list_any (λ name. bytes_eq lower.now (string_bytes name)) names.now.keys }
    ensures within { IfSome result (λ place. place < length names.now.keys) }
{
    names.get_index_of(lower)
}

/// Puts a name, which is given in lower case, behind the others. It is new, and there is room for it.
pub(crate) fn push_name(names: &mut IndexSet<String>, lower: String)
    requires room { 0 < spare names.old }
    requires fresh { list_any (λ name. bytes_eq (string_bytes lower) (string_bytes name)) names.old.keys ≡ false }
    ensures { names.new.keys ≡ names.old.keys ++ lower ∷ [] }
{
    let _ = names.insert_full(lower);
}

/// Whether a text is a name in lower case.
fn is_lower_of(name: &[u8], text: &[u8]) -> bool
    ensures { result ≡ bytes_eq (lower name.now) text.now }
{
    if name.len() != text.len() {
        return false;
    }
    for (place, byte) in name.iter().enumerate() {
        if byte.to_ascii_lowercase() != text[place] {
            return false;
        }
    }
    true
}

/// Whether a name is among those in lower case. It takes no memory, and looks at each of them.
fn is_there(names: &IndexSet<String>, name: &str) -> bool
    ensures { result ≡ list_any (λ known. bytes_eq (lower name.now) (string_bytes known)) names.now.keys }
{
    for place in 0..names.len() {
        let Some(known) = names.get_index(place) else {
            return false;
        };
        if is_lower_of(name.as_bytes(), known.as_bytes()) {
            return true;
        }
    }
    false
}

/// Why a name isn't added that there is no memory to write in lower case.
pub(crate) fn fault_without_copy(names: &IndexSet<String>, name: &str) -> CatalogueFault
    ensures repeated { result ≡ CatalogueFault.RepeatedTable
        → IsSome (position (bytes_eq (lower name.now)) (bytes_of names.now.keys)) }
    ensures memory { result ≡ CatalogueFault.Memory
        → position (bytes_eq (lower name.now)) (bytes_of names.now.keys) ≡ None }
{
    if is_there(names, name) {
        CatalogueFault::RepeatedTable
    } else {
        CatalogueFault::Memory
    }
}
