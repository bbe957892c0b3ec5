//! When two names are the same.
ghost use Rattle.std.specs.Prelude.{◌≡◌, ◌↔◌, ℕ, List, IsTrue};
ghost use Rattle.sq_value.specs.Name.{IsSameName, is_same_name};

/// Whether two names are equal but for the case of ASCII letters, as SQL compares identifiers here.
pub fn same_name(x: &str, y: &str) -> bool
    ensures { result ≡ is_same_name x.now y.now }
{
    x.eq_ignore_ascii_case(y)
}

/// The law of [`same_name`]. It does nothing.
///
/// The test holds exactly where the names are the same: `same`.
pub fn name_law()
    ensures { (x y : List ℕ) → IsTrue (is_same_name x y) ↔ IsSameName x y }
{}
