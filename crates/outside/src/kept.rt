//! The bytes that a sink in memory keeps.
ghost use Rattle.std.specs.Prelude.{◌≡◌, ◌+◌, ◌≤◌, ◌++◌, length, take, vec_len, vec_capacity};

/// Keeps the first bytes of a piece, for which there is room.
pub(crate) fn keep_first(kept: &mut Vec<u8>, piece: &[u8], count: usize)
    requires within { count ≤ length piece.now }
    requires room { vec_len kept.old + count ≤ vec_capacity kept.old }
    ensures items { kept.new.items ≡ kept.old.items ++ take count piece.now }
    ensures capacity { vec_capacity kept.old ≤ vec_capacity kept.new }
{
    kept.extend_from_slice(&piece[..count]).unwrap();
}
