//! The log of closed modules.
ghost use Rattle.std.specs.Prelude.{◌≡◌, ◌<◌, All, length};
ghost use Rattle.eddy_meaning.specs.declared.entry.Entry.{Entry as Entered};
ghost use Rattle.board_hands.specs.Logged.{logged};

use bag_meaning::Built;
use eddy_meaning::Entry;

/// Writes each entry of a module of this number at the place that its stamp is.
pub fn place_all(built: &mut [Built], alias: u8, entries: &[Entry])
    requires within { All (λ (e : Entered). e.stamp < length built.old) entries.now }
    ensures { built.new ≡ logged alias entries.now built.old }
{
    for entry in entries {
        built[entry.stamp as usize] = Built {
            alias,
            row: entry.row,
        };
    }
}
