//! Remotes, their keys, and why the needed keys weren't loaded.
ghost use Rattle.std.specs.Prelude.{◌≡◌};
ghost use Rattle.remote_lookup.specs.declared.remote.RemoteFault.TheVariants as variants;

use sq_value::{Memory, SqText, Table};
use std::alloc::{AllocError, AllocFailed};
use table_csv::TableFault;

/// A remote: a table of which there are look-ups alone, by a column of integers, and one file for each key.
#[derive(Debug, Drop)]
pub struct Remote {
    /// The number of its table, which has its columns.
    pub table: u32,
    /// The INTEGER column that its rows are looked up by.
    pub column: u32,
    /// What the names of its files begin with.
    pub prefix: SqText,
}

/// A key of a remote; remotes count from 0. Keys are ordered by remote, and then as integers.
#[derive(Clone, Copy, Debug, PartialEq, Eq, PartialOrd, Ord)]
pub struct RemoteKey {
    /// The number of the remote, from 0.
    pub remote: u32,
    /// The key.
    pub key: i64,
}

/// Why a key's file is refused. Records count from 1 below the heading.
#[derive(Clone, Copy, Debug, PartialEq, Eq)]
pub enum KeyFault {
    /// It isn't a table; never want of memory.
    Table(TableFault),
    /// Its columns aren't those of the remote's table: their names byte for byte, and their types.
    Columns,
    /// The record, the first such, has another key in the look-up column, or NULL.
    OtherKey { rec: u32 },
}

/// What was loaded: for each remote, in order, its table with the rows of the needed keys, by key and then by
/// record; and the needed keys, by remote and then rising.
#[derive(Debug, Drop)]
pub struct Loaded {
    /// The table of each remote, with the rows of the needed keys, by key and then by record.
    pub tables: Vec<Table>,
    /// The needed keys, by remote and then rising.
    pub keys: Vec<RemoteKey>,
}

/// Why the needed keys weren't loaded.
#[derive(Clone, Copy, Debug, PartialEq, Eq)]
pub enum RemoteFault {
    /// Reading a key's file failed, and the folder's count of faults rose.
    Read { at: RemoteKey },
    /// A key's file has more than 67,108,864 bytes.
    TooLong { at: RemoteKey },
    /// A key's file has a fault.
    BadFile { at: RemoteKey, why: KeyFault },
    /// At the start of a round more than 10,000 keys of the remote are needed.
    TooManyKeys { remote: u32 },
    /// With a key's file the remote has more than 4,000,000 rows.
    TooManyRows { remote: u32 },
    /// There is no memory.
    Memory,
}

impl From<Memory> for RemoteFault {
    ghost from_gives = { λ _ given. given ≡ variants.Memory };

    fn from(_error: Memory) -> RemoteFault {
        RemoteFault::Memory
    }
}

impl From<AllocError> for RemoteFault {
    ghost from_gives = { λ _ given. given ≡ variants.Memory };

    fn from(_error: AllocError) -> RemoteFault {
        RemoteFault::Memory
    }
}

impl<T: Drop> From<AllocFailed<T>> for RemoteFault {
    ghost from_gives = { λ _ given. given ≡ variants.Memory };

    fn from(_error: AllocFailed<T>) -> RemoteFault {
        RemoteFault::Memory
    }
}
