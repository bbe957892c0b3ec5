//! Why a file gives no table.
ghost use Rattle.std.specs.Prelude.{◌≡◌};
ghost use Rattle.table_csv.specs.declared.fault.TableFault.TheVariants as variants;

use sq_value::Memory;
use std::alloc::{AllocError, AllocFailed};

/// Why a file gives no table. Records count from 0, which is the heading, and fields from 1.
#[derive(Clone, Copy, Debug, PartialEq, Eq)]
pub enum TableFault {
    /// There is no record.
    NoHeading,
    /// The record has more or fewer fields than the heading.
    Unequal { rec: u32 },
    /// The field isn't UTF-8.
    NotUtf8 { rec: u32, field: u32 },
    /// The field stands in a column marked `:int` and isn't an integer of 64 bits.
    BadInteger { rec: u32, field: u32 },
    /// The field of the heading names a column as an earlier one does.
    RepeatedColumn { field: u32 },
    /// The heading has more than 64 fields.
    TooManyColumns,
    /// There are more than 4,000,000 records below the heading.
    TooManyRows,
    /// There is no memory for the table.
    Memory,
    /// The field stands in a column marked `:dec0` to `:dec6` and isn't a decimal number of that
    /// scale, or its units have more than 64 bits.
    BadDecimal { rec: u32, field: u32 },
}

impl From<Memory> for TableFault {
    ghost from_gives = { λ _ given. given ≡ variants.Memory };

    fn from(_error: Memory) -> TableFault {
        TableFault::Memory
    }
}

impl From<AllocError> for TableFault {
    ghost from_gives = { λ _ given. given ≡ variants.Memory };

    fn from(_error: AllocError) -> TableFault {
        TableFault::Memory
    }
}

impl<T: Drop> From<AllocFailed<T>> for TableFault {
    ghost from_gives = { λ _ given. given ≡ variants.Memory };

    fn from(_error: AllocFailed<T>) -> TableFault {
        TableFault::Memory
    }
}
