//! Why a statement can't be bound, and which of two faults comes first.

ghost use Rattle.std.specs.Prelude.{◌≡◌};
ghost use Rattle.sq_bind.specs.Fault as spec;
ghost use Rattle.sq_bind.specs.declared.fault.BindFault.TheVariants as variants;

use sq_value::Memory;

/// Why a statement can't be bound. `at` is a byte of the script.
#[derive(Clone, Copy, Debug, PartialEq, Eq)]
pub enum BindFault {
    /// No table has this name.
    UnknownTable { at: u32 },
    /// An alias to the left has the same name.
    RepeatedAlias { at: u32 },
    /// No alias that is seen here has this name.
    UnknownAlias { at: u32 },
    /// No column that is seen here has this name, or the table of its alias lacks it.
    UnknownColumn { at: u32 },
    /// Two or more columns that are seen here have this name.
    AmbiguousColumn { at: u32 },
    /// A text where a number is wanted, numbers beside texts, or an argument of another type.
    TypeMismatch { at: u32 },
    /// No predicate has this name.
    UnknownFunction { at: u32 },
    /// A call without exactly two arguments.
    WrongArguments { at: u32 },
    /// The 13th table of FROM.
    TooManyAliases { at: u32 },
    /// The 49th conjunct.
    TooManyConjuncts { at: u32 },
    /// The 9th term of a side.
    TooManyTerms { at: u32 },
    /// A column of a grouped statement that is none of GROUP BY.
    NotGrouped { at: u32 },
    /// A column of ORDER BY that a DISTINCT statement doesn't select.
    NotSelected { at: u32 },
    /// No scan and no look-up reaches this alias, which counts from 0.
    Unreachable { alias: u8 },
    /// There is no memory for the block.
    Memory,
}

impl From<Memory> for BindFault {
    ghost from_gives = { λ _ given. given ≡ variants.Memory };

    fn from(_error: Memory) -> BindFault {
        BindFault::Memory
    }
}

impl BindFault {
    /// Where the fault is: the place of its first token in the text, in bytes from 0, or of an alias that isn't reached
    /// its number; 0 for want of memory.
    pub fn place(self) -> u32
        ensures { result ≡ spec.place_of self }
    {
        match self {
            BindFault::UnknownTable { at }
            | BindFault::RepeatedAlias { at }
            | BindFault::UnknownAlias { at }
            | BindFault::UnknownColumn { at }
            | BindFault::AmbiguousColumn { at }
            | BindFault::TypeMismatch { at }
            | BindFault::UnknownFunction { at }
            | BindFault::WrongArguments { at }
            | BindFault::TooManyAliases { at }
            | BindFault::TooManyConjuncts { at }
            | BindFault::TooManyTerms { at }
            | BindFault::NotGrouped { at }
            | BindFault::NotSelected { at } => at,
            BindFault::Unreachable { alias } => u32::from(alias),
            BindFault::Memory => 0,
        }
    }
}

fn number_of(fault: BindFault) -> u8
    ensures { result ≡ spec.fault_number fault }
{
    match fault {
        BindFault::UnknownTable { at: _ } => 1,
        BindFault::RepeatedAlias { at: _ } => 2,
        BindFault::UnknownAlias { at: _ } => 3,
        BindFault::UnknownColumn { at: _ } => 4,
        BindFault::AmbiguousColumn { at: _ } => 5,
        BindFault::TypeMismatch { at: _ } => 6,
        BindFault::UnknownFunction { at: _ } => 7,
        BindFault::WrongArguments { at: _ } => 8,
        BindFault::TooManyAliases { at: _ } => 9,
        BindFault::TooManyConjuncts { at: _ } => 10,
        BindFault::TooManyTerms { at: _ } => 11,
        BindFault::NotGrouped { at: _ } => 14,
        BindFault::NotSelected { at: _ } => 15,
        BindFault::Unreachable { alias: _ } => 12,
        BindFault::Memory => 13,
    }
}

fn is_before(fault: BindFault, other: BindFault) -> bool
    ensures { result ≡ spec.is_before fault other }
{
    fault.place() < other.place()
        || (fault.place() == other.place() && number_of(fault) < number_of(other))
}

/// The one of two faults that comes first in the script, and at one place the one with the lower number.
pub fn sooner(x: Option<BindFault>, y: Option<BindFault>) -> Option<BindFault>
    ensures { result ≡ spec.sooner x y }
{
    match (x, y) {
        (None, y) => y,
        (x, None) => x,
        (Some(f), Some(g)) => Some(if is_before(g, f) { g } else { f }),
    }
}
