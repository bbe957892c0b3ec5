//! Why reading stopped.
use sq_value::Memory;
use std::alloc::AllocError;

/// Why reading stopped at the token where the cursor stands.
#[derive(Clone, Copy)]
pub enum Stop {
    Memory,
    Syntax,
    NumberTooLarge,
    TooDeep,
    TooManyStatements,
}

impl From<Memory> for Stop {
    ghost use Rattle.std.specs.Prelude.{◌≡◌};
    ghost use Rattle.sq_parse.specs.declared.stop.Stop.TheVariants as stop;

    ghost from_gives = { λ _ s. s ≡ stop.Memory };

    fn from(_: Memory) -> Stop {
        Stop::Memory
    }
}

impl From<AllocError> for Stop {
    ghost use Rattle.std.specs.Prelude.{◌≡◌};
    ghost use Rattle.sq_parse.specs.declared.stop.Stop.TheVariants as stop;

    ghost from_gives = { λ _ s. s ≡ stop.Memory };

    fn from(_: AllocError) -> Stop {
        Stop::Memory
    }
}
