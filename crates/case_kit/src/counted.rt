//! Predicates that count their calls.

use sq_value::{ColType, Kinds, Predicates, Truth, Value};
use std::sync::atomic::{AtomicU64, Ordering};

/// A predicate of two integers, which has any name and is True of all, and counts its calls.
#[derive(Drop)]
pub struct Counted {
    calls: AtomicU64,
}

impl Counted {
    /// It wasn't called so far.
    pub fn new() -> Counted {
        Counted {
            calls: AtomicU64::new(0),
        }
    }

    /// How often it was called, by all threads.
    pub fn calls(&self) -> u64 {
        self.calls.load(Ordering::SeqCst)
    }
}

impl Predicates for Counted {
    ghost use Rattle.std.specs.Prelude.{Some};
    ghost use Rattle.sq_value.specs.declared.value.Truth.TheVariants as truth;
    ghost use Rattle.sq_value.specs.declared.value.ColType.TheVariants as kind;

    ghost gives = { λ number x y. truth.True };

    ghost kinds_of = { λ s number. Some (record { first = kind.Integer; second = kind.Integer }) };

    ghost number_of = { λ s name. Some 0 };

    fn find(&self, _name: &str) -> Option<u8> {
        Some(0)
    }

    fn kinds(&self, _number: u8) -> Kinds {
        Kinds {
            first: ColType::Integer,
            second: ColType::Integer,
        }
    }

    fn call(&self, _number: u8, _x: &Value, _y: &Value) -> Truth {
        self.calls.fetch_add(1, Ordering::SeqCst);
        Truth::True
    }
}
