//! A registered predicate.
ghost use Rattle.std.specs.Prelude.{◌≡◌};
ghost use Rattle.std.specs.Borrow.{Bor};
ghost use Rattle.sq_value.specs.declared.value.Value.{Value};
ghost use Rattle.sq_value.specs.declared.value.Truth.{Truth};
ghost use Rattle.sq_value.specs.Relation.{HasKind};
ghost use Rattle.fn_registry.specs.Meaning.{gives_of};

use crate::signature::Signature;
use sq_value::{Kinds, SqText, Truth, Value};

/// What a predicate is called by.
pub type Stored = Box<dyn Fn(&Value, &Value) -> Truth + Send + Sync>;

/// A predicate with its name, its number, the types of its arguments, and what it is called by,
/// which answers the meaning of its number among those of M.
#[derive(Drop)]
pub struct Registered<const M: u32> {
    /// Its name, its number and the types of its arguments.
    pub signature: Signature,
    /// What it is called by.
    pub f: Stored,
    ghost callable: { (x : Bor Value) (y : Bor Value) → HasKind signature.kinds.first x.now
        → HasKind signature.kinds.second y.now → Stored.pre f x y },
    ghost answers: { (x : Bor Value) (y : Bor Value) (t : Truth) → HasKind signature.kinds.first x.now
        → HasKind signature.kinds.second y.now → Stored.post f x y t
        → t ≡ gives_of M signature.number x.now y.now },
}

impl<const M: u32> Registered<M> {
    /// A predicate. The callable may be called on every pair of values that are null or of its
    /// kinds, and answers the meaning of the number there.
    pub fn new(name: SqText, number: u8, kinds: Kinds, f: Stored) -> Registered<M>
        requires callable { (x : Bor Value) (y : Bor Value) → HasKind kinds.first x.now → HasKind kinds.second y.now
            → Stored.pre f x y }
        requires answers { (x : Bor Value) (y : Bor Value) (t : Truth) → HasKind kinds.first x.now
            → HasKind kinds.second y.now → Stored.post f x y t → t ≡ gives_of M number x.now y.now }
        ensures { result.signature ≡ record { name = name; number = number; kinds = kinds } }
    {
        let signature = Signature {
            name,
            number,
            kinds,
        };
        Registered { signature, f }
    }

    /// The truth that it gives of two values, which are null or of its kinds.
    pub fn call(&self, x: &Value, y: &Value) -> Truth
        requires first { HasKind self.now.signature.kinds.first x.now }
        requires second { HasKind self.now.signature.kinds.second y.now }
        ensures { result ≡ gives_of M self.now.signature.number x.now y.now }
    {
        (self.f)(x, y)
    }
}
