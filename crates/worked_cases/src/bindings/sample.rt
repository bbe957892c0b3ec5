//! The tables and the predicates that statements are bound over.

ghost use Rattle.std.specs.Prelude.{◌≡◌, IsSome, IfSome};
ghost use Rattle.sq_value.specs.Name.{lower};
ghost use Rattle.worked_cases.specs.SamplePredicates.{sample_kinds, integers_at, others_at};

use case_kit::{CaseFault, catalogue_of_lines};
use catalogue::Catalogue;
use sq_value::{ColType, Kinds, Predicates, Truth, Value, same_name};
use std::alloc::Global;

/// The tables, by number from 0: a name, and a heading with the types of its columns.
const TABLES: &str = "\
cust id:int,name:text
ord oid:int,cid:int,amt:int
n x:int
people id:int,name:text,city:text
orders id:int,person:int,total:int
p sku:int,cost:dec2
r rate:dec3
t Id:int,a b:text,select:int,whole:dec0
one x:int
part id:int,kind:int
sale part:int,qty:int
stock part:int,held:int";

/// The catalogue of these tables, which have no rows.
pub fn catalogue(alloc: Global) -> Result<Catalogue, CaseFault> {
    catalogue_of_lines(alloc, TABLES)
}

// The number of a predicate of integers.
#[tactic(auto, unfolding(crate::specs::SamplePredicates::integers_at))]
fn of_integers(name: &str) -> Option<u8>
    ensures number { result ≡ integers_at (lower name.now) }
    ensures known { IfSome result (λ n. IsSome (sample_kinds n)) }
{
    if same_name(name, "divides") {
        Some(0)
    } else if same_name(name, "same_sign") {
        Some(1)
    } else if same_name(name, "near10") {
        Some(2)
    } else {
        None
    }
}

// The number of another predicate.
#[tactic(auto, unfolding(crate::specs::SamplePredicates::others_at))]
fn of_others(name: &str) -> Option<u8>
    ensures number { result ≡ others_at (lower name.now) }
    ensures known { IfSome result (λ n. IsSome (sample_kinds n)) }
{
    if same_name(name, "begins") {
        Some(3)
    } else if same_name(name, "costs") {
        Some(4)
    } else if same_name(name, "rates") {
        Some(7)
    } else {
        None
    }
}

/// Six predicates: `divides`, `same_sign` and `near10` of two integers, `begins` of two texts, `costs` of
/// a DECIMAL with two digits behind the point and an integer, and `rates`, the number 7, of a DECIMAL
/// with three digits and one with two. They give Unknown.
pub struct Sample;

impl Predicates for Sample {
    ghost use Rattle.sq_value.specs.declared.value.Truth.TheVariants as truth;
    ghost use Rattle.worked_cases.specs.SamplePredicates.{sample_kinds, sample_number};

    ghost gives = { λ number x y. truth.Unknown };

    ghost kinds_of = { λ s number. sample_kinds number };

    ghost number_of = { λ s name. sample_number name };

    fn find(&self, name: &str) -> Option<u8> {
        match of_integers(name) {
            Some(number) => Some(number),
            None => of_others(name),
        }
    }

    fn kinds(&self, number: u8) -> Kinds {
        let (first, second) = match number {
            0..=2 => (ColType::Integer, ColType::Integer),
            3 => (ColType::Text, ColType::Text),
            4 => (ColType::Decimal(2), ColType::Integer),
            _ => (ColType::Decimal(3), ColType::Decimal(2)),
        };
        Kinds { first, second }
    }

    fn call(&self, _number: u8, _x: &Value, _y: &Value) -> Truth {
        Truth::Unknown
    }
}
