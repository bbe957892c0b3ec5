//! The shipped predicates, worked out by hand, and predicates that are added, found and called.
use fn_registry::{
    AddFault, Functions, Registered, SHIPPED, ShippedFunctions, Stored, divides, near10, same_sign,
};
use sq_value::{ColType, Kinds, Predicates, SqText, Truth, Value};
use std::alloc::Global;
use std::test::Fail;

// Two integers, and the truth of `divides`, `same_sign` and `near10` of them.
const CASES: &str = "\
1 3 TTT
2 4 TTT
2 3 FTT
4 2 FTT
0 0 FTT
0 5 FFT
5 0 TFT
-3 6 TFT
-3 -7 FTT
10 20 TTT
10 21 FTF
-5 5 TFT
-5 6 FFF
-1 -9223372036854775808 TTF
-9223372036854775808 9223372036854775807 FFF";

fn letter(truth: Truth) -> char {
    match truth {
        Truth::True => 'T',
        Truth::False => 'F',
        Truth::Unknown => 'U',
    }
}

/// The truths of the three predicates of two values.
fn truths(alloc: Global, x: &Value, y: &Value) -> Result<String, Fail> {
    let (divided, signed, near) = (divides(x, y), same_sign(x, y), near10(x, y));
    Ok(format!(in alloc; "{}{}{}", letter(divided), letter(signed), letter(near))?)
}

#[test]
fn answers_of_integers(rt: HostRuntime) -> Result<(), Fail> {
    for case in CASES.lines() {
        let mut words = case.split(' ');
        let x = Value::Int(words.next().unwrap_or("").parse().unwrap_or(0));
        let y = Value::Int(words.next().unwrap_or("").parse().unwrap_or(0));
        let wanted = words.next().unwrap_or("");
        assert_eq!(rt; truths(rt.alloc(), &x, &y)?.as_str(), wanted, "{case}");
        for (x, y) in [
            (&Value::Null, &y),
            (&x, &Value::Null),
            (&Value::Null, &Value::Null),
        ] {
            assert_eq!(rt; truths(rt.alloc(), x, y)?.as_str(), "UUU", "{case}");
        }
    }
    Ok(())
}

const INTEGERS: Kinds = Kinds {
    first: ColType::Integer,
    second: ColType::Integer,
};

// What the predicate of a name gives of two integers, through the trait alone.
fn given<F: Predicates>(functions: &F, name: &str, x: i64, y: i64) -> Option<Truth> {
    let number = functions.find(name)?;
    if functions.kinds(number) == INTEGERS {
        Some(functions.call(number, &Value::Int(x), &Value::Int(y)))
    } else {
        None
    }
}

// The second is added before the first, so that a place isn't a number.
#[test]
#[tactic(auto, unfolding(fn_registry::specs::Meaning::gives_of))]
fn found_and_called(rt: HostRuntime) -> Result<(), Fail> {
    let alloc = rt.alloc();
    let mut functions: Functions<SHIPPED> = Functions::new(alloc);
    let near: Stored = Box::new(alloc, |x: &Value, y: &Value| near10(x, y))?;
    let name = SqText::of(alloc, "near10")?;
    functions.add(Registered::new(name, 2, INTEGERS, near))?;
    let divisor: Stored = Box::new(alloc, |x: &Value, y: &Value| divides(x, y))?;
    let name = SqText::of(alloc, "divides")?;
    functions.add(Registered::new(name, 0, INTEGERS, divisor))?;
    let functions = ShippedFunctions(functions);
    assert_eq!(rt; given(&functions, "divides", 3, 6), Some(Truth::True));
    assert_eq!(rt; given(&functions, "DIVIDES", 6, 3), Some(Truth::False));
    assert_eq!(rt; given(&functions, "Near10", 3, 13), Some(Truth::True));
    assert_eq!(rt;
        given(&functions, "near10", i64::MIN, i64::MAX),
        Some(Truth::False)
    );
    assert_eq!(rt; given(&functions, "near1", 3, 3), None);
    assert_eq!(rt; given(&functions, "same_sign", 3, 3), None);
    Ok(())
}

// A name that is there, but for its case, then a number that is there, and a 33rd predicate.
#[test]
#[tactic(auto, unfolding(fn_registry::specs::Meaning::gives_of))]
fn refused(rt: HostRuntime) -> Result<(), Fail> {
    let alloc = rt.alloc();
    let mut functions: Functions<1> = Functions::new(alloc);
    for number in 0..34u8 {
        let text = format!(in alloc; "f{number}")?;
        let answer: Stored = Box::new(alloc, |_x: &Value, _y: &Value| Truth::Unknown)?;
        let name = SqText::of(alloc, text.as_str())?;
        let added = functions.add(Registered::new(name, number, INTEGERS, answer));
        let due = if number < 32 {
            Ok(())
        } else {
            Err(AddFault::Full)
        };
        assert_eq!(rt; added, due);
    }
    for (text, number) in [("F0", 40), ("g", 31), ("F31", 0)] {
        let answer: Stored = Box::new(alloc, |_x: &Value, _y: &Value| Truth::Unknown)?;
        let name = SqText::of(alloc, text)?;
        let added = functions.add(Registered::new(name, number, INTEGERS, answer));
        assert_eq!(rt; added, Err(AddFault::RepeatedName));
    }
    Ok(())
}
