//! Conditions as text, as a script would have them.

use crate::labels::Scope;
use sq_expr::{Arg, Cond, Side, Term};
use sq_value::{Cmp, Truth, Value};
use std::alloc::{AllocError, Global};

// The sign of a comparison.
fn sign_of(cmp: Cmp) -> &'static str {
    match cmp {
        Cmp::Eq => " = ",
        Cmp::Ne => " <> ",
        Cmp::Lt => " < ",
        Cmp::Le => " <= ",
        Cmp::Gt => " > ",
        Cmp::Ge => " >= ",
    }
}

// The word of a truth.
fn word_of(truth: Truth) -> &'static str {
    match truth {
        Truth::False => " IS FALSE",
        Truth::Unknown => " IS UNKNOWN",
        Truth::True => " IS TRUE",
    }
}

// What comes before the item at a place: one word before the first, and another before each other one.
fn before<'w>(place: usize, first: &'w str, other: &'w str) -> &'w str {
    if place == 0 { first } else { other }
}

// What comes before a term of a sum: its sign, where it is the first one, and else the sign between two terms.
fn sign_before(place: usize, is_negative: bool) -> &'static str {
    match (place == 0, is_negative) {
        (true, false) => "",
        (true, true) => "-",
        (false, false) => " + ",
        (false, true) => " - ",
    }
}

// Whether a condition is in parentheses where IS comes after it.
fn is_enclosed(cond: &Cond) -> bool {
    matches!(cond, Cond::Not(_) | Cond::Is(_, _))
}

// Adds a text in its quotes, with each quote of it twice.
fn push_quoted(text: &mut String, value: &str) -> Result<(), AllocError> {
    text.push_str("'")?;
    for sign in value.chars() {
        text.push(sign)?;
        if sign == '\'' {
            text.push(sign)?;
        }
    }
    text.push_str("'")
}

// Adds a literal.
fn push_value(alloc: Global, text: &mut String, value: &Value) -> Result<(), AllocError> {
    match value {
        Value::Null => text.push_str("NULL"),
        Value::Int(number) => text.push_str(format!(in alloc; "{number}")?.as_str()),
        Value::Text(it) => push_quoted(text, it.as_str()),
        Value::Decimal(_) => text.push_str("?"),
    }
}

impl<'t> Scope<'t> {
    // Adds a term of a sum, without its sign.
    fn push_term(&self, alloc: Global, text: &mut String, term: Term) -> Result<(), AllocError> {
        let factor = term.factor.unsigned_abs();
        let Some(column) = term.column else {
            return text.push_str(format!(in alloc; "{factor}")?.as_str());
        };
        if factor != 1 {
            text.push_str(format!(in alloc; "{factor} * ")?.as_str())?;
        }
        self.push_column(text, column)
    }

    // Adds the terms of a sum.
    fn push_sum(&self, alloc: Global, text: &mut String, terms: &[Term]) -> Result<(), AllocError> {
        for (place, term) in terms.iter().enumerate() {
            text.push_str(sign_before(place, term.factor < 0))?;
            self.push_term(alloc, text, *term)?;
        }
        Ok(())
    }

    // Adds a side of a comparison.
    fn push_side(&self, alloc: Global, text: &mut String, side: &Side) -> Result<(), AllocError> {
        match side {
            Side::Null => text.push_str("NULL"),
            Side::Text(it) => push_quoted(text, it.as_str()),
            Side::Column(column) => self.push_column(text, *column),
            Side::Sum(terms) => self.push_sum(alloc, text, terms.as_slice()),
        }
    }

    // Adds an argument of a predicate.
    fn push_arg(&self, alloc: Global, text: &mut String, arg: &Arg) -> Result<(), AllocError> {
        match arg {
            Arg::Literal(value) => push_value(alloc, text, value),
            Arg::Column(column) => self.push_column(text, *column),
        }
    }

    // Adds a comparison.
    fn push_comparison(
        &self,
        alloc: Global,
        text: &mut String,
        left: &Side,
        cmp: Cmp,
        right: &Side,
    ) -> Result<(), AllocError> {
        self.push_side(alloc, text, left)?;
        text.push_str(sign_of(cmp))?;
        self.push_side(alloc, text, right)
    }

    // Adds a call of a predicate.
    fn push_call(
        &self,
        alloc: Global,
        text: &mut String,
        number: u8,
        first: &Arg,
        second: &Arg,
    ) -> Result<(), AllocError> {
        text.push_str(self.predicate(number))?;
        text.push_str("(")?;
        self.push_arg(alloc, text, first)?;
        text.push_str(", ")?;
        self.push_arg(alloc, text, second)?;
        text.push_str(")")
    }

    // Adds parts with a word between each two, in parentheses.
    #[cycle(conditions)]
    fn push_parts(
        &self,
        alloc: Global,
        text: &mut String,
        parts: &[Cond],
        word: &str,
    ) -> Result<(), AllocError> {
        for (place, part) in parts.iter().enumerate() {
            text.push_str(before(place, "(", word))?;
            self.push_cond(alloc, text, part)?;
        }
        text.push_str(")")
    }

    /// Adds a condition.
    #[cycle(conditions)]
    pub(crate) fn push_cond(
        &self,
        alloc: Global,
        text: &mut String,
        cond: &Cond,
    ) -> Result<(), AllocError> {
        match cond {
            Cond::Compare(left, cmp, right) => self.push_comparison(alloc, text, left, *cmp, right),
            Cond::IsNull(side) => {
                self.push_side(alloc, text, side)?;
                text.push_str(" IS NULL")
            }
            Cond::Call(number, first, second) => {
                self.push_call(alloc, text, *number, first, second)
            }
            Cond::Not(inner) => {
                text.push_str("NOT ")?;
                self.push_cond(alloc, text, inner.get())
            }
            Cond::All(parts) => self.push_parts(alloc, text, parts.as_slice(), " AND "),
            Cond::Any(parts) => self.push_parts(alloc, text, parts.as_slice(), " OR "),
            Cond::Is(inner, truth) => {
                let inner = inner.get();
                let enclosed = is_enclosed(inner);
                text.push_str(if enclosed { "(" } else { "" })?;
                self.push_cond(alloc, text, inner)?;
                text.push_str(if enclosed { ")" } else { "" })?;
                text.push_str(word_of(*truth))
            }
        }
    }
}
