//! What stands at the front of a text, by its first bytes, and how long it is.

ghost use Rattle.std.specs.Prelude.{◌≡◌, ◌+◌, ◌-◌, ◌<◌, ◌≤◌, length, slice_index, IfSome, true, false};
ghost use Rattle.sq_token.specs.Form as spec;
ghost use Rattle.std.specs.Prelude.{◌≢◌, ◌⊎◌, ◌==◌, ◌&&◌};

/// What a text begins with: blanks or a comment, a token's form, or nothing that is a token.
#[derive(Clone, Copy)]
pub enum Form {
    Blank,
    Word,
    Delimited,
    Number,
    Text,
    Symbol,
    Bad,
}

#[derive(Clone, Copy)]
enum Class {
    Blank,
    Line,
    Word,
    Digit,
}

/// A form, and a length in bytes.
pub type Front = (Form, usize);

/// What stands around a delimited name.
pub const QUOTE: u8 = b'"';
/// What stands around a text.
pub const APOSTROPHE: u8 = b'\'';

fn is_in(class: Class, byte: u8) -> bool
    ensures { result ≡ spec.is_in class byte }
{
    match class {
        Class::Blank => byte == b' ' || byte == b'\t' || byte == b'\n' || byte == b'\r',
        Class::Line => byte != b'\n',
        Class::Word => byte.is_ascii_alphanumeric() || byte == b'_',
        Class::Digit => byte.is_ascii_digit(),
    }
}

fn byte(text: &[u8], at: usize) -> u8
    ensures value { result ≡ slice_index text.now at }
{
    if at < text.len() { text[at] } else { 0 }
}

// How many bytes of the class stand at the front.
fn run(class: Class, text: &[u8]) -> usize
    ensures value { result ≡ spec.run class text.now }
    ensures within { result ≤ length text.now }
    ensures last { 1 ≤ result → spec.is_in class (slice_index text.now (result - 1)) ≡ true }
    ensures stops { result < length text.now → spec.is_in class (slice_index text.now result) ≡ false }
{
    let mut end = 0;
    while end < text.len() && is_in(class, text[end]) {
        end += 1;
    }
    end
}

// The length up to and with the first quote that isn't doubled.
fn closing(quote: u8, text: &[u8]) -> Option<usize>
    ensures value { result ≡ spec.closing quote false 0 text.now }
    ensures within { IfSome result (λ n. (1 ≤ n) × (n ≤ length text.now) × (slice_index text.now (n - 1) ≡ quote)) }
{
    let mut is_second = false;
    let mut end = 0;
    while end < text.len() {
        let is_quote = text[end] == quote;
        if is_second && !is_quote {
            return Some(end);
        }
        is_second = !is_second && is_quote;
        end += 1;
    }
    if is_second { Some(end) } else { None }
}

fn quoted(form: Form, least: usize, text: &[u8]) -> Front
    requires { 0 < length text.now }
    ensures value { result ≡ spec.quoted form least text.now }
    ensures within { (1 ≤ result.1) × (result.1 ≤ length text.now) }
    ensures ends { result.0 ≢ Form.Bad → (least + 1 ≤ result.1)
        × (slice_index text.now (result.1 - 1) ≡ slice_index text.now 0) }
{
    match closing(text[0], &text[1..]) {
        Some(end) if end >= least => (form, end + 1),
        _ => (Form::Bad, 1),
    }
}

// The symbol that begins with these two bytes; the second is 0 where there is none.
fn symbol(byte: u8, next: u8) -> Front
    ensures value { result ≡ spec.symbol byte next }
    ensures short { (1 ≤ result.1) × (result.1 ≤ 2) × (result.1 ≡ 2 → next ≡ 61 ⊎ next ≡ 62) }
    ensures form { (result.0 ≡ Form.Symbol) ⊎ (result.0 ≡ Form.Bad) }
    ensures ascii { result.0 ≡ Form.Symbol → byte < 128 }
{
    match byte {
        b'<' if next == b'=' || next == b'>' => (Form::Symbol, 2),
        b'>' | b'!' if next == b'=' => (Form::Symbol, 2),
        b'<' | b'>' | b',' | b';' | b'.' | b'*' | b'(' | b')' | b'+' | b'-' | b'=' => {
            (Form::Symbol, 1)
        }
        _ => (Form::Bad, 1),
    }
}

fn begins_comment(text: &[u8]) -> bool
    ensures { result ≡ (slice_index text.now 0 == 45 && slice_index text.now 1 == 45) }
{
    byte(text, 0) == b'-' && byte(text, 1) == b'-'
}

#[tactic(auto, unfolding(crate::specs::Form::front))]
fn front_of(text: &[u8]) -> Front
    requires { 0 < length text.now }
    ensures value { result ≡ spec.front text.now }
    ensures within { (1 ≤ result.1) × (result.1 ≤ length text.now) }
    ensures seamed { spec.IsSeamed result.0 text.now result.1 }
{
    let first = text[0];
    if is_in(Class::Blank, first) {
        (Form::Blank, run(Class::Blank, text))
    } else if begins_comment(text) {
        (Form::Blank, run(Class::Line, text))
    } else if is_in(Class::Digit, first) {
        (Form::Number, run(Class::Digit, text))
    } else if is_in(Class::Word, first) {
        (Form::Word, run(Class::Word, text))
    } else if first == QUOTE {
        quoted(Form::Delimited, 2, text)
    } else if first == APOSTROPHE {
        quoted(Form::Text, 1, text)
    } else {
        symbol(first, byte(text, 1))
    }
}

/// What begins a text that isn't empty, and its length.
pub fn front(text: &str) -> Front
    requires { 0 < length text.now }
    ensures value { result ≡ spec.front text.now }
    ensures within { (1 ≤ result.1) × (result.1 ≤ length text.now) }
    ensures cut { spec.IsCut result.0 text.now result.1 }
{
    front_of(text.as_bytes())
}
