//! What a token is to the grammar.

ghost use Rattle.std.specs.Prelude.{◌≡◌, map};
ghost use Rattle.sq_token.specs.Mark as spec;

use crate::form::Form;

/// What a token is to the grammar: a keyword, a name, a literal or a symbol.
#[derive(Clone, Copy, PartialEq, Eq)]
pub enum Mark {
    All,
    And,
    As,
    Asc,
    Between,
    By,
    Cross,
    Desc,
    Distinct,
    False,
    From,
    Group,
    In,
    Inner,
    Is,
    Join,
    Limit,
    Not,
    Null,
    On,
    Or,
    Order,
    Select,
    True,
    Unknown,
    Where,
    /// A reserved word that no rule uses.
    Reserved,
    // Words that aren't reserved, but stand for themselves in an ORDER BY or as an aggregate.
    Count,
    First,
    Last,
    Max,
    Min,
    Nulls,
    Sum,
    /// A word that isn't reserved, or a delimited name.
    Name,
    Number,
    Text,
    Comma,
    Semicolon,
    Dot,
    Star,
    Open,
    Close,
    Plus,
    Minus,
    Equal,
    NotEqual,
    Less,
    LessOrEqual,
    Greater,
    GreaterOrEqual,
    /// No token at all.
    Bad,
    /// The end of the script.
    End,
}

const WORDS: [(&[u8], Mark); 45] = [
    (b"all", Mark::All),
    (b"and", Mark::And),
    (b"as", Mark::As),
    (b"asc", Mark::Asc),
    (b"between", Mark::Between),
    (b"by", Mark::By),
    (b"case", Mark::Reserved),
    (b"cast", Mark::Reserved),
    (b"count", Mark::Count),
    (b"cross", Mark::Cross),
    (b"desc", Mark::Desc),
    (b"distinct", Mark::Distinct),
    (b"exists", Mark::Reserved),
    (b"false", Mark::False),
    (b"first", Mark::First),
    (b"from", Mark::From),
    (b"full", Mark::Reserved),
    (b"group", Mark::Group),
    (b"having", Mark::Reserved),
    (b"in", Mark::In),
    (b"inner", Mark::Inner),
    (b"is", Mark::Is),
    (b"join", Mark::Join),
    (b"last", Mark::Last),
    (b"left", Mark::Reserved),
    (b"like", Mark::Reserved),
    (b"limit", Mark::Limit),
    (b"max", Mark::Max),
    (b"min", Mark::Min),
    (b"natural", Mark::Reserved),
    (b"not", Mark::Not),
    (b"null", Mark::Null),
    (b"nulls", Mark::Nulls),
    (b"on", Mark::On),
    (b"or", Mark::Or),
    (b"order", Mark::Order),
    (b"outer", Mark::Reserved),
    (b"right", Mark::Reserved),
    (b"select", Mark::Select),
    (b"sum", Mark::Sum),
    (b"true", Mark::True),
    (b"union", Mark::Reserved),
    (b"unknown", Mark::Unknown),
    (b"using", Mark::Reserved),
    (b"where", Mark::Where),
];

/// Whether two words are equal but for the case of ASCII letters.
pub fn same_word(x: &[u8], y: &[u8]) -> bool
    ensures { result ≡ spec.same_word x.now y.now }
{
    x.eq_ignore_ascii_case(y)
}

fn look_up(mut table: &[(&[u8], Mark)], word: &[u8]) -> Mark
    ensures { result ≡ spec.look_up (map (λ k. (k.0.now, k.1)) table.entry.now) word.now }
{
    while let [entry, rest @ ..] = table {
        if same_word(entry.0, word) {
            return entry.1;
        }
        table = rest;
    }
    Mark::Name
}

#[tactic(auto, unfolding(crate::specs::Mark::word_mark))]
fn word_mark(word: &[u8]) -> Mark
    ensures { result ≡ spec.word_mark word.now }
{
    look_up(&WORDS, word)
}

fn symbol_mark(first: u8, second: u8) -> Mark
    ensures { result ≡ spec.symbol_mark first second }
{
    match first {
        b',' => Mark::Comma,
        b';' => Mark::Semicolon,
        b'.' => Mark::Dot,
        b'*' => Mark::Star,
        b'(' => Mark::Open,
        b')' => Mark::Close,
        b'+' => Mark::Plus,
        b'-' => Mark::Minus,
        b'=' => Mark::Equal,
        b'!' => Mark::NotEqual,
        b'<' if second == b'=' => Mark::LessOrEqual,
        b'<' if second == b'>' => Mark::NotEqual,
        b'<' => Mark::Less,
        b'>' if second == b'=' => Mark::GreaterOrEqual,
        _ => Mark::Greater,
    }
}

fn byte(text: &[u8], at: usize) -> u8
    ensures { result ≡ spec.byte text.now at }
{
    if at < text.len() { text[at] } else { 0 }
}

/// What a token of a form is, by its bytes.
pub fn mark_of(form: Form, bytes: &[u8]) -> Mark
    ensures { result ≡ spec.mark_of form bytes.now }
{
    match form {
        Form::Word => word_mark(bytes),
        Form::Delimited => Mark::Name,
        Form::Number => Mark::Number,
        Form::Text => Mark::Text,
        Form::Symbol => symbol_mark(byte(bytes, 0), byte(bytes, 1)),
        _ => Mark::Bad,
    }
}

/// Whether two marks are the same.
#[tactic(auto, unfolding(crate::specs::Mark::same))]
pub fn same(x: Mark, y: Mark) -> bool
    ensures { result ≡ spec.same x y }
{
    x == y
}

/// Whether a token is a sign.
pub fn is_sign(mark: Mark) -> bool
    ensures { result ≡ spec.is_sign mark }
{
    same(mark, Mark::Plus) || same(mark, Mark::Minus)
}

/// Whether a token is a comparison.
pub fn is_comparison(mark: Mark) -> bool
    ensures { result ≡ spec.is_comparison mark }
{
    same(mark, Mark::Equal)
        || same(mark, Mark::NotEqual)
        || same(mark, Mark::Less)
        || same(mark, Mark::LessOrEqual)
        || same(mark, Mark::Greater)
        || same(mark, Mark::GreaterOrEqual)
}

/// Whether a token is a name.
pub fn is_name(mark: Mark) -> bool
    ensures { result ≡ spec.is_name mark }
{
    same(mark, Mark::Name)
        || same(mark, Mark::Count)
        || same(mark, Mark::First)
        || same(mark, Mark::Last)
        || same(mark, Mark::Max)
        || same(mark, Mark::Min)
        || same(mark, Mark::Nulls)
        || same(mark, Mark::Sum)
}

/// Whether a token is the word of an aggregate of values: SUM, MIN or MAX.
pub fn is_reckoned(mark: Mark) -> bool
    ensures { result ≡ spec.is_reckoned mark }
{
    same(mark, Mark::Sum) || same(mark, Mark::Min) || same(mark, Mark::Max)
}

/// Whether a token is the word of an aggregate.
pub fn is_agg(mark: Mark) -> bool
    ensures { result ≡ spec.is_agg mark }
{
    same(mark, Mark::Count) || is_reckoned(mark)
}
