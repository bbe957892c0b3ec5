//! What the first words ask for.

/// What is to be shown.
#[derive(Clone, Copy, Debug, PartialEq, Eq)]
pub enum What {
    /// What the columns of tables are read as, and what they hold.
    Tables,
    /// An answer in aligned columns.
    Aligned,
    /// An answer as JSON.
    Json,
    /// Pictures of the eddy at work on the statements of a script.
    Pictures,
}

/// What is to be shown, the file that the pictures are written to as SVG, and the other words, which are eddyql's.
#[derive(Clone, Copy, Debug)]
pub struct Asked<'w> {
    /// What is to be shown.
    pub what: What,
    /// The file that the pictures are written to as SVG, where one is given.
    pub svg: Option<&'w str>,
    /// The other words, which are eddyql's.
    pub words: &'w [String],
}

/// What words ask for, the first of which is the program's own name; none where they aren't of the form.
pub fn read_words(words: &[String]) -> Option<Asked<'_>> {
    let [_, first, rest @ ..] = words else {
        return None;
    };
    match first.as_str() {
        "tables" => Some(plain(What::Tables, rest)),
        "show" => Some(answer(rest)),
        "explain" => Some(pictures(rest)),
        _ => None,
    }
}

// Nothing but what is to be shown, of these words.
fn plain(what: What, words: &[String]) -> Asked<'_> {
    Asked {
        what,
        svg: None,
        words,
    }
}

// An answer, as JSON where the first word asks for it.
fn answer(words: &[String]) -> Asked<'_> {
    match words {
        [form, rest @ ..] if form.as_str() == "--json" => plain(What::Json, rest),
        _ => plain(What::Aligned, words),
    }
}

// Pictures, and a file for them where the first word asks for it.
fn pictures(words: &[String]) -> Asked<'_> {
    match words {
        [option, file, rest @ ..] if option.as_str() == "--svg" => Asked {
            what: What::Pictures,
            svg: Some(file.as_str()),
            words: rest,
        },
        _ => plain(What::Pictures, words),
    }
}
