//! Texts and their tokens, worked out by hand.

/// Each token from its first byte up to its end, and what it is.
pub const TEXTS: &str = "\
a<=1 | 0-1 Word, 1-3 Symbol, 3-4 Number, \n\
_a9 <> != | 0-3 Word, 4-6 Symbol, 7-9 Symbol, \n\
\"a\"\"b\" | 0-6 Name(SqText { text: \"a\\\"b\" }), \n\
'it''s' | 0-7 Text(SqText { text: \"it's\" }), \n\
'''' | 0-4 Text(SqText { text: \"'\" }), \n\
'' | 0-2 Text(SqText { text: \"\" }), \n\
'é'é | 0-4 Text(SqText { text: \"é\" }), 4-5 Bad, \n\
a -- | 0-1 Word, \n\
- - | 0-1 Symbol, 2-3 Symbol, \n\
x = 'a'' | 0-1 Word, 2-3 Symbol, 4-5 Bad, \n\
a ! b | 0-1 Word, 2-3 Bad, \n\
\"\"x | 0-1 Bad, \n\
\" | 0-1 Bad, \n\
";
