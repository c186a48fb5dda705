//! Kinds of words, as explanations tell them apart.

/// What kind of word it is. A reserved word or a symbol of which an explanation speaks is its own kind.
#[derive(Clone, Copy, PartialEq)]
pub enum Class {
    Name,
    Number,
    ByteLiteral,
    Text,
    /// BOOL, BYTE or INT.
    Primitive,
    /// TRUE or FALSE.
    Truth,
    /// MOSTPOS or MOSTNEG.
    Most,
    /// An operator with one operand alone.
    Monadic,
    /// `-`, which has one operand or two.
    Minus,
    /// `=`, an operator and the sign of a replicator.
    Equal,
    /// Any other operator with two operands.
    Dyadic,
    And,
    Or,
    Val,
    Chan,
    Of,
    Protocol,
    Proc,
    Is,
    Case,
    Else,
    If,
    Alt,
    Pri,
    Seq,
    Par,
    While,
    For,
    Assign,
    DoubleColon,
    Colon,
    Semicolon,
    Comma,
    OpenParen,
    CloseParen,
    OpenBracket,
    CloseBracket,
    Ampersand,
    Question,
    Exclamation,
    /// Any other reserved word.
    Reserved,
    /// A byte that begins no word, or that a literal may not hold.
    BadByte,
    /// A number or a byte literal that stands for nothing.
    BadLiteral,
    /// An escape that stands for no byte.
    BadEscape,
    /// A string without an end.
    OpenText,
    /// Behind the last word.
    End,
}

/// The reserved words, and the class of each.
#[rattlefmt::skip]
static RESERVED: [(&str, Class); 55] = [
    ("AND", Class::And), ("OR", Class::Or), ("INT", Class::Primitive), ("BYTE", Class::Primitive),
    ("BOOL", Class::Primitive), ("FALSE", Class::Truth), ("TRUE", Class::Truth),
    ("MOSTNEG", Class::Most), ("MOSTPOS", Class::Most), ("BITNOT", Class::Monadic),
    ("NOT", Class::Monadic), ("SIZE", Class::Monadic), ("AFTER", Class::Dyadic),
    ("BITAND", Class::Dyadic), ("BITOR", Class::Dyadic), ("MINUS", Class::Dyadic),
    ("PLUS", Class::Dyadic), ("REM", Class::Dyadic), ("TIMES", Class::Dyadic),
    ("VAL", Class::Val), ("CHAN", Class::Chan), ("OF", Class::Of), ("PROTOCOL", Class::Protocol),
    ("PROC", Class::Proc), ("IS", Class::Is), ("CASE", Class::Case), ("ELSE", Class::Else),
    ("IF", Class::If), ("ALT", Class::Alt), ("PRI", Class::Pri), ("SEQ", Class::Seq),
    ("PAR", Class::Par), ("WHILE", Class::While), ("FOR", Class::For), ("SKIP", Class::Reserved),
    ("STOP", Class::Reserved), ("ANY", Class::Reserved), ("AT", Class::Reserved),
    ("FROM", Class::Reserved), ("FUNCTION", Class::Reserved), ("INT16", Class::Reserved),
    ("INT32", Class::Reserved), ("INT64", Class::Reserved), ("PLACE", Class::Reserved),
    ("PLACED", Class::Reserved), ("PORT", Class::Reserved), ("PROCESSOR", Class::Reserved),
    ("REAL32", Class::Reserved), ("REAL64", Class::Reserved), ("RESULT", Class::Reserved),
    ("RETYPES", Class::Reserved), ("ROUND", Class::Reserved), ("TIMER", Class::Reserved),
    ("TRUNC", Class::Reserved), ("VALOF", Class::Reserved),
];

/// The reserved word that a word is in capitals, and its class.
pub(crate) fn reserved_like(word: &[u8]) -> Option<(&'static str, Class)> {
    for (spelling, class) in RESERVED.as_slice() {
        if spelling.as_bytes().eq_ignore_ascii_case(word) {
            return Some((*spelling, *class));
        }
    }
    None
}

/// The class of a word of letters, digits and dots. A reserved word begins with two capitals.
pub(crate) fn class_of(word: &[u8]) -> Class {
    if !matches!(word, [b'A'..=b'Z', b'A'..=b'Z', ..]) {
        return Class::Name;
    }
    match reserved_like(word) {
        Some((spelling, class)) if spelling.as_bytes() == word => class,
        _ => Class::Name,
    }
}

/// The class of a symbol of two bytes.
pub(crate) fn class_of_two(one: u8, other: u8) -> Option<Class> {
    match (one, other) {
        (b':', b'=') => Some(Class::Assign),
        (b':', b':') => Some(Class::DoubleColon),
        (b'<' | b'>', b'<' | b'=' | b'>') | (b'/', b'\\') | (b'\\', b'/') => Some(Class::Dyadic),
        _ => None,
    }
}

/// The class of a symbol of one byte, and of a byte that is none.
pub(crate) fn class_of_one(byte: u8) -> Class {
    match byte {
        b':' => Class::Colon,
        b';' => Class::Semicolon,
        b',' => Class::Comma,
        b'(' => Class::OpenParen,
        b')' => Class::CloseParen,
        b'[' => Class::OpenBracket,
        b']' => Class::CloseBracket,
        b'&' => Class::Ampersand,
        b'?' => Class::Question,
        b'!' => Class::Exclamation,
        b'=' => Class::Equal,
        b'-' => Class::Minus,
        b'~' => Class::Monadic,
        b'<' | b'>' | b'+' | b'*' | b'/' | b'\\' => Class::Dyadic,
        _ => Class::BadByte,
    }
}
