//! The reserved words.

ghost use Rattle.std.specs.Prelude.{◌≡◌, map};
ghost use Rattle.occ_text.specs.Reading.{find_key, group_at, groups, key_of};

use crate::token::Key;

pub const KEYS_A: [(&[u8], Key); 5] = [
    (b"AFTER", Key::After),
    (b"ALT", Key::Alt),
    (b"AND", Key::And),
    (b"ANY", Key::Any),
    (b"AT", Key::At),
];

pub const KEYS_B: [(&[u8], Key); 5] = [
    (b"BITAND", Key::BitAnd),
    (b"BITNOT", Key::BitNot),
    (b"BITOR", Key::BitOr),
    (b"BOOL", Key::Bool),
    (b"BYTE", Key::Byte),
];

pub const KEYS_C: [(&[u8], Key); 2] = [(b"CASE", Key::Case), (b"CHAN", Key::Chan)];

pub const KEYS_E: [(&[u8], Key); 1] = [(b"ELSE", Key::Else)];

pub const KEYS_F: [(&[u8], Key); 4] = [
    (b"FALSE", Key::False),
    (b"FOR", Key::For),
    (b"FROM", Key::From),
    (b"FUNCTION", Key::Function),
];

pub const KEYS_I: [(&[u8], Key); 6] = [
    (b"IF", Key::If),
    (b"INT", Key::Int),
    (b"INT16", Key::Int16),
    (b"INT32", Key::Int32),
    (b"INT64", Key::Int64),
    (b"IS", Key::Is),
];

pub const KEYS_M: [(&[u8], Key); 3] = [
    (b"MINUS", Key::Minus),
    (b"MOSTNEG", Key::MostNeg),
    (b"MOSTPOS", Key::MostPos),
];

pub const KEYS_N: [(&[u8], Key); 1] = [(b"NOT", Key::Not)];

pub const KEYS_O: [(&[u8], Key); 2] = [(b"OF", Key::Of), (b"OR", Key::Or)];

pub const KEYS_P: [(&[u8], Key); 9] = [
    (b"PAR", Key::Par),
    (b"PLACE", Key::Place),
    (b"PLACED", Key::Placed),
    (b"PLUS", Key::Plus),
    (b"PORT", Key::Port),
    (b"PRI", Key::Pri),
    (b"PROC", Key::Proc),
    (b"PROCESSOR", Key::Processor),
    (b"PROTOCOL", Key::Protocol),
];

pub const KEYS_R: [(&[u8], Key); 6] = [
    (b"REAL32", Key::Real32),
    (b"REAL64", Key::Real64),
    (b"REM", Key::Rem),
    (b"RESULT", Key::Result),
    (b"RETYPES", Key::Retypes),
    (b"ROUND", Key::Round),
];

pub const KEYS_S: [(&[u8], Key); 4] = [
    (b"SEQ", Key::Seq),
    (b"SIZE", Key::Size),
    (b"SKIP", Key::Skip),
    (b"STOP", Key::Stop),
];

pub const KEYS_T: [(&[u8], Key); 4] = [
    (b"TIMER", Key::Timer),
    (b"TIMES", Key::Times),
    (b"TRUE", Key::True),
    (b"TRUNC", Key::Trunc),
];

pub const KEYS_V: [(&[u8], Key); 2] = [(b"VAL", Key::Val), (b"VALOF", Key::Valof)];

pub const KEYS_W: [(&[u8], Key); 1] = [(b"WHILE", Key::While)];

fn find(mut rows: &[(&[u8], Key)], letters: &[u8]) -> Option<Key>
    ensures { result ≡ find_key (map (λ r. (r.0.now, r.1)) rows.entry.now) letters.now }
{
    while let [row, rest @ ..] = rows {
        if row.0 == letters {
            return Some(row.1);
        }
        rows = rest;
    }
    None
}

/// The reserved words that begin with this letter.
#[tactic(auto, unfolding(crate::specs::Reading::groups))]
fn rows_at(first: u8) -> &'static [(&'static [u8], Key)]
    ensures { map (λ r. (r.0.now, r.1)) result.now ≡ group_at groups first }
{
    match first {
        b'A' => &KEYS_A,
        b'B' => &KEYS_B,
        b'C' => &KEYS_C,
        b'E' => &KEYS_E,
        b'F' => &KEYS_F,
        b'I' => &KEYS_I,
        b'M' => &KEYS_M,
        b'N' => &KEYS_N,
        b'O' => &KEYS_O,
        b'P' => &KEYS_P,
        b'R' => &KEYS_R,
        b'S' => &KEYS_S,
        b'T' => &KEYS_T,
        b'V' => &KEYS_V,
        b'W' => &KEYS_W,
        _ => &[],
    }
}

/// The reserved word with these letters.
#[tactic(auto, unfolding(crate::specs::Reading::key_of))]
pub fn keyword(letters: &[u8]) -> Option<Key>
    ensures { result ≡ key_of letters.now }
{
    match letters {
        [first, ..] => find(rows_at(*first), letters),
        [] => None,
    }
}
