//! Kinds of bytes, and the longest run of one kind at the front of a line.

ghost use Rattle.std.specs.Prelude.{◌≡◌, ◌<◌, ◌≤◌, drop, length};
ghost use Rattle.std.specs.List.{prefix_len, take_while};
ghost use Rattle.occ_text.specs.Spelling.{digit_of};
ghost use Rattle.occ_text.specs.Reading.{belongs};

/// A kind of byte that stands in runs.
#[derive(Clone, Copy)]
pub enum Class {
    Space,
    NamePart,
    Digit,
    HexDigit,
}

impl Class {
    fn has(self, byte: u8) -> bool
        ensures { result ≡ belongs self byte }
    {
        match self {
            Class::Space => byte == b' ',
            Class::NamePart => byte.is_ascii_alphanumeric() || byte == b'.',
            Class::Digit => byte.is_ascii_digit(),
            Class::HexDigit => byte.is_ascii_hexdigit(),
        }
    }
}

/// How many bytes at the front are of the class.
pub fn run_len(class: Class, bytes: &[u8]) -> usize
    ensures value { result ≡ prefix_len (belongs class) bytes.now }
    ensures within { result ≤ length bytes.now }
{
    let mut end = 0;
    while end < bytes.len() && class.has(bytes[end]) {
        end += 1;
    }
    end
}

/// The longest run of the class at the front, and the bytes after it.
pub fn split_run(class: Class, bytes: &[u8]) -> (&[u8], &[u8])
    ensures run { result.0.now ≡ take_while (belongs class) bytes.now }
    ensures rest { result.1.now ≡ drop (prefix_len (belongs class) bytes.now) bytes.now }
{
    bytes.split_at(run_len(class, bytes))
}

/// What a digit stands for, also a hexadecimal one.
pub fn digit(byte: u8) -> u8
    ensures value { result ≡ digit_of byte }
    ensures small { result < 16 }
{
    match byte {
        b'0'..=b'9' => byte - b'0',
        b'A'..=b'F' => byte - b'A' + 10,
        b'a'..=b'f' => byte - b'a' + 10,
        _ => 0,
    }
}
