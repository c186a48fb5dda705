//! How it begins what is told of a refusal, where more than its cause is found out.

pub const HEADINGS: [(u32, &str); 10] = [
    (7, "unfinished line: "),
    (32, "wrong kind of name: "),
    (33, "type mismatch: "),
    (34, "not constant: "),
    (36, "subscript out of range: "),
    (37, "wrong message: "),
    (38, "wrong tag: "),
    (39, "wrong call: "),
    (42, "no main process: "),
    (43, "program too large: "),
];
