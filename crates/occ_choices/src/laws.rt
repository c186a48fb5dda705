//! Laws of the format. Each function's contract is the law; its body does nothing.

ghost use Rattle.occ_choices.specs.Lines.{Limit, OneReading, WrittenIsRead};

/// What is written is read again.
pub fn written_is_read()
    ensures { WrittenIsRead }
{}

/// A text has one list of choices at most.
pub fn one_reading()
    ensures { OneReading }
{}

/// How many choices a file may have.
pub fn limit()
    ensures { Limit }
{}
