//! How a line that leaves the grammar is mended: hints for what people write who know other languages, or the rest of
//! occam 2.

use crate::class::{Class, class_of, reserved_like};
use crate::fronts::front_of;
use crate::leaving::Leaving;
use crate::scan::Word;
use crate::sentence::{Nothing, Piece, Told};
use crate::words::{bytes_at, class_at, word_from};

/// The hints, each behind all that has to hold where it is given. `wanted` is the part that is wanted, and `first` the line's first
/// word. `met` is the word that is met, `before` the one before it and `next` the one behind it. `like` is a word of the class of
/// the one that is met, `after` of the one before, and `two.before` of the one before that. `some` is any word of the line. Where it
/// `ends`, the line has to end; where something is `over`, no more of it can stand; and what `joins` is an operator. With a `prefix`
/// the word that is met begins.
static HINTS: &str = "\
some=TIMER / this profile of occam 2 has no timers
some=AFTER some=? / this profile of occam 2 has no timers
some=REAL32 / this profile of occam 2 has no real numbers: use INT, for example in hundredths
some=REAL64 / this profile of occam 2 has no real numbers: use INT, for example in hundredths
some=INT16 / this profile of occam 2 has no INT16: use INT, which has 32 bits
some=INT32 / this profile of occam 2 has no INT32: use INT, which has 32 bits
some=INT64 / this profile of occam 2 has no INT64: use INT, which has 32 bits
some=FUNCTION / this profile of occam 2 has no FUNCTION: write a PROC that sets a formal
some=VALOF / this profile of occam 2 has no VALOF and RESULT: write a PROC that sets a formal
some=RETYPES / this profile of occam 2 has no RETYPES: convert by INT x, BYTE x and shifts
some=FROM / this profile of occam 2 has no segments of arrays: copy the components in a replicated SEQ
some=PORT / this profile of occam 2 has no ports
some=PLACED / this profile of occam 2 has no PLACED PAR: write PAR
some=PLACE / this profile of occam 2 has no PLACE: leave the line out
some=ANY / this profile of occam 2 has no ANY: write a type, or declare a PROTOCOL
before=PRI met=PAR / this profile of occam 2 has no PRI PAR: write PAR
first=INITIAL / there is no INITIAL: declare the variable, and assign it in a SEQ
first=VAR / declare a variable with its type: INT x:
first=DATA some=TYPE / there is no DATA TYPE: use INT, BYTE, BOOL and arrays of them
before=0 prefix=x / a number in hexadecimal digits begins with #: #1F
before=0 prefix=X / a number in hexadecimal digits begins with #: #1F
wanted=fifth / a type has four sizes at most, and a name four subscripts
met=[ after=\"s\" / a string takes no subscript: name it first by VAL s IS \"abc\":
before== met=[ some=FOR / leave the brackets of a replicator out: i = 0 FOR 10
wanted=expression met=[ / this profile of occam 2 has no lists of values in brackets: assign the components one by one, or use a string for bytes
met=IS / this profile of occam 2 has no abbreviations of variables: use the variable itself, or name a value by VAL x IS y:
met=/ next=/ / a comment begins with two hyphens: -- like this
before== met== / write = for equal
before== met=> / write >= for greater or equal
before== met=< / write <= for less or equal
met=! next== / write <> for unequal
met=& over / write AND for both
before=+ met=+ / write x := x + 1 to add one
met=+ next== / write x := x + 1 to add one
met=- next== / write x := x - 1 to subtract one
wanted=expression met=MINUS / write - for a sign: -x
wanted=operand met=MINUS / write - for a sign, in brackets behind an operator: 3 * (-x)
wanted=expression met=! / write NOT for the opposite of a condition: NOT x
wanted=choice met=! / write NOT for the opposite of a condition: NOT x
wanted=arm met=! / write NOT for the opposite of a condition: NOT x
wanted=operand met=! / write NOT for the opposite of a condition, in brackets behind an operator: a AND (NOT b)
wanted=( met=- / a name has letters, digits and dots: write my.var
wanted=( / write brackets behind the name of a PROC, also if they are empty: PROC p ()
wanted=names met=; / end the declaration with a colon
wanted=: met=; / end the declaration with a colon
wanted=formals met=; / put commas between formals: (CHAN OF BYTE a, b)
wanted=actuals met=; / put commas between actuals: f (x, y)
met=; / leave `;` out: each process stands in a line of its own, with nothing behind it
wanted=] met=, / write each subscript, and each size, in brackets of its own: a[0][1]
wanted=parts met=, / put semicolons between the parts of a message: INT; BYTE
ends met=, some=! / put semicolons between the parts of a message: c ! x; y
ends met=, some=? / put semicolons between the parts of a message: c ? x; y
over met=? some=:= / an input is no value: write keyboard ? b
wanted=input / an input names the variable that takes the message: c ? x
first=CASE wanted=expression met= / write behind CASE what it chooses by: CASE x
met=MOD / write \\ or REM for the remainder
over met=:= / write = to compare, and := to assign
wanted=action met== / write := to assign, and = to compare
wanted=placed met== / write := to assign, and = to compare
first=FOR / write a loop as SEQ i = 0 FOR 10, and its body below, two spaces deeper
first=WHILE met=DO / leave DO out: the body of a WHILE stands in the next line, two spaces deeper
wanted=arm first=SEQ / an arm begins with a guard, such as c ? x: write that first, and the SEQ below it
wanted=arm first=PAR / an arm begins with a guard, such as c ? x: write that first, and the PAR below it
first=PROC ends met=: / leave this colon out: the one that ends a PROC stands below its body, in a line of its own
ends met=( after=name / a PROC has no value: let it set a formal, and call it in a line of its own: f (3, x)
wanted=choice met=ELSE / write TRUE for the last choice of an IF; ELSE is for CASE alone
wanted=process met=ELSE / ELSE stands two spaces deeper than its CASE; for IF write TRUE there, its last condition
wanted=process joins / break a line behind an operator, not before it
first=IF / write IF alone, each condition in a line below it, and its process below that
wanted=arm met=SKIP / write TRUE & SKIP for a guard that is always ready
wanted=guard met=! / a guard is an input: an output cannot be one
wanted=guard / a guard is an input, or a condition with & and an input or SKIP: x > 0 & c ? y
wanted=FOR / a replicator has a base and a count, not a last value: i = 0 FOR 10
wanted=top met=: / leave this colon out: each PROC, and each PROTOCOL with tags, ends with one
wanted=top / write processes within a PROC, two spaces deeper than its first line
wanted=action after=name met=- / a name has letters, digits and dots: write my.var
wanted=action met= / write brackets behind the name in a call, also if they are empty: f ()
wanted=action / an assignment is x := y, an input is c ? x, an output is c ! x, a call is f (x)
wanted=) met= / close the bracket: write `)`
ends met=) / leave this bracket out: none is open here
over met=: / leave the colon out: only declarations end with one
wanted=names met=[ / write the size of an array before its type: [10]INT a:
wanted=names met= / end the declaration with a colon
wanted=names like=name / put commas between names: INT x, y:
wanted=names met=:= / a declaration gives no value: assign it in a SEQ below
wanted=: met= / end the declaration with a colon
wanted=parts met= / end the PROTOCOL with a colon
wanted=IS met== / write IS to name a value: VAL INT n IS 3:
met=:: after=INT / a counted array is the type of the count, two colons, and the array: INT::[]BYTE
wanted=OF / write OF behind CHAN: CHAN OF BYTE c:
wanted=formals met=? / this profile of occam 2 has no direction marks: leave ? out
wanted=formals met=! / this profile of occam 2 has no direction marks: leave ! out
wanted=formals like=name / put commas between formals: (CHAN OF BYTE a, b)
wanted=formals like=INT / put commas between formals: (CHAN OF BYTE a, b)
wanted=formals met= / close the bracket: write `)`
wanted=actuals like=name / put commas between actuals: f (x, y)
wanted=expression met=] / give the array its size: [10]BYTE s:
wanted=operand like=- / put brackets round a sign behind an operator: 3 * (-1)
wanted=operand like=MOSTPOS / put brackets round it behind an operator: p <> (MOSTPOS INT)
wanted=operand like=INT / put brackets round a conversion behind an operator: x + (INT b)
wanted=operand like=NOT / put brackets round an operator with one operand: a AND (NOT b)
over two.before=NOT / put brackets round an operator with one operand: (SIZE b) + 1
over two.before=INT / put brackets round a conversion: (INT b) + 1
over like=AND / operators have no precedence: put brackets round each side of AND
over like=OR / operators have no precedence: put brackets round each side of OR
over joins / operators have no precedence: write (a + b) * c or a + (b * c)
after=name met=- / a name has letters, digits and dots: write my.var";

/// A place where a line leaves the grammar.
#[derive(Clone, Copy)]
pub(crate) struct Met<'a> {
    pub(crate) line: usize,
    pub(crate) words: &'a [Word<'a>],
    pub(crate) leaving: Leaving,
}

/// The class of the words that a word of the table stands for.
fn class_in(spelling: &str) -> Option<Class> {
    match front_of(spelling.as_bytes()).class {
        Some(Class::Name) if spelling != "name" => None,
        class => class,
    }
}

/// Whether the word is an operator with two operands.
pub(crate) fn is_operator(class: Class) -> bool {
    matches!(
        class,
        Class::And | Class::Dyadic | Class::Equal | Class::Minus | Class::Or
    )
}

/// Whether a word is an operand by itself.
fn is_single(class: Class) -> bool {
    matches!(
        class,
        Class::ByteLiteral | Class::Name | Class::Number | Class::Text | Class::Truth
    )
}

impl Met<'_> {
    /// Whether what stands before a hint holds here.
    fn holds(&self, condition: &str) -> bool {
        let (kind, spelling) = match condition.split_once('=') {
            Some((kind, spelling)) => (kind.as_bytes(), spelling),
            None => (condition.as_bytes(), ""),
        };
        let leaving = self.leaving;
        let place = match kind {
            [b'f', ..] => 0,
            [b'b' | b'a', ..] => leaving.at.wrapping_sub(1),
            [b't', ..] => leaving.at.wrapping_sub(2),
            [b'n', ..] => leaving.at.saturating_add(1),
            _ => leaving.at,
        };
        let class = class_at(self.words, place);
        match kind {
            [b'w', ..] => leaving.wanted.0 == spelling,
            [b'e', ..] => leaving.wanted.1.is_empty(),
            [b'o', ..] => !leaving.over.is_empty(),
            [b'j', ..] => is_operator(class),
            [b'p', ..] => bytes_at(self.words, place).starts_with(spelling.as_bytes()),
            [b's', ..] => word_from(self.words, 0, spelling.as_bytes()) < self.words.len(),
            [b'l' | b'a' | b't', ..] => class_in(spelling) == Some(class),
            _ => bytes_at(self.words, place) == spelling.as_bytes(),
        }
    }

    /// The hint for this place; it says nothing where there is none.
    fn hint(&self) -> &'static str {
        for row in HINTS.lines() {
            let Some((conditions, says)) = row.split_once(" / ") else {
                continue;
            };
            let mut holds = true;
            for condition in conditions.split_ascii_whitespace() {
                holds = holds && self.holds(condition);
            }
            if holds {
                return says;
            }
        }
        ""
    }

    /// Whether the words before and behind are single operands: `1 + 2` before and `3` behind.
    fn joins_single_operands(&self) -> bool {
        let (words, at, over) = (self.words, self.leaving.at, self.leaving.over);
        let met = class_at(words, at);
        at > 2
            && !over.is_empty()
            && !(over == "a whole expression" && matches!(met, Class::And | Class::Or))
            && is_operator(met)
            && is_single(class_at(words, at - 3))
            && is_operator(class_at(words, at - 2))
            && is_single(class_at(words, at - 1))
            && is_single(class_at(words, at.saturating_add(1)))
            && !is_operator(class_at(words, at.wrapping_sub(4)))
            && !matches!(
                class_at(words, at.saturating_add(2)),
                Class::OpenBracket | Class::OpenParen
            )
    }

    /// The reserved word that a name of the line is in small letters: the name that is met, the one before it, or the first.
    fn small_letters(&self) -> Option<&'static str> {
        for at in [self.leaving.at, self.leaving.at.saturating_sub(1), 0] {
            if class_at(self.words, at) == Class::Name
                && let Some((reserved, _)) = reserved_like(bytes_at(self.words, at))
            {
                return Some(reserved);
            }
        }
        None
    }

    /// What is wrong: the word that is met, and what may stand in its place. Behind the last word none is.
    fn wrong(&self) -> (&'static str, &'static str) {
        let leaving = self.leaving;
        let wanted = leaving.wanted.1;
        let is_over = wanted.is_empty();
        match class_at(self.words, leaving.at) {
            Class::End => ("the line ends where @2 must stand", wanted),
            met if !leaving.over.is_empty() && (is_over || is_operator(met)) => {
                ("`@1` after @2", leaving.over)
            }
            _ if leaving.wanted.0 == "fifth" => ("a fifth size or subscript", ""),
            _ if is_over => ("`@1` where the line must end", ""),
            _ => ("`@1` where @2 must stand", wanted),
        }
    }

    /// How it is mended.
    fn advice(&self) -> (&'static str, Piece, Piece) {
        let (line, at) = (self.line, self.leaving.at);
        if let Some(reserved) = self.small_letters() {
            return (IN_CAPITALS, Piece::Text(reserved), Nothing);
        }
        let hint = self.hint();
        if hint.is_empty()
            && self.leaving.wanted.0 == "new.name"
            && class_of(bytes_at(self.words, at)) != Class::Name
        {
            return (
                "`@1` is a reserved word: use another name",
                Nothing,
                Nothing,
            );
        }
        if hint.is_empty() && self.leaving.wanted.0 == "end" {
            return (LAST_COLON, Nothing, Nothing);
        }
        if hint.starts_with("operators have") && self.joins_single_operands() {
            return (
                "operators have no precedence: write @3",
                Piece::Bracketed(line, at),
                Nothing,
            );
        }
        if hint.starts_with("put brackets round a sign") && at > 0 {
            return (
                "put brackets round a sign behind an operator: `@3 (-@4)`",
                Piece::Short(line, at - 1),
                Piece::Short(line, at.saturating_add(1)),
            );
        }
        (hint, Nothing, Nothing)
    }

    /// What is told of this place.
    pub(crate) fn told(&self) -> Told {
        let (line, at) = (self.line, self.leaving.at);
        let (wrong, part) = self.wrong();
        let (hint, one, other) = self.advice();
        Told {
            line,
            at,
            wrong,
            hint,
            pieces: [Piece::Short(line, at), Piece::Text(part), one, other],
        }
    }
}

/// How a line that begins with an operator is mended.
pub(crate) const BREAK_BEHIND: &str = "break a line behind an operator, not before it";

/// How a PROC and a PROTOCOL are ended.
pub(crate) const LAST_COLON: &str =
    "end a PROC, and a PROTOCOL with tags, with a colon in a line of its own, under its first letter";

/// What to do about a reserved word in small letters, which is the third piece.
pub(crate) const IN_CAPITALS: &str = "write reserved words in capitals: @3";
