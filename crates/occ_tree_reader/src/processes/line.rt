//! Single lines that must or may stand next.

ghost use Rattle.std.specs.Prelude.{◌≡◌};
ghost use Rattle.occ_text.specs.Words.{words, logical_lines};
ghost use Rattle.occ_tree_grammar.specs.Fronts.{ReadsLines, lines_found};
ghost use Rattle.occ_tree_grammar.specs.Expressions.Reading.{Gives};
ghost use Rattle.occ_tree_grammar.specs.Processes.Reading.{at_level, at_decl, line_at, is_case, is_colon, case_at, end_at};

use crate::read_decl::begins_declaration;
use occ_text::{Key, Line, Sym, Token};
use occ_tree_grammar::{ParseFault, Stop, Wanted};

/// The lines, where the first is at this level.
pub fn lines_at(level: u32, lines: &[Line]) -> Option<&[Line]>
    ensures { lines_found result ≡ at_level level (logical_lines lines.now) }
{
    match lines {
        [first, ..] if first.level == level => Some(lines),
        _ => None,
    }
}

/// The lines, where the first is at this level and begins a declaration.
pub fn declaration_at(level: u32, lines: &[Line]) -> Option<&[Line]>
    ensures { lines_found result ≡ at_decl level (logical_lines lines.now) }
{
    let [first, ..] = lines else {
        return None;
    };
    if first.level == level && begins_declaration(&first.words) {
        Some(lines)
    } else {
        None
    }
}

/// The line that must stand at this level, and the lines after it. `last` is the last line of the
/// text.
#[tactic(auto, unfolding(occ_tree_grammar::specs::Processes::Reading::line_at))]
pub fn line_of(last: u32, level: u32, lines: &[Line]) -> Result<(&Line, &[Line]), ParseFault>
    ensures { ReadsLines
        (λ l. (l.now.number, words l.now.words.items)) result (line_at level) lines.now }
{
    match lines {
        [] => Err(ParseFault::Missing(last, level)),
        [first, rest @ ..] if first.level == level => Ok((first, rest)),
        [first, ..] => Err(ParseFault::Level(first.number, level)),
    }
}

/// Where a line that has to be `CASE` alone leaves the grammar.
fn stop_of_case(tokens: &[Token]) -> Stop {
    match tokens {
        [Token::Key(Key::Case), rest @ ..] => Stop::before(rest, Wanted::End),
        _ => Stop::before(tokens, Wanted::Begin),
    }
}

/// Where a line that has to be a colon alone leaves the grammar.
fn stop_of_colon(tokens: &[Token]) -> Stop {
    match tokens {
        [Token::Sym(Sym::Colon), rest @ ..] => Stop::before(rest, Wanted::End),
        _ => Stop::before(tokens, Wanted::LastColon),
    }
}

fn only_case(line: u32, tokens: &[Token]) -> Result<(), ParseFault>
    ensures { Gives (λ x. x) result (is_case (words tokens.now)) }
{
    match tokens {
        [Token::Key(Key::Case)] => Ok(()),
        _ => Err(ParseFault::Unexpected(line, stop_of_case(tokens))),
    }
}

fn only_colon(line: u32, tokens: &[Token]) -> Result<(), ParseFault>
    ensures { Gives (λ x. x) result (is_colon (words tokens.now)) }
{
    match tokens {
        [Token::Sym(Sym::Colon)] => Ok(()),
        _ => Err(ParseFault::Unexpected(line, stop_of_colon(tokens))),
    }
}

/// The line of `CASE` that must stand at this level: its number.
#[tactic(auto, unfolding(occ_tree_grammar::specs::Processes::Reading::case_at))]
pub fn case_line(last: u32, level: u32, lines: &[Line]) -> Result<(u32, &[Line]), ParseFault>
    ensures { ReadsLines (λ n. n) result (case_at level) lines.now }
{
    let (first, rest) = line_of(last, level, lines)?;
    only_case(first.number, &first.words)?;
    Ok((first.number, rest))
}

/// The colon that must stand at this level and ends a declaration: the number of its line.
#[tactic(auto, unfolding(occ_tree_grammar::specs::Processes::Reading::end_at))]
pub fn end_line(last: u32, level: u32, lines: &[Line]) -> Result<(u32, &[Line]), ParseFault>
    ensures { ReadsLines (λ n. n) result (end_at level) lines.now }
{
    let (first, rest) = line_of(last, level, lines)?;
    only_colon(first.number, &first.words)?;
    Ok((first.number, rest))
}

/// Why no line may stand at this level, where no more levels may be open.
pub fn too_deep(last: u32, level: u32, lines: &[Line]) -> ParseFault {
    match line_of(last, level, lines) {
        Ok((first, _)) => {
            ParseFault::TooDeep(first.number, Stop::before(&first.words, Wanted::Begin))
        }
        Err(fault) => fault,
    }
}
