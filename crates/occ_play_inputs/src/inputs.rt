//! What the program plays: a source, the keyboard's bytes, and a plan.
ghost use Rattle.std.specs.Prelude.{[], false, ◌≡◌, ◌≤◌, IfErr, IfOk, IfSome, List, OnOk, length, suc, take, ℕ};
ghost use Rattle.occ_choices.specs.Lines.{ChoiceLines};
ghost use Rattle.occ_choices.specs.Plans.{choices_of};
ghost use Rattle.occ_play_inputs.specs.Asked.{IsAskedBy, IsJoin, IsKeyboard, IsSourceBy, IsTyped, NotesEnd, PutsBehind, PutsSome};
ghost use Rattle.occ_play_inputs.specs.Failures.{FailsToChoose, FailsToRead, FailsToReadSource};
ghost use Rattle.occ_play_inputs.specs.Notices.{notice_of};
ghost use Rattle.occ_play_inputs.specs.declared.failure.Stream.TheVariants.{Keyboard, Specification};

use crate::failure::{Failure, Stream, of_input, of_read};
use crate::seeds::seeded_plan;
use crate::words::Words;
use occ_choices::{Plan, read_choices};
use occ_files::{CountedReader, add_text, last_line, read_input};
use std::alloc::{AllocError, Global};
use std::fs;
use std::io::{Input, IsTerminal, Read};
use std::rt::Files;

/// How many bytes of a source are read: one more than it may have.
const MOST_SOURCE: usize = 1_048_577;

/// What is told before the keyboard is read from a terminal.
const NOTICE: &str =
    "the program reads the keyboard: type its input, then Ctrl-D on a line of its own\n";

/// What is told before a source is read from a terminal.
const SOURCE_NOTICE: &str = "no FILE is named: type the source, then Ctrl-D on a line of its own\n";

/// A source: its files, one behind the other.
#[derive(Drop)]
pub struct Joined {
    /// The bytes.
    pub bytes: Vec<u8>,
    /// The number of the last line of each file but the last.
    pub ends: Vec<u32>,
}

/// What the program plays.
#[derive(Drop)]
pub struct Inputs {
    /// The source's bytes: its files, one behind the other.
    pub source: Vec<u8>,
    /// The number of the last line of each of its files but the last.
    pub ends: Vec<u32>,
    /// What is typed.
    pub keyboard: Vec<u8>,
    /// The choices of the run.
    pub plan: Plan,
}

/// Reads what is played with this source: the keyboard, and then the file of choices. The keyboard is read where the words name a
/// source's file and it is `wanted`; before one that is a terminal is read, a line on standard error tells how it is ended.
///
/// # Errors
///
/// `Read` where something could not be read, `Choices` tells what is wrong in the file of choices, and `Memory` of a
/// refused growth.
pub fn read_beside<R: Files + Input + Eprint>(
    rt: &R,
    alloc: Global,
    words: &Words<'_>,
    source: Joined,
    wanted: bool,
) -> Result<Inputs, Failure>
where
    R::Reader: IsTerminal,
    ensures asked { IfOk result (λ inputs. IsAskedBy words.now inputs.plan) }
    ensures source { IfOk result (λ inputs. inputs.source ≡ source.bytes) }
    ensures ends { IfOk result (λ inputs. inputs.ends ≡ source.ends) }
    ensures typed { IfOk result (λ inputs. IsTyped words.now.file wanted inputs.keyboard.items) }
{
    let keyboard = read_keyboard(rt, alloc, words, wanted)?;
    let plan = read_plan(rt, alloc, words)?;
    let Joined {
        bytes: source,
        ends,
    } = source;
    Ok(Inputs {
        source,
        ends,
        keyboard,
        plan,
    })
}

/// Reads the source alone: the files that the words name, or standard input. Before one that is typed on a terminal is read, a line
/// on standard error tells how it is ended.
///
/// # Errors
///
/// `Read` where it could not be read, and `Memory` of a refused growth.
pub fn read_source<R: Files + Input + Eprint>(
    rt: &R,
    alloc: Global,
    words: &Words<'_>,
) -> Result<Joined, Failure>
where
    R::Reader: IsTerminal,
    ensures few { IfOk result (λ source. length source.bytes.items ≤ 1048577) }
    ensures joined { IfOk result (IsSourceBy words.now) }
    ensures failed { IfErr result FailsToReadSource }
{
    match words.file {
        None => {
            let source = rt.reader();
            let _ = eprint!(rt; "{}", notice_of(words.file, source.is_terminal()));
            read_first(alloc, Stream::Source, source)
        }
        Some(path) => read_files(rt, alloc, path, words.more.as_slice()),
    }
}

/// Reads the specification that a source is compared with: the file of this path.
///
/// # Errors
///
/// `Read` where it could not be read, and `Memory` of a refused growth.
pub fn read_specification<R: Files>(rt: &R, alloc: Global, path: &str) -> Result<Joined, Failure>
    ensures few { IfOk result (λ source. length source.bytes.items ≤ 1048577) }
    ensures joined { IfOk result (IsJoin 1) }
    ensures failed { IfErr result (FailsToRead Specification) }
{
    read_file(rt, alloc, Stream::Specification, path)
}

/// The source of the file of this path alone.
fn read_file<R: Files>(rt: &R, alloc: Global, stream: Stream, path: &str) -> Result<Joined, Failure>
    ensures few { IfOk result (λ source. length source.bytes.items ≤ 1048577) }
    ensures joined { IfOk result (IsJoin 1) }
    ensures failed { IfErr result (FailsToRead stream) }
{
    let file = open(rt, stream, path)?;
    read_first(alloc, stream, file)
}

/// The source of this file alone.
fn read_first<S: Read + Drop>(alloc: Global, stream: Stream, file: S) -> Result<Joined, Failure>
    ensures few { IfOk result (λ source. length source.bytes.items ≤ 1048577) }
    ensures joined { IfOk result (IsJoin 1) }
    ensures failed { IfErr result (FailsToRead stream) }
{
    let mut source = empty_source(alloc);
    read_behind(alloc, &mut source, stream, file)?;
    Ok(source)
}

/// A source of no file.
fn empty_source(alloc: Global) -> Joined
    ensures bytes { result.bytes.items ≡ [] }
    ensures ends { result.ends.items ≡ [] }
{
    Joined {
        bytes: Vec::new(alloc),
        ends: Vec::new(alloc),
    }
}

/// The source of these files.
fn read_files<R: Files>(
    rt: &R,
    alloc: Global,
    first: &str,
    more: &[&str],
) -> Result<Joined, Failure>
    ensures few { IfOk result (λ source. length source.bytes.items ≤ 1048577) }
    ensures joined { IfOk result (IsJoin (suc (length more.now))) }
    ensures failed { IfErr result FailsToReadSource }
{
    let mut source = read_file(rt, alloc, Stream::Source, first)?;
    for place in 0..more.len() {
        read_next(rt, alloc, &mut source, place, more[place])?;
    }
    Ok(source)
}

/// Reads one more file, and adds its text to those before it.
fn read_next<R: Files>(
    rt: &R,
    alloc: Global,
    source: &mut Joined,
    place: usize,
    path: &str,
) -> Result<(), Failure>
    requires { length source.old.bytes.items ≤ 1048577 }
    ensures few { OnOk result (length source.new.bytes.items ≤ 1048577) }
    ensures joined { OnOk result (PutsSome source.old source.new) }
    ensures noted { OnOk result (NotesEnd source.old source.new) }
    ensures failed { IfErr result FailsToReadSource }
{
    note_end(source)?;
    let file = open(rt, Stream::More(place), path)?;
    read_behind(alloc, source, Stream::More(place), file)
}

/// Notes the number of the last line, before another file.
fn note_end(source: &mut Joined) -> Result<(), AllocError>
    requires { length source.old.bytes.items ≤ 1048577 }
    ensures noted { OnOk result (NotesEnd source.old source.new) }
    ensures bytes { source.new.bytes ≡ source.old.bytes }
{
    let end = last_line(source.bytes.as_slice());
    source.ends.push(end)?;
    Ok(())
}

/// Reads a file, and adds its text to those before it.
fn read_behind<S: Read + Drop>(
    alloc: Global,
    source: &mut Joined,
    stream: Stream,
    file: S,
) -> Result<(), Failure>
    ensures few { OnOk result (length source.new.bytes.items ≤ 1048577) }
    ensures joined { OnOk result (PutsSome source.old source.new) }
    ensures text { IfSome (S.remaining file) (λ xs. OnOk result
        (PutsBehind source.old source.new xs)) }
    ensures ends { OnOk result (source.new.ends ≡ source.old.ends) }
    ensures failed { IfErr result (FailsToRead stream) }
{
    let text = read_most(alloc, stream, file, MOST_SOURCE)?;
    add_text(&mut source.bytes, text.as_slice(), MOST_SOURCE)?;
    Ok(())
}

/// What is typed: standard input, where the words name a source's file and it is wanted, and else nothing.
fn read_keyboard<R: Input + Eprint>(
    rt: &R,
    alloc: Global,
    words: &Words<'_>,
    wanted: bool,
) -> Result<Vec<u8>, Failure>
where
    R::Reader: IsTerminal,
    ensures typed { IfOk result (λ bytes. IsTyped words.now.file wanted bytes.items) }
    ensures failed { IfErr result (FailsToRead Keyboard) }
{
    match words.file {
        Some(_) => {
            let keyboard = rt.reader();
            if wanted {
                let _ = eprint!(rt; "{}", notice_of(words.file, keyboard.is_terminal()));
            }
            read_wanted(alloc, keyboard, wanted)
        }
        None => Ok(Vec::new(alloc)),
    }
}

/// All bytes of a keyboard that is wanted, and none of one that is not.
fn read_wanted<K: Read + Drop>(alloc: Global, keyboard: K, wanted: bool) -> Result<Vec<u8>, Failure>
    ensures bytes { IfSome (K.remaining keyboard)
        (λ xs. IfOk result (λ bytes. IsKeyboard wanted xs bytes.items)) }
    ensures unwanted { wanted ≡ false → IfOk result (λ bytes. bytes.items ≡ []) }
    ensures failed { IfErr result (FailsToRead Keyboard) }
{
    if wanted {
        read_all(alloc, Stream::Keyboard, keyboard)
    } else {
        Ok(Vec::new(alloc))
    }
}

/// What is told before standard input is read, where that is a terminal: how the keyboard is ended, or the source where the words name
/// no file of it.
fn notice_of(file: Option<&str>, is_terminal: bool) -> &'static str
    ensures { result.now ≡ notice_of file.entry is_terminal }
{
    match file {
        _ if !is_terminal => "",
        Some(_) => NOTICE,
        None => SOURCE_NOTICE,
    }
}

/// The file of this path, to be read.
fn open<R: Files>(rt: &R, stream: Stream, path: &str) -> Result<R::File, Failure>
    ensures { IfErr result (FailsToRead stream) }
{
    match fs::open(rt, path) {
        Ok(file) => Ok(file),
        Err(error) => Err(of_read(stream, error)),
    }
}

/// All bytes of a reader, or so many where there are more.
fn read_most<R: Read + Drop>(
    alloc: Global,
    stream: Stream,
    reader: R,
    most: usize,
) -> Result<Vec<u8>, Failure>
    ensures few { IfOk result (λ bytes. length bytes.items ≤ most) }
    ensures bytes { IfSome (R.remaining reader)
        (λ xs. IfOk result (λ bytes. bytes.items ≡ take most xs)) }
    ensures failed { IfErr result (FailsToRead stream) }
{
    let mut reader = CountedReader::new(reader);
    match read_input(alloc, &mut reader, most) {
        Ok(bytes) => Ok(bytes),
        Err(fault) => Err(of_input(stream, fault)),
    }
}

/// All bytes of a reader.
fn read_all<R: Read + Drop>(alloc: Global, stream: Stream, reader: R) -> Result<Vec<u8>, Failure>
    ensures bytes { IfSome (R.remaining reader) (λ xs. IfOk result (λ bytes. bytes.items ≡ xs)) }
    ensures failed { IfErr result (FailsToRead stream) }
{
    read_most(alloc, stream, reader, usize::MAX)
}

/// The choices of the file that the words name, those of the first seed that they name, or as many turns as they allow.
fn read_plan<R: Files>(rt: &R, alloc: Global, words: &Words<'_>) -> Result<Plan, Failure>
    ensures asked { IfOk result (λ plan. IsAskedBy words.now plan) }
    ensures failed { IfErr result FailsToChoose }
{
    match (words.choices, words.seed) {
        (None, None) => Ok(Plan::Turns(words.limit)),
        (None, Some(seed)) => Ok(seeded_plan(alloc, seed, words.limit)?),
        (Some(path), _) => {
            let file = open(rt, Stream::Choices, path)?;
            read_order(alloc, file)
        }
    }
}

/// The choices of a file: all of its text is read.
fn read_order<C: Read + Drop>(alloc: Global, file: C) -> Result<Plan, Failure>
    ensures lines { IfOk result (λ plan. (text : List ℕ) × ChoiceLines text (choices_of plan)) }
    ensures whole { IfSome (C.remaining file)
        (λ xs. IfOk result (λ plan. ChoiceLines xs (choices_of plan))) }
    ensures failed { IfErr result FailsToChoose }
{
    let text = read_all(alloc, Stream::Choices, file)?;
    plan_of(alloc, text.as_slice())
}

/// The choices of a file's text.
fn plan_of(alloc: Global, text: &[u8]) -> Result<Plan, Failure>
    ensures choices { IfOk result (λ plan. ChoiceLines text.now (choices_of plan)) }
    ensures failed { IfErr result FailsToChoose }
{
    let choices = read_choices(alloc, text)?;
    Ok(Plan::Choices(choices))
}
