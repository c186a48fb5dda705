//! Why the program played nothing, or could not write what it played.
ghost use Rattle.std.specs.Prelude.{◌≡◌, ◌≢◌};
ghost use Rattle.std.specs.IoError.{error_kind};
ghost use Rattle.clap.specs.Values.{kind_of};
ghost use Rattle.occ_files.specs.Reasons.{reason_of};
ghost use Rattle.occ_play_inputs.specs.Failures.{FailsToRead, FailsToWrite, TellsWrongWords, failure_status, read_failure, trouble};

use clap::error::ErrorKind as WordsErrorKind;
use occ_choices::ChoiceFault;
use occ_files::{InputFault, Reason, reason_of};
use std::alloc::AllocError;
use std::io;
use std::io::ErrorKind;
use thiserror::Error;

/// A file or a stream that the program reads or writes.
#[derive(Clone, Copy, Debug, PartialEq, Eq)]
pub enum Stream {
    /// The source: the first file that the words name, or standard input.
    Source,
    /// A further file of the source, by its number from 0.
    More(usize),
    /// The specification that the source is compared with.
    Specification,
    /// What is typed: standard input.
    Keyboard,
    /// The file of choices.
    Choices,
    /// Standard output.
    Output,
    /// The file of the choices that a run used.
    Record,
    /// The file of the choices of a search's answer with this number.
    Answer(usize),
    /// The file of the chart.
    Chart,
    /// The file of the trace.
    Trace,
    /// The file of the turns.
    Turns,
    /// The file of the page.
    Page,
    /// The file of the graph of all states.
    Graph,
    /// The file of what was typed.
    Typed,
}

/// A file or a stream, and why the system could not read or write it.
#[derive(Clone, Copy, Debug, PartialEq, Eq)]
pub struct Trouble {
    /// Which one it is.
    pub stream: Stream,
    /// Why the system could not.
    pub reason: Reason,
}

/// Why the program played nothing, or could not write what it played.
#[derive(Debug, Drop, Error)]
pub enum Failure {
    /// The words ask for help, or for the version, which this is.
    #[error("{0}")]
    Help(clap::Error),
    /// The words are wrong.
    #[error("{0}")]
    Words(clap::Error),
    /// There are no words, and standard input is a terminal: nothing is read then.
    #[error("Compiles and runs an occam 2 program.\n\nUsage: occam [FILE..] [OPTIONS]\n\n`occam FILE` runs the program in FILE, `occam --help` lists the options")]
    Bare,
    /// An argument is no UTF-8.
    #[error("an argument is no UTF-8")]
    Arguments,
    /// A file that is to be written is one that is read, or another that is written.
    #[error("a file to be written is the source, that of --choices, or another one to be written: --record, --typed, --chart, --trace-to, --steps, --page and --graph each write into a file of their own")]
    Paths,
    /// A file or a stream could not be read.
    #[error("read failed")]
    Read(Trouble),
    /// The file of choices is none.
    #[error("{0}")]
    Choices(ChoiceFault),
    /// Standard output, or a file that the words name to be written, could not be written.
    #[error("write failed")]
    Write(Trouble),
    /// A growth was refused.
    #[error("memory")]
    Memory,
}

impl Failure {
    /// The exit status.
    pub fn status(&self) -> u8
        ensures { result ≡ failure_status self.now }
    {
        match self {
            Failure::Help(_) => 0,
            Failure::Memory | Failure::Choices(ChoiceFault::Memory) => 5,
            Failure::Read(_) | Failure::Write(_) => 6,
            Failure::Words(_) | Failure::Bare | Failure::Arguments | Failure::Paths => 7,
            Failure::Choices(_) => 7,
        }
    }
}

impl From<AllocError> for Failure {
    ghost use Rattle.occ_play_inputs.specs.declared.failure.Failure.{Failure};

    ghost from_gives = { λ _ failure. failure ≡ Failure.Memory };

    fn from(_: AllocError) -> Failure {
        Failure::Memory
    }
}

impl From<ChoiceFault> for Failure {
    ghost use Rattle.occ_play_inputs.specs.declared.failure.Failure.{Failure};

    ghost from_gives = { λ fault failure. failure ≡ Failure.Choices fault };

    fn from(fault: ChoiceFault) -> Failure {
        Failure::Choices(fault)
    }
}

/// Why the words say that nothing is to be played.
pub fn of_words(error: clap::Error) -> Failure
    ensures help { kind_of error ≡ WordsErrorKind.DisplayHelp → result ≡ Failure.Help error }
    ensures version { kind_of error ≡ WordsErrorKind.DisplayVersion → result ≡ Failure.Help error }
    ensures memory { kind_of error ≡ WordsErrorKind.OutOfMemory → result ≡ Failure.Memory }
    ensures wrong { TellsWrongWords error result }
{
    match error.kind() {
        WordsErrorKind::DisplayHelp | WordsErrorKind::DisplayVersion => Failure::Help(error),
        WordsErrorKind::OutOfMemory => Failure::Memory,
        _ => Failure::Words(error),
    }
}

/// Why this file or stream was not read to its end.
pub fn of_input(stream: Stream, fault: InputFault) -> Failure
    ensures { result ≡ read_failure stream fault }
{
    match fault {
        InputFault::Read(reason) => Failure::Read(Trouble { stream, reason }),
        InputFault::Memory => Failure::Memory,
    }
}

/// Why this file was not opened.
pub fn of_read(stream: Stream, error: io::Error) -> Failure
    ensures memory { error_kind error ≡ ErrorKind.OutOfMemory → result ≡ Failure.Memory }
    ensures other { error_kind error ≢ ErrorKind.OutOfMemory
        → result ≡ Failure.Read (trouble stream (reason_of error)) }
    ensures failed { FailsToRead stream result }
{
    match error.kind() {
        ErrorKind::OutOfMemory => Failure::Memory,
        _ => {
            let reason = reason_of(&error);
            Failure::Read(Trouble { stream, reason })
        }
    }
}

/// Why this file or stream was not written.
pub fn of_write(stream: Stream, error: io::Error) -> Failure
    ensures memory { error_kind error ≡ ErrorKind.OutOfMemory → result ≡ Failure.Memory }
    ensures other { error_kind error ≢ ErrorKind.OutOfMemory
        → result ≡ Failure.Write (trouble stream (reason_of error)) }
    ensures failed { FailsToWrite stream result }
{
    match error.kind() {
        ErrorKind::OutOfMemory => Failure::Memory,
        _ => {
            let reason = reason_of(&error);
            Failure::Write(Trouble { stream, reason })
        }
    }
}

/// Why the arguments were not read.
pub fn of_arguments(error: io::Error) -> Failure
    ensures memory { error_kind error ≡ ErrorKind.OutOfMemory → result ≡ Failure.Memory }
    ensures other { error_kind error ≢ ErrorKind.OutOfMemory → result ≡ Failure.Arguments }
{
    match error.kind() {
        ErrorKind::OutOfMemory => Failure::Memory,
        _ => Failure::Arguments,
    }
}
