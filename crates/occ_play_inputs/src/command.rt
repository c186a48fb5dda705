//! The words that the program takes, a row for each, in the order in which help tells of them.

use crate::words::{MOST_MEMORY, MOST_SEED, MOST_STATES, MOST_TRIES, MOST_TURNS, VERSION};
use clap::builder::ValueParser;
use clap::{Arg, ArgAction, Command, Error};
use occ_choices::MOST_WORKERS;
use occ_code::MOST_QUANTUM;
use std::alloc::{AllocError, Global};

/// How a word stands on the command line.
#[derive(Clone, Copy)]
enum Form {
    /// Behind two hyphens, alone.
    Flag,
    /// Behind two hyphens, with a value.
    Value,
    /// Behind two hyphens, with values between commas.
    List,
    /// Behind two hyphens, with a value behind `=` or none.
    Search,
    /// The files of the source.
    Files,
}

/// A word.
struct Word {
    name: &'static str,
    form: Form,
    /// What help calls its value.
    value: &'static str,
    /// What its value has to be.
    takes: ValueParser<'static>,
    /// The words that have to stand beside it.
    needs: &'static [&'static str],
    /// The words that may not stand beside it.
    apart: &'static [&'static str],
    help: &'static str,
}

/// The words, in the order in which help tells of them.
#[rattlefmt::skip]
static WORDS: [Word; 31] = [
    Word { name: "limit", form: Form::Value, value: "N", takes: ValueParser::Signed(0, MOST_TURNS as i64),
        needs: &[], apart: &[],
        help: "Ends the run after N turns, 0 to 10000000 [default: 1000000]" },
    Word { name: "quantum", form: Form::Value, value: "N", takes: ValueParser::Signed(1, MOST_QUANTUM as i64),
        needs: &[], apart: &[],
        help: "Lets a process go through up to N loop iterations in one turn, 1 to 65536 [default: 1]" },
    Word { name: "errors", form: Form::Value, value: "MODE", takes: ValueParser::Names(&["halt", "stop"]),
        needs: &[], apart: &[],
        help: "Says what a fault does: halt ends the whole run, stop only its process [default: halt]" },
    Word { name: "workers", form: Form::Value, value: "N", takes: ValueParser::Signed(1, MOST_WORKERS as i64),
        needs: &[], apart: &[],
        help: "Runs the processes on N threads, 1 to 64; which process goes on is up to them" },
    Word { name: "seed", form: Form::Value, value: "N", takes: ValueParser::Signed(0, MOST_SEED as i64),
        needs: &[], apart: &["choices", "workers", "watch"],
        help: "Makes a schedule from the number N, 0 to 1000000000; the same number gives the same run" },
    Word { name: "tries", form: Form::Value, value: "N", takes: ValueParser::Signed(1, MOST_TRIES as i64),
        needs: &["seed"], apart: &[],
        help: "Tries N seeds, 1 to 1000000, from that of --seed on, until a run stops, faults or comes to its limit [default: 1]" },
    Word { name: "choices", form: Form::Value, value: "FILE", takes: ValueParser::String,
        needs: &[], apart: &[],
        help: "Plays the schedule in FILE, as --record writes it; --limit and --workers have no effect then" },
    Word { name: "record", form: Form::Value, value: "FILE", takes: ValueParser::String,
        needs: &[], apart: &[],
        help: "Writes the schedule of the run into FILE; with --explore that of answer 1 into FILE.1.choices, and so on" },
    Word { name: "typed", form: Form::Value, value: "FILE", takes: ValueParser::String,
        needs: &[], apart: &[],
        help: "Writes what was typed, as far as the run read it, into FILE" },
    Word { name: "chart", form: Form::Value, value: "FILE", takes: ValueParser::String,
        needs: &[], apart: &[],
        help: "Draws the communications of the run into FILE, as a sequence chart in SVG" },
    Word { name: "arrows", form: Form::Value, value: "N", takes: ValueParser::Signed(0, 4_294_967_295),
        needs: &["chart"], apart: &[],
        help: "Draws only the first N communications [default: 200]" },
    Word { name: "last", form: Form::Value, value: "N", takes: ValueParser::Signed(0, 4_294_967_295),
        needs: &["chart"], apart: &["arrows"],
        help: "Draws only the last N communications" },
    Word { name: "only", form: Form::List, value: "NAME,..", takes: ValueParser::String,
        needs: &["chart"], apart: &["without"],
        help: "Gives a column of their own only to processes of these names or numbers" },
    Word { name: "without", form: Form::List, value: "NAME,..", takes: ValueParser::String,
        needs: &["chart"], apart: &[],
        help: "Gives no column of their own to processes of these names or numbers" },
    Word { name: "trace", form: Form::Flag, value: "", takes: ValueParser::String,
        needs: &[], apart: &[],
        help: "Prints each communication below what the screen got" },
    Word { name: "trace-to", form: Form::Value, value: "FILE", takes: ValueParser::String,
        needs: &[], apart: &[],
        help: "Writes the trace into FILE: each communication, and how the run ended" },
    Word { name: "json", form: Form::Flag, value: "", takes: ValueParser::String,
        needs: &[], apart: &[],
        help: "Writes each of them, or what --check finds, as a line of JSON" },
    Word { name: "steps", form: Form::Value, value: "FILE", takes: ValueParser::String,
        needs: &[], apart: &[],
        help: "Writes a line for each turn into FILE: who was ready, who took the turn, and where it stopped" },
    Word { name: "page", form: Form::Value, value: "FILE", takes: ValueParser::String,
        needs: &[], apart: &[],
        help: "Writes a page for a browser into FILE, which goes turn by turn through the run, or through that of each answer of a search" },
    Word { name: "watch", form: Form::Flag, value: "", takes: ValueParser::String,
        needs: &[], apart: &[],
        help: "Prints each communication to standard error, as a second thread saw it" },
    Word { name: "live", form: Form::Flag, value: "", takes: ValueParser::String,
        needs: &[], apart: &["workers", "watch", "tries"],
        help: "Reads the keyboard and writes the screen while the run goes on; on a terminal it does so unasked" },
    Word { name: "explain", form: Form::Flag, value: "", takes: ValueParser::String,
        needs: &[], apart: &[],
        help: "Explains a refusal, a run that did not end, or a file that failed; on a terminal it is explained unasked" },
    Word { name: "plain", form: Form::Flag, value: "", takes: ValueParser::String,
        needs: &[], apart: &["explain"],
        help: "Leaves the explanation out on a terminal" },
    Word { name: "explore", form: Form::Search, value: "WHAT", takes: ValueParser::Names(&["answers", "endings", "full"]),
        needs: &[], apart: &["json", "limit", "workers", "choices", "chart", "arrows", "last", "only", "without", "trace-to", "steps",
            "seed", "tries", "watch", "live", "typed"],
        help: "Tells the outcomes of all schedules: answers are endings with what the screen got, endings stand alone, full visits every state for its answers [default: answers]" },
    Word { name: "first", form: Form::Flag, value: "", takes: ValueParser::String,
        needs: &["explore"], apart: &["within"],
        help: "Ends the search at the first fault, or stop that is not idle, and tells that answer alone" },
    Word { name: "graph", form: Form::Value, value: "FILE", takes: ValueParser::String,
        needs: &[], apart: &["within"],
        help: "Writes the states that --explore=full has found, and the turns between them, into FILE: in Aldebaran format if it ends in .aut, and for Graphviz if it ends in .dot or .gv" },
    Word { name: "within", form: Form::Value, value: "SPEC", takes: ValueParser::String,
        needs: &[], apart: &["json", "limit", "workers", "choices", "chart", "arrows", "last", "only", "without", "trace", "trace-to", "steps", "page",
            "seed", "tries", "watch", "live", "typed"],
        help: "Tells whether each outcome of the program is one of the program in SPEC; with --explore=endings it compares endings alone" },
    Word { name: "states", form: Form::Value, value: "N", takes: ValueParser::Signed(1, MOST_STATES as i64),
        needs: &[], apart: &[],
        help: "Lets the search visit at most N states, 1 to 10000000 [default: 1000000]" },
    Word { name: "memory", form: Form::Value, value: "N", takes: ValueParser::Signed(1, MOST_MEMORY as i64),
        needs: &[], apart: &[],
        help: "Lets the search hold at most about N MB, 1 to 1000000 [default: 1024]" },
    Word { name: "check", form: Form::Flag, value: "", takes: ValueParser::String,
        needs: &[], apart: &["limit", "workers", "choices", "chart", "arrows", "last", "only", "without", "trace", "trace-to", "steps", "page", "seed", "tries", "watch",
            "live", "typed", "record", "explore", "first", "graph", "within", "states", "memory"],
        help: "Says whether the source is refused, and plays nothing" },
    Word { name: "FILE", form: Form::Files, value: "", takes: ValueParser::String, needs: &[], apart: &[],
        help: "The source, in one file or more; standard input is then the keyboard. Without it, or with - in its place, standard input is the source" },
];

/// What is told below the words.
const MORE_HELP: &str =
    r#"A turn is what one process does up to its next stop: an output, an input, an ALT, a PAR,
the end of a loop's body, STOP, a fault, or its end.

Exit status:
  0  the program ended, or each answer of a search has, or is one of the specification's,
     or the source is not refused, or this help, or the version
  1  the source was refused
  2  the program stopped: no process can go on, or one stopped by a fault is waited for;
     or an answer of a search has stopped, or some wait for good while others go on, and
     none is a fault; or one is none of the specification's
  3  a fault ended the run, or an answer of a search is one
  4  the limit of turns came first, or a bound of a search
  5  memory ran out, or threads gave no answer
  6  a file or a stream could not be read or written
  7  wrong words, or a refused file of choices

Examples, in the repository or a copy of what a package puts into /usr/share/doc/occam:
  echo 'Hello, world.' | occam examples/first_steps/capitals.occ --trace
  occam examples/faults/dining.occ --explore --page dining.html
The first hour is docs/tutorial.md there.
"#;

/// The words that the program takes.
pub(crate) fn command<'a>(alloc: Global) -> Result<Command<'a>, Error> {
    let mut command = Command::new(alloc, "occam")
        .about("Compiles and runs an occam 2 program.")
        .version(VERSION)
        .override_usage("occam [FILE..] [OPTIONS]")
        .after_help(MORE_HELP);
    for word in WORDS.as_slice() {
        command = with(command, made(alloc, word))?;
    }
    Ok(command)
}

/// The command with this word too, where there was room for it.
fn with<'a>(
    command: Command<'a>,
    word: Result<Arg<'a>, AllocError>,
) -> Result<Command<'a>, AllocError> {
    command.arg(word?)
}

/// The word of this row.
fn made<'a>(alloc: Global, word: &Word) -> Result<Arg<'a>, AllocError> {
    let arg = formed(Arg::new(alloc, word.name).help(word.help), word);
    arg.requires_all(word.needs)?.conflicts_with_all(word.apart)
}

/// The word in its form.
fn formed<'a>(arg: Arg<'a>, word: &Word) -> Arg<'a> {
    match word.form {
        Form::Flag => arg.long(word.name).action(ArgAction::SetTrue),
        Form::Value => valued(arg, word),
        Form::List => valued(arg, word).value_delimiter(','),
        Form::Search => optional(valued(arg, word)),
        Form::Files => arg.num_args(1..).action(ArgAction::Append),
    }
}

/// The word with its value.
fn valued<'a>(arg: Arg<'a>, word: &Word) -> Arg<'a> {
    taking(arg.long(word.name).value_name(word.value), word.takes)
}

/// The word whose value has to be this.
fn taking<'a>(arg: Arg<'a>, takes: ValueParser<'a>) -> Arg<'a> {
    arg.value_parser(takes)
}

/// The word with its value behind `=`, or none.
fn optional<'a>(arg: Arg<'a>) -> Arg<'a> {
    let spaced = arg.num_args(0..=1).require_equals(true);
    spaced.default_missing_value("answers")
}
