//! The words of the command line.
ghost use Rattle.std.specs.Prelude.{◌≡◌, ◌≤◌, ◌⊎◌, All};
ghost use Rattle.std.specs.Option.{ForSome, option_copied};
ghost use Rattle.occ_choices.specs.Crews.{IsCrew};
ghost use Rattle.occ_code.specs.CodeOf.{IsQuantum};
ghost use Rattle.occ_play_inputs.specs.Failures.{failure_status};
ghost use Rattle.occ_play_inputs.specs.Modes.{IsMode};
ghost use Rattle.occ_play_inputs.specs.Paths.{AreApart, HasOwnFile, IsPageApart, IsUnread, IsUntyped, IsUnwritten};
ghost use Rattle.occ_play_inputs.specs.Searches.{IsFull, IsSearch};

use crate::command::command;
use crate::failure::Failure;
use crate::graphs::is_graph_name;
use crate::numbers::numbers_of;
use crate::paths::{Paths, paths_of};
use clap::error::ErrorKind;
use clap::{ArgMatches, Command, Error};
use occ_explore::Asked;
use occ_term::Errors;
use std::alloc::{AllocError, Global};

/// The version of the program, which `CHANGELOG.md` tells of.
pub const VERSION: &str = "1.0.0";

/// How many turns a run may take where no word says so.
pub const DEFAULT_LIMIT: u32 = 1_000_000;

/// The most turns that a word may ask for.
pub const MOST_TURNS: u32 = 10_000_000;

/// The greatest number from which choices are made.
pub const MOST_SEED: u32 = 1_000_000_000;

/// The most seeds that are tried.
pub const MOST_TRIES: u32 = 1_000_000;

/// How many seeds are tried where no word says so.
pub const DEFAULT_TRIES: u32 = 1;

/// How many communications a chart shows where no word says so.
pub const DEFAULT_ARROWS: u32 = 200;

/// How many states a search may come to where no word says so.
pub const DEFAULT_STATES: u32 = 1_000_000;

/// The most states that a word may ask for.
pub const MOST_STATES: u32 = 10_000_000;

/// How many megabytes a search may hold where no word says so.
pub const DEFAULT_MEMORY: u32 = 1_024;

/// The most megabytes that a word may ask for.
pub const MOST_MEMORY: u32 = 1_000_000;

/// What is told where the trace of a search is asked for.
const NO_TRACE: &str =
    "--explore has no run to trace: add --record STEM, and trace answer 1 by --choices STEM.1.choices --trace";

/// What the words of the command line say.
#[derive(Debug, Drop)]
pub struct Words<'a> {
    /// The most turns that the run may take, 0 to 10,000,000.
    pub limit: u32,
    /// How many ends of a loop's body a turn may pass, 1 to 65,536.
    pub quantum: u32,
    /// What a fault does.
    pub errors: Errors,
    /// How many threads take the turns, 1 to 64; none for the program's own alone.
    pub workers: Option<u32>,
    /// Whether each communication is printed.
    pub trace: bool,
    /// Whether a thread of its own looks at the communications, which are printed to standard error as it was shown them; with
    /// a file of choices it says nothing.
    pub watch: bool,
    /// Whether the keyboard is read and the screen is written while the run goes on, also where no stream is a terminal.
    pub live: bool,
    /// Whether more is told behind the line of a refusal or of a failed read or write, and behind an ending that is not that of a
    /// whole run.
    pub explain: bool,
    /// Whether that is left out on a terminal, where it is told without being asked for.
    pub plain: bool,
    /// Whether the first line of it is printed in bold. No word asks for it: that is up to the terminal.
    pub bold: bool,
    /// The number from which the choices of the run are made, as many as the limit has, 0 to 1,000,000,000; none where no word
    /// says so.
    pub seed: Option<u32>,
    /// How many such numbers are tried, one after the other, until the ending of a run is not `ended`, 1 to 1,000,000.
    pub tries: u32,
    /// The path of a file of choices, by which the run is played; then the limit and the workers say
    /// nothing.
    pub choices: Option<&'a str>,
    /// The path of the file into which the used choices are written.
    pub record: Option<&'a str>,
    /// The path of the file into which the keyboard's bytes are written, as far as they were read.
    pub typed: Option<&'a str>,
    /// The path of the file into which a chart of the trace is written.
    pub chart: Option<&'a str>,
    /// The most communications that the chart shows, of the first ones.
    pub arrows: u32,
    /// The most communications that it shows of the last ones; none where it shows the first ones.
    pub last: Option<u32>,
    /// Which processes alone have a column of their own in the chart, by names or numbers; none where all have.
    pub only: Vec<&'a str>,
    /// Which processes have none.
    pub without: Vec<&'a str>,
    /// The path of the file into which the trace is written.
    pub trace_to: Option<&'a str>,
    /// Whether that file has an object of JSON for each communication, or `check` writes one for what it finds.
    pub json: bool,
    /// The path of the file into which a line for each turn is written.
    pub steps: Option<&'a str>,
    /// The path of the file into which a page that shows the run is written.
    pub page: Option<&'a str>,
    /// The path of the file into which the graph of all states is written, where a search of all states knows them all.
    pub graph: Option<&'a str>,
    /// What a search of all lists of choices tells; none where one run is played. Then `record` names files, one for each
    /// answer, and the limit, the workers, the choices, the trace, the turns and the chart say nothing.
    pub explore: Option<Asked>,
    /// Whether that search comes to all states, where else it comes to those that are enough.
    pub full: bool,
    /// Whether that search ends at the first answer that is a fault, or a stop that is not idle.
    pub first: bool,
    /// The path of the specification, with all of whose answers those of the source are compared; none where they are not. Then the
    /// words say the same as of a search, and `record` names the file of one answer.
    pub within: Option<&'a str>,
    /// How many states a search may come to, 1 to 10,000,000.
    pub states: u32,
    /// How many megabytes a search may hold, 1 to 1,000,000.
    pub memory: u32,
    /// Whether it is only said whether the source is refused: then nothing is typed and nothing is played.
    pub check: bool,
    /// The path of the source, or of its first file; none where standard input is the source.
    pub file: Option<&'a str>,
    /// The paths of its further files, in order.
    pub more: Vec<&'a str>,
    ghost limit_in_range: { limit ≤ 10000000 },
    ghost quantum_in_range: { IsQuantum quantum },
    ghost workers_in_range: { ForSome workers IsCrew },
    ghost some_states: { 1 ≤ states },
    ghost states_in_range: { states ≤ 10000000 },
    ghost seed_in_range: { ForSome seed (λ n. n ≤ 1000000000) },
    ghost some_tries: { 1 ≤ tries },
    ghost tries_in_range: { tries ≤ 1000000 },
    ghost files_apart: { AreApart file choices «record» chart trace_to steps },
    ghost more_apart: { All (IsUnwritten «record» chart trace_to steps) more.items },
    ghost typed_unread: { IsUnread typed file choices },
    ghost typed_apart: { HasOwnFile typed «record» chart trace_to steps },
    ghost more_untyped: { All (IsUntyped typed) more.items },
    ghost page_apart: { IsPageApart page file choices «record» chart trace_to steps typed },
    ghost more_unpaged: { All (IsUntyped page) more.items },
    ghost graph_apart: { IsPageApart graph file choices «record» chart trace_to steps page },
    ghost more_undrawn: { All (IsUntyped graph) more.items },
}

/// The numbers of a run or a search, as [`Words`] has them.
#[derive(Clone, Copy)]
pub(crate) struct Numbers {
    pub(crate) limit: u32,
    pub(crate) quantum: u32,
    pub(crate) workers: Option<u32>,
    pub(crate) states: u32,
    pub(crate) memory: u32,
    pub(crate) seed: Option<u32>,
    pub(crate) tries: u32,
    pub(crate) arrows: u32,
    ghost limit_in_range: { limit ≤ 10000000 },
    ghost quantum_in_range: { IsQuantum quantum },
    ghost workers_in_range: { ForSome workers IsCrew },
    ghost some_states: { 1 ≤ states },
    ghost states_in_range: { states ≤ 10000000 },
    ghost seed_in_range: { ForSome seed (λ n. n ≤ 1000000000) },
    ghost some_tries: { 1 ≤ tries },
    ghost tries_in_range: { tries ≤ 1000000 },
}

/// Reads the words, of which the first is the program's name.
///
/// # Errors
///
/// What `clap` says of the words, and its `OutOfMemory` for a refused growth. A request for help is
/// an error of the kind `DisplayHelp`, and one for the version of the kind `DisplayVersion`.
pub fn read_words<'a>(alloc: Global, words: &'a [&'a str]) -> Result<Words<'a>, Error> {
    let mut command = command(alloc)?;
    read_by(alloc, &mut command, words)
}

/// What the command finds in the words.
fn read_by<'a>(
    alloc: Global,
    command: &mut Command<'a>,
    words: &'a [&'a str],
) -> Result<Words<'a>, Error> {
    let matches = command.try_get_matches_from_mut(words)?;
    let more = more_of(alloc, &matches)?;
    let columns = columns_of(alloc, &matches)?;
    match words_of(&matches, more, columns) {
        Ok(words) => Ok(words),
        Err(told) => Err(refused(command, told)),
    }
}

/// The files of the source behind the first one.
fn more_of<'a>(alloc: Global, matches: &ArgMatches<'a>) -> Result<Vec<&'a str>, AllocError> {
    match matches.get_strs("FILE") {
        Some([_, more @ ..]) => Vec::from_slice(alloc, more),
        _ => Ok(Vec::new(alloc)),
    }
}

/// Which processes have a column of their own in the chart, by names or numbers.
#[derive(Drop)]
struct Columns<'a> {
    only: Vec<&'a str>,
    without: Vec<&'a str>,
}

/// Which processes the words choose for columns.
fn columns_of<'a>(alloc: Global, matches: &ArgMatches<'a>) -> Result<Columns<'a>, AllocError> {
    let only = list_of(alloc, matches.get_strs("only"))?;
    let without = list_of(alloc, matches.get_strs("without"))?;
    Ok(Columns { only, without })
}

/// These values, or none.
fn list_of<'a>(alloc: Global, given: Option<&[&'a str]>) -> Result<Vec<&'a str>, AllocError> {
    match given {
        Some(values) => Vec::from_slice(alloc, values),
        None => Ok(Vec::new(alloc)),
    }
}

/// Why nothing is played where a word names no process that could have a column.
pub fn nameless(alloc: Global, word: &str) -> Failure
    ensures { (failure_status result ≡ 7) ⊎ (result ≡ Failure.Memory) }
{
    match told_nameless(alloc, word) {
        Ok(error) => Failure::Words(error),
        Err(_) => Failure::Memory,
    }
}

/// The error that tells so.
fn told_nameless(alloc: Global, word: &str) -> Result<Error, Error> {
    let mut command = command(alloc)?;
    let told = format!(in alloc;
        "no process is called '{word}': take a name over a column, as worker or 'line 14', or a number, as 3; keyboard, screen and error keep theirs"
    )?;
    Ok(refused(&mut command, told.as_str()))
}

/// The error that tells this of the words.
fn refused<'a>(command: &mut Command<'a>, told: &str) -> Error {
    match command.error(ErrorKind::ValueValidation, told) {
        Ok(error) => error,
        Err(error) => Error::from(error),
    }
}

/// What is told where a word stands without one that it needs, or beside a search as if that were one run.
fn needed(matches: &ArgMatches<'_>) -> Option<&'static str> {
    if matches.get_str("explore").is_some() && matches.get_flag("trace") {
        return Some(NO_TRACE);
    }
    let searches = matches.get_str("explore").is_some() || matches.get_str("within").is_some();
    if !searches && matches.get_one::<u32>("states").is_some() {
        return Some("--states needs --explore or --within");
    }
    if !searches && matches.get_one::<u32>("memory").is_some() {
        return Some("--memory needs --explore or --within");
    }
    let tells = matches.get_str("trace-to").is_some() || matches.get_flag("check");
    if !tells && matches.get_flag("json") {
        return Some("--json needs --trace-to or --check");
    }
    unwritten(
        matches.get_str("graph"),
        is_full(matches.get_str("explore")),
    )
}

/// What is told where a graph can't be written into the file of this path, or all states are not searched.
fn unwritten(graph: Option<&str>, full: bool) -> Option<&'static str> {
    match graph {
        Some(path) if !is_graph_name(path) => {
            Some("the name of the file of --graph must end in .aut, .dot or .gv")
        }
        Some(_) if !full => Some("--graph needs --explore=full"),
        _ => None,
    }
}

/// What the words say that were found, or what is told where one of them says what it may not.
fn words_of<'a>(
    matches: &ArgMatches<'a>,
    more: Vec<&'a str>,
    columns: Columns<'a>,
) -> Result<Words<'a>, &'static str> {
    if let Some(told) = needed(matches) {
        return Err(told);
    }
    let numbers = numbers_of(matches)?;
    let paths = paths_of(matches, more)?;
    Ok(joined(matches, numbers, paths, columns))
}

/// These numbers, paths and columns, with what else the words say.
fn joined<'a>(
    matches: &ArgMatches<'a>,
    numbers: Numbers,
    paths: Paths<'a>,
    columns: Columns<'a>,
) -> Words<'a> {
    let explore = matches.get_str("explore");
    Words {
        limit: numbers.limit,
        quantum: numbers.quantum,
        errors: errors_of(matches.get_str("errors")),
        workers: numbers.workers,
        trace: matches.get_flag("trace"),
        watch: matches.get_flag("watch"),
        live: matches.get_flag("live"),
        explain: matches.get_flag("explain"),
        plain: matches.get_flag("plain"),
        bold: false,
        seed: numbers.seed,
        tries: numbers.tries,
        choices: paths.choices,
        record: paths.record,
        typed: paths.typed,
        chart: paths.chart,
        arrows: numbers.arrows,
        last: matches.get_one::<u32>("last"),
        only: columns.only,
        without: columns.without,
        trace_to: paths.trace_to,
        json: matches.get_flag("json"),
        steps: paths.steps,
        page: paths.page,
        graph: paths.graph,
        explore: explore_of(explore),
        full: is_full(explore),
        first: matches.get_flag("first"),
        within: matches.get_str("within"),
        states: numbers.states,
        memory: numbers.memory,
        check: matches.get_flag("check"),
        file: paths.file,
        more: paths.more,
    }
}

/// What a fault does, where the words gave this name or none.
fn errors_of(given: Option<&str>) -> Errors
    ensures { IsMode (option_copied given.entry) result }
{
    match given {
        Some("stop") => Errors::Stop,
        _ => Errors::Halt,
    }
}

/// What a search tells, where the words gave this name; none where they ask for none.
fn explore_of(given: Option<&str>) -> Option<Asked>
    ensures { IsSearch (option_copied given.entry) result }
{
    match given {
        None => None,
        Some("endings") => Some(Asked::Endings),
        Some(_) => Some(Asked::Answers),
    }
}

/// Whether a search comes to all states, where the words gave this name; not where they ask for none.
fn is_full(given: Option<&str>) -> bool
    ensures { IsFull (option_copied given.entry) result }
{
    match given {
        Some("full") => true,
        _ => false,
    }
}
