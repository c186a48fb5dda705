//! The files that the words of the command line name.
ghost use Rattle.std.specs.Prelude.{All};
ghost use Rattle.std.specs.Option.{option_copied};
ghost use Rattle.occ_play_inputs.specs.Paths.{AreApart, HasOwnFile, IsPageApart, IsSourcePath, IsUnread, IsUntyped, IsUnwritten};

use crate::apart::{
    are_apart, are_undrawn, are_untyped, are_unwritten, differ, has_own_file, is_graph_apart,
    is_page_apart, is_unread,
};
use clap::ArgMatches;

/// What is told where standard input is the source and files are named beside it.
const ALONE: &str = "- is standard input as the source, and stands alone";

/// What is told where two words name one file to be written.
const ONE_FILE: &str =
    "--record, --typed, --chart, --trace-to, --steps, --page and --graph each write into a file of their own";

/// The words that name a file to be written, and what is told of each where that is the source, and where it is that of --choices.
#[rattlefmt::skip]
static WRITTEN: [(&str, &str, &str); 7] = [
    ("record", "--record would overwrite the source", "--record would overwrite the file of --choices"),
    ("typed", "--typed would overwrite the source", "--typed would overwrite the file of --choices"),
    ("chart", "--chart would overwrite the source", "--chart would overwrite the file of --choices"),
    ("trace-to", "--trace-to would overwrite the source", "--trace-to would overwrite the file of --choices"),
    ("steps", "--steps would overwrite the source", "--steps would overwrite the file of --choices"),
    ("page", "--page would overwrite the source", "--page would overwrite the file of --choices"),
    ("graph", "--graph would overwrite the source", "--graph would overwrite the file of --choices"),
];

/// What is told where files are not apart: that a file which is read would be overwritten, or else that two words name one.
fn overwritten(
    matches: &ArgMatches<'_>,
    file: Option<&str>,
    others: &[&str],
    choices: Option<&str>,
) -> &'static str {
    for (word, source, schedule) in WRITTEN.as_slice() {
        let path = matches.get_str(*word);
        if !differ(path, file) || !are_untyped(others, path) {
            return *source;
        }
        if !differ(path, choices) {
            return *schedule;
        }
    }
    ONE_FILE
}

/// The paths of the files, as [`Words`](crate::Words) has them.
#[derive(Drop)]
pub(crate) struct Paths<'a> {
    pub(crate) file: Option<&'a str>,
    pub(crate) more: Vec<&'a str>,
    pub(crate) choices: Option<&'a str>,
    pub(crate) record: Option<&'a str>,
    pub(crate) chart: Option<&'a str>,
    pub(crate) trace_to: Option<&'a str>,
    pub(crate) steps: Option<&'a str>,
    pub(crate) typed: Option<&'a str>,
    pub(crate) page: Option<&'a str>,
    pub(crate) graph: Option<&'a str>,
    ghost files_apart: { AreApart file choices «record» chart trace_to steps },
    ghost more_apart: { All (IsUnwritten «record» chart trace_to steps) more.items },
    ghost typed_unread: { IsUnread typed file choices },
    ghost typed_apart: { HasOwnFile typed «record» chart trace_to steps },
    ghost more_untyped: { All (IsUntyped typed) more.items },
    ghost page_apart: { IsPageApart page file choices «record» chart trace_to steps typed },
    ghost more_unpaged: { All (IsUntyped page) more.items },
    ghost graph_apart: { IsPageApart graph file choices «record» chart trace_to steps page },
    ghost more_undrawn: { All (IsUntyped graph) more.items },
}

/// The paths that these words name, with those of the source's further files; or what is told where one file is named twice.
pub(crate) fn paths_of<'a>(
    matches: &ArgMatches<'a>,
    more: Vec<&'a str>,
) -> Result<Paths<'a>, &'static str> {
    let (file, choices) = (file_of(matches.get_str("FILE")), matches.get_str("choices"));
    let others = more.as_slice();
    if has_hyphen(others) || file.is_none() && !others.is_empty() {
        return Err(ALONE);
    }
    let (record, chart) = (matches.get_str("record"), matches.get_str("chart"));
    let (trace_to, steps) = (matches.get_str("trace-to"), matches.get_str("steps"));
    let (typed, page) = (matches.get_str("typed"), matches.get_str("page"));
    let graph = matches.get_str("graph");
    if !are_apart(file, choices, record, chart, trace_to, steps)
        || !are_unwritten(others, record, chart, trace_to, steps)
        || !is_unread(typed, file, choices)
        || !has_own_file(typed, record, chart, trace_to, steps)
        || !are_untyped(others, typed)
        || !is_page_apart(page, file, choices, record, chart, trace_to, steps, typed)
        || !are_untyped(others, page)
        || !is_graph_apart(graph, file, choices, record, chart, trace_to, steps, page)
        || !are_undrawn(others, graph)
    {
        return Err(overwritten(matches, file, others, choices));
    }
    Ok(Paths {
        file,
        more,
        choices,
        record,
        chart,
        trace_to,
        steps,
        typed,
        page,
        graph,
    })
}

/// Whether one of these paths is a hyphen.
fn has_hyphen(paths: &[&str]) -> bool {
    for path in paths {
        if *path == "-" {
            return true;
        }
    }
    false
}

/// The path of the source's first file, where the words gave this one or none: a hyphen is standard input.
fn file_of<'a>(given: Option<&'a str>) -> Option<&'a str>
    ensures { IsSourcePath (option_copied given.entry) (option_copied result) }
{
    match given {
        Some("-") => None,
        given => given,
    }
}
