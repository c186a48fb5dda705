//! That a file which is written is none that is read, and not the other one.
ghost use Rattle.std.specs.Prelude.{◌≡◌, All, IfErr, IsTrue};
ghost use Rattle.occ_play_inputs.specs.declared.failure.Failure.{Failure};
ghost use Rattle.occ_play_inputs.specs.Paths.{AreApart, AreTextsApart, Differ, HasOwnFile, IsNoneOf, TellsPageApart, IsUnread, IsUntyped, IsUnwritten};

use crate::failure::Failure;
use crate::words::Words;
use occ_files::are_one_file;
use std::rt::Files;

/// Whether two words do not name one path.
pub(crate) fn differ(one: Option<&str>, other: Option<&str>) -> bool
    ensures { IsTrue result → Differ one.entry other.entry }
{
    match (one, other) {
        (Some(one), Some(other)) => one != other,
        _ => true,
    }
}

/// Whether the paths of the record, of the chart and of the trace are not those of the source and of the choices, and differ.
fn texts_are_apart(
    file: Option<&str>,
    choices: Option<&str>,
    written: Option<&str>,
    drawn: Option<&str>,
    traced: Option<&str>,
) -> bool
    ensures { IsTrue result → AreTextsApart file.entry choices.entry written.entry drawn.entry
        traced.entry }
{
    differ(written, file)
        && differ(written, choices)
        && differ(drawn, file)
        && differ(drawn, choices)
        && differ(drawn, written)
        && differ(traced, file)
        && differ(traced, choices)
        && differ(traced, written)
        && differ(traced, drawn)
}

/// Whether the path of the turns is none of the others.
fn are_beside(
    file: Option<&str>,
    choices: Option<&str>,
    written: Option<&str>,
    drawn: Option<&str>,
    traced: Option<&str>,
    turns: Option<&str>,
) -> bool
    ensures { IsTrue result → IsNoneOf turns.entry file.entry choices.entry written.entry
        drawn.entry traced.entry }
{
    differ(turns, file)
        && differ(turns, choices)
        && differ(turns, written)
        && differ(turns, drawn)
        && differ(turns, traced)
}

/// Whether the paths of the record, of the chart, of the trace and of the turns are not those of the source and of the choices, and
/// differ.
pub(crate) fn are_apart(
    file: Option<&str>,
    choices: Option<&str>,
    written: Option<&str>,
    drawn: Option<&str>,
    traced: Option<&str>,
    turns: Option<&str>,
) -> bool
    ensures { IsTrue result → AreApart file.entry choices.entry written.entry drawn.entry
        traced.entry turns.entry }
{
    texts_are_apart(file, choices, written, drawn, traced)
        && are_beside(file, choices, written, drawn, traced, turns)
}

/// Whether the path of a further file of the source is none of those that are written.
fn is_unwritten(
    path: &str,
    written: Option<&str>,
    drawn: Option<&str>,
    traced: Option<&str>,
    turns: Option<&str>,
) -> bool
    ensures { IsTrue result → IsUnwritten written.entry drawn.entry traced.entry turns.entry
        path.entry }
{
    let path = Some(path);
    differ(written, path) && differ(drawn, path) && differ(traced, path) && differ(turns, path)
}

/// Whether each of these is.
pub(crate) fn are_unwritten(
    paths: &[&str],
    written: Option<&str>,
    drawn: Option<&str>,
    traced: Option<&str>,
    turns: Option<&str>,
) -> bool
    ensures { IsTrue result → All (IsUnwritten written.entry drawn.entry traced.entry turns.entry)
        paths.now }
{
    for i in 0..paths.len() {
        if !is_unwritten(paths[i], written, drawn, traced, turns) {
            return false;
        }
    }
    true
}

/// Whether the path of what was typed is none that is read, but for further files of the source.
pub(crate) fn is_unread(typed: Option<&str>, file: Option<&str>, choices: Option<&str>) -> bool
    ensures { IsTrue result → IsUnread typed.entry file.entry choices.entry }
{
    differ(typed, file) && differ(typed, choices)
}

/// Whether the path of what was typed is none of the others that are written.
pub(crate) fn has_own_file(
    typed: Option<&str>,
    written: Option<&str>,
    drawn: Option<&str>,
    traced: Option<&str>,
    turns: Option<&str>,
) -> bool
    ensures { IsTrue result → HasOwnFile typed.entry written.entry drawn.entry traced.entry
        turns.entry }
{
    differ(typed, written) && differ(typed, drawn) && differ(typed, traced) && differ(typed, turns)
}

/// Whether the path of the page is none that is read, but for further files of the source, and none of the others that are written.
pub(crate) fn is_page_apart(
    page: Option<&str>,
    file: Option<&str>,
    choices: Option<&str>,
    written: Option<&str>,
    drawn: Option<&str>,
    traced: Option<&str>,
    turns: Option<&str>,
    typed: Option<&str>,
) -> bool
    ensures { TellsPageApart result page.entry file.entry choices.entry written.entry drawn.entry
        traced.entry turns.entry typed.entry }
{
    is_unread(page, file, choices)
        && has_own_file(page, written, drawn, traced, turns)
        && differ(page, typed)
}

/// The same of the path of the graph, beside that of the page: nothing is typed into a file where there is a graph.
pub(crate) fn is_graph_apart(
    graph: Option<&str>,
    file: Option<&str>,
    choices: Option<&str>,
    written: Option<&str>,
    drawn: Option<&str>,
    traced: Option<&str>,
    turns: Option<&str>,
    page: Option<&str>,
) -> bool
    ensures { TellsPageApart result graph.entry file.entry choices.entry written.entry drawn.entry
        traced.entry turns.entry page.entry }
{
    is_page_apart(graph, file, choices, written, drawn, traced, turns, page)
}

/// Whether the graph goes into none of these further files of the source.
pub(crate) fn are_undrawn(paths: &[&str], graph: Option<&str>) -> bool
    ensures { IsTrue result → All (IsUntyped graph.entry) paths.now }
{
    are_untyped(paths, graph)
}

/// Whether what was typed goes into none of these further files of the source.
pub(crate) fn are_untyped(paths: &[&str], typed: Option<&str>) -> bool
    ensures { IsTrue result → All (IsUntyped typed.entry) paths.now }
{
    for i in 0..paths.len() {
        if !differ(typed, Some(paths[i])) {
            return false;
        }
    }
    true
}

/// Whether both words name one plain file that there is, by whatever path.
fn name_one<R: Files>(rt: &R, one: Option<&str>, other: Option<&str>) -> bool {
    match (one, other) {
        (Some(one), Some(other)) => are_one_file(rt, one, other),
        _ => false,
    }
}

/// Refuses to write into a file that is read, or to write two texts into one file, by whatever paths.
///
/// # Errors
///
/// `Paths` where that is so.
pub fn check_files<R: Files>(rt: &R, words: &Words<'_>) -> Result<(), Failure>
    ensures { IfErr result (λ failure. failure ≡ Failure.Paths) }
{
    let met = name_one(rt, words.record, words.file)
        || name_one(rt, words.record, words.choices)
        || name_one(rt, words.chart, words.file)
        || name_one(rt, words.chart, words.choices)
        || name_one(rt, words.chart, words.record)
        || name_one(rt, words.trace_to, words.file)
        || name_one(rt, words.trace_to, words.choices)
        || name_one(rt, words.trace_to, words.record)
        || name_one(rt, words.trace_to, words.chart)
        || name_one(rt, words.steps, words.file)
        || name_one(rt, words.steps, words.choices)
        || name_one(rt, words.steps, words.record)
        || name_one(rt, words.steps, words.chart)
        || name_one(rt, words.steps, words.trace_to)
        || name_one(rt, words.typed, words.file)
        || name_one(rt, words.typed, words.choices)
        || name_one(rt, words.typed, words.record)
        || name_one(rt, words.typed, words.chart)
        || name_one(rt, words.typed, words.trace_to)
        || name_one(rt, words.typed, words.steps);
    if met || is_paged(rt, words) || writes_one(rt, words) {
        Err(Failure::Paths)
    } else {
        Ok(())
    }
}

/// Whether the page or the graph goes into a file that is read, or into another that is written, by whatever paths.
fn is_paged<R: Files>(rt: &R, words: &Words<'_>) -> bool {
    name_one(rt, words.page, words.file)
        || name_one(rt, words.page, words.choices)
        || name_one(rt, words.page, words.record)
        || name_one(rt, words.page, words.chart)
        || name_one(rt, words.page, words.trace_to)
        || name_one(rt, words.page, words.steps)
        || name_one(rt, words.page, words.typed)
        || name_one(rt, words.graph, words.file)
        || name_one(rt, words.graph, words.page)
}

/// Whether a file that is written is a further file of the source, by whatever paths.
fn writes_one<R: Files>(rt: &R, words: &Words<'_>) -> bool {
    for path in words.more.as_slice() {
        let path = Some(*path);
        if name_one(rt, words.record, path)
            || name_one(rt, words.typed, path)
            || name_one(rt, words.chart, path)
            || name_one(rt, words.trace_to, path)
            || name_one(rt, words.steps, path)
            || name_one(rt, words.page, path)
            || name_one(rt, words.graph, path)
        {
            return true;
        }
    }
    false
}
