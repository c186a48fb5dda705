//! Writes the graph of all states that a search has found.
ghost use Rattle.std.specs.Prelude.{◌≡◌, IfErr, IfOk};
ghost use Rattle.occ_play_inputs.specs.Failures.{FailsToWrite};
ghost use Rattle.occ_play_inputs.specs.declared.failure.Stream.TheVariants as stream;
ghost use Rattle.occ_program.specs.Coming.{options_in};
ghost use Rattle.occ_program.specs.Pages.{GraphPage, IsGraphText, IsLeft};

use crate::page::{Page, write_page};
use crate::program::options_of;
use occ_exploring::{Exploration, Graph, graph_text};
use occ_files::Folder;
use occ_play::code_of;
use occ_play_inputs::{Failure, Inputs, Stream, Words, named_form};
use std::alloc::{AllocError, Global};

/// Writes the graph of all states into the file that the words name, where the search has handed it out.
pub(crate) fn leave_graph<F: Folder>(
    folder: &mut F,
    alloc: Global,
    words: &Words<'_>,
    inputs: &Inputs,
    found: &Exploration,
) -> Result<(), Failure>
    ensures left { IsLeft F.left folder.old folder.new
        (GraphPage words.now inputs.now found.now) result }
    ensures failed { IfErr result (FailsToWrite stream.Graph) }
{
    let page = graph_page(alloc, words, inputs, found)?;
    write_page(folder, Stream::Graph, &page)
}

/// What is to be written, and where.
fn graph_page<'a>(
    alloc: Global,
    words: &Words<'a>,
    inputs: &Inputs,
    found: &Exploration,
) -> Result<Option<Page<'a>>, AllocError>
    ensures { IfOk result (GraphPage words.now inputs.now found.now) }
{
    match (words.graph, &found.graph) {
        (Some(path), Some(graph)) => {
            let text = drawn(alloc, words, inputs, path, found.states, graph)?;
            Ok(Some(Page { path, text }))
        }
        (Some(_), None) | (None, _) => Ok(None),
    }
}

/// The text of a graph of so many states for the file of this path. The source has code, since it was searched, so compiling it again
/// fails for want of memory alone.
fn drawn(
    alloc: Global,
    words: &Words<'_>,
    inputs: &Inputs,
    path: &str,
    states: usize,
    graph: &Graph,
) -> Result<Vec<u8>, AllocError>
    ensures { IfOk result (λ text.
        IsGraphText words.now inputs.now path.now states graph.now text.items) }
{
    let Ok(code) = code_of(&options_of(words), alloc, inputs.source.as_slice()) else {
        return Err(AllocError);
    };
    let text = graph_text(alloc, named_form(path), code.channels(), states, graph)?;
    Ok(text)
}
