//! What is known of a source before it runs.
ghost use Rattle.std.specs.Prelude.{IfErr, IfOk};
ghost use Rattle.occ_explaining.specs.Studied.{IsStudied};
ghost use Rattle.occ_play.specs.Playing.{Refuses, RefusesText};
ghost use Rattle.occ_text.specs.Lines.{LinesOf};
ghost use Rattle.occ_text.specs.Words.{logical_lines};

use occ_ends::{ProcessUses, process_uses};
use occ_machine::Code;
use occ_play::{Options, PlayFault, code_of, unfolded_of};
use occ_report::{Places, places_of};
use occ_term::Unfolded;
use occ_text::{Source, read_lines};
use occ_tree::parse;
use occ_tree_grammar::tree::process::Program;
use std::alloc::Global;

/// A source's code, where its processes stand in the source, and what they use. It is made once, and any run is told by it.
#[derive(Drop)]
pub struct Studied {
    /// The code.
    pub code: Code,
    /// The PROCs and the lines of its processes.
    pub places: Places,
    /// What each process uses.
    pub uses: Vec<ProcessUses>,
    /// The source.
    pub source: Vec<u8>,
    /// What it unfolds to.
    pub unfolded: Unfolded,
}

/// What is known of a source, with its code for turns of these options.
///
/// # Errors
///
/// As of `play_in`, but for `Write`.
#[tactic(auto, using(crate::proofs::Refusing::refuses_text))]
pub fn study(options: &Options, alloc: Global, source: &[u8]) -> Result<Studied, PlayFault>
    ensures studied { IfOk result (IsStudied options.now source.now) }
    ensures refused { IfErr result (Refuses options.now source.now) }
{
    let code = code_of(options, alloc, source)?;
    let lines = lines_of(alloc, source)?;
    let tree = tree_of(alloc, source)?;
    let read = lines.lines.as_slice();
    let places = places_of(alloc, &tree, &code, read)?;
    let unfolded = unfolded_of(alloc, source)?;
    let uses = process_uses(alloc, unfolded.term())?;
    let source = Vec::from_slice(alloc, source)?;
    Ok(Studied {
        code,
        places,
        uses,
        source,
        unfolded,
    })
}

/// The logical lines of a source.
pub(crate) fn lines_of(alloc: Global, source: &[u8]) -> Result<Source, PlayFault>
    ensures found { IfOk result (λ s. LinesOf source.now (logical_lines s.lines.items)) }
    ensures refused { IfErr result (RefusesText source.now) }
{
    let lines = read_lines(alloc, source)?;
    Ok(lines)
}

/// The tree of a source.
fn tree_of(alloc: Global, source: &[u8]) -> Result<Program, PlayFault>
    ensures { IfErr result (RefusesText source.now) }
{
    let lines = read_lines(alloc, source)?;
    let tree = parse(alloc, &lines)?;
    Ok(tree)
}
