//! A file that a run leaves.
ghost use Rattle.std.specs.Prelude.{IfErr, OnErr, OnOk};
ghost use Rattle.occ_files.specs.Leaving.{LeavesNothing, LeavesOne};
ghost use Rattle.occ_play_inputs.specs.Failures.{FailsToWrite};
ghost use Rattle.occ_program.specs.Pages.{LeavesPage};

use occ_files::{Folder, Whole};
use occ_play_inputs::failure::of_write;
use occ_play_inputs::{Failure, Stream};

/// A text, and the path of the file that it goes into.
#[derive(Drop)]
pub(crate) struct Page<'a> {
    pub(crate) path: &'a str,
    pub(crate) text: Vec<u8>,
}

/// Writes a text into the file of this path.
pub(crate) fn write_text<F: Folder>(
    folder: &mut F,
    stream: Stream,
    path: &str,
    text: &[u8],
) -> Result<(), Failure>
    ensures left { OnOk result
        (LeavesOne (F.left folder.old) (F.left folder.new) path.now text.now) }
    ensures kept { OnErr result (LeavesNothing (F.left folder.old) (F.left folder.new)) }
    ensures failed { IfErr result (FailsToWrite stream) }
{
    match folder.save(path, &mut Whole::new(text)) {
        Ok(()) => Ok(()),
        Err(error) => Err(of_write(stream, error)),
    }
}

/// Writes the file, where there is one to write.
pub(crate) fn write_page<F: Folder>(
    folder: &mut F,
    stream: Stream,
    page: &Option<Page<'_>>,
) -> Result<(), Failure>
    ensures left { OnOk result (LeavesPage (F.left folder.old) (F.left folder.new) page.now) }
    ensures kept { OnErr result (LeavesNothing (F.left folder.old) (F.left folder.new)) }
    ensures failed { IfErr result (FailsToWrite stream) }
{
    match page {
        Some(page) => write_text(folder, stream, page.path, page.text.as_slice()),
        None => Ok(()),
    }
}
