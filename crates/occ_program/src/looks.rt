//! How a watcher looks while a run goes on, and the lines of its last look.
ghost use Rattle.std.specs.Prelude.{◌≡◌, true, IfOk, IfSome};
ghost use Rattle.occ_shown.specs.Answers.{trace_text};

use occ_play::{Naming, Note, Shown, Watcher, watch_lines};
use std::alloc::{AllocError, Global};

/// How often the thread looks.
const LOOKS: u32 = 1_000_000;

/// Looks at the board so often.
pub(crate) fn look_on<J: Naming>(watcher: Watcher<J>) -> Watcher<J> {
    let mut watcher = watcher;
    for _ in 0..LOOKS {
        watcher = match watcher.look(|_| ()) {
            Ok((watcher, _)) => watcher,
            Err(watcher) => watcher,
        };
    }
    watcher
}

/// The lines of what a watcher is shown that was told the last note, where it is shown anything and there is memory for them.
pub(crate) fn last_lines<J: Naming>(
    alloc: Global,
    watcher: Watcher<J>,
    note: &Note<J>,
) -> Option<Vec<u8>>
    requires { note.now.last ≡ true }
    ensures { IfSome result (λ lines. lines.items ≡ trace_text note.now.entries) }
{
    let (_watcher, lines) = watcher
        .told(note)
        .look(
            |list: &[Shown]| -> Result<Vec<u8>, AllocError>
                ensures { IfOk result (λ lines. lines.items ≡ trace_text list.now) }
            { watch_lines(alloc, list) },
        )
        .ok()?;
    lines.ok()
}
