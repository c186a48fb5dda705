//! Where a program leaves its files.
use crate::pieces::Pieces;
use crate::saving::save;
use std::alloc::Global;
use std::io;
use std::rt::Files;

/// Where a program leaves its files. What a function that is generic over it promises of files, it promises of each place
/// that can tell what was written into it.
pub trait Folder {
    ghost use Rattle.std.specs.Prelude.{Option, List, OnErr, OnOk};
    ghost use Rattle.occ_files.specs.Leaving.{LeavesNothing, LeavesText, Written};

    /// The files that were written whole, in this order; none where it isn't known.
    ghost left: { Self → Option (List Written) };

    /// Writes the file of this path: it has this text then, whatever stood there. Where that fails, it is not among those that
    /// were written.
    ///
    /// # Errors
    ///
    /// What the system says of what it could not do; and a refused growth.
    fn save<P: Pieces>(&mut self, path: &str, pieces: &mut P) -> io::Result<()>
        requires { P.can_write pieces.old }
        ensures saved { OnOk result
            (LeavesText (P.is_left pieces.old) (left self.old) (left self.new) path.now) }
        ensures failed { OnErr result (LeavesNothing (left self.old) (left self.new)) };
}

/// The files of the machine, each written by [`save`].
#[derive(Drop)]
pub struct Disk<'a, R> {
    files: &'a R,
    alloc: Global,
}

impl<'a, R: Files> Disk<'a, R> {
    pub fn new(files: &'a R, alloc: Global) -> Disk<'a, R> {
        Disk { files, alloc }
    }
}

impl<'a, R: Files> Folder for Disk<'a, R> {
    ghost use Rattle.std.specs.Prelude.{None};

    ghost left = { λ _. None };

    fn save<P: Pieces>(&mut self, path: &str, pieces: &mut P) -> io::Result<()> {
        save(self.files, self.alloc, path, pieces)
    }
}
