//! Files that are written whole, or not at all.
ghost use Rattle.std.specs.Prelude.{OnOk};
ghost use Rattle.occ_files.specs.Pieces.{AppendsText, IsSomeText, WritesSome};

use crate::pieces::{HELD, Pieces};
use std::alloc::Global;
use std::fs::{File, Metadata, OpenFile, OpenOptions, Permissions};
use std::io::{Error, ErrorKind, Write};
use std::os::unix::fs::MetadataExt;
use std::rt::Files;
use std::{fs, io};

/// How many names are tried for a file beside another.
const MOST_NAMES: u32 = 100;

/// Writes the file of this path: its whole text goes piece by piece into a new file beside it, which then takes its place with
/// the permissions of the old one. So where that fails, what stood there stands as it was. Where no file can be made
/// beside it, and what is no plain file, as a device or a link, is written in its place.
///
/// # Errors
///
/// What the system says of what it could not do.
pub fn save<R: Files, P: Pieces>(
    rt: &R,
    alloc: Global,
    path: &str,
    pieces: &mut P,
) -> io::Result<()>
    requires { P.can_write pieces.old }
    ensures { OnOk result (IsSomeText (P.is_left pieces.old)) }
{
    match fs::symlink_metadata(rt, path) {
        Ok(old) if old.is_file() => replace(rt, alloc, path, pieces, Some(old.permissions())),
        Ok(_) => write_in_place(rt, alloc, path, pieces),
        Err(error) if error.kind() == ErrorKind::NotFound => replace(rt, alloc, path, pieces, None),
        Err(error) => Err(error),
    }
}

/// Writes a new file beside the path and moves it there.
fn replace<R: Files, P: Pieces>(
    rt: &R,
    alloc: Global,
    path: &str,
    pieces: &mut P,
    permissions: Option<Permissions>,
) -> io::Result<()>
    requires { P.can_write pieces.old }
    ensures { OnOk result (IsSomeText (P.is_left pieces.old)) }
{
    for number in 0..MOST_NAMES {
        let beside = format!(in alloc; "{path}.new{number}")?;
        match make(rt, beside.as_str()) {
            Ok(file) => {
                return finish(rt, alloc, file, beside.as_str(), path, pieces, permissions);
            }
            Err(error) => match error.kind() {
                ErrorKind::AlreadyExists => {}
                ErrorKind::PermissionDenied | ErrorKind::InvalidFilename => {
                    return write_in_place(rt, alloc, path, pieces);
                }
                _ => return Err(error),
            },
        }
    }
    Err(Error::from(ErrorKind::AlreadyExists))
}

/// A file of this path, where there was none.
fn make<R: Files>(rt: &R, path: &str) -> io::Result<R::File> {
    OpenOptions::new()
        .write(true)
        .create_new(true)
        .open(rt, path)
}

/// Fills the file beside the path, and moves it there. Where that fails, the file beside it is gone.
fn finish<R: Files, P: Pieces>(
    rt: &R,
    alloc: Global,
    file: R::File,
    beside: &str,
    path: &str,
    pieces: &mut P,
    permissions: Option<Permissions>,
) -> io::Result<()>
    requires { P.can_write pieces.old }
    ensures { OnOk result (IsSomeText (P.is_left pieces.old)) }
{
    let mut file = file;
    let done = match fill(&mut file, alloc, pieces, permissions) {
        Ok(()) => fs::rename(rt, beside, path),
        Err(error) => Err(error),
    };
    if done.is_err() {
        let _ = fs::remove_file(rt, beside);
    }
    done
}

/// Writes the whole text, and gives the file its permissions.
fn fill<F: Write + OpenFile, P: Pieces>(
    file: &mut F,
    alloc: Global,
    pieces: &mut P,
    permissions: Option<Permissions>,
) -> io::Result<()>
    requires { P.can_write pieces.old }
    ensures { OnOk result (AppendsText F.contents P.is_left file.old file.new pieces.old) }
{
    write_whole(file, alloc, pieces)?;
    if let Some(permissions) = permissions {
        file.set_permissions(permissions)?;
    }
    file.sync_all()
}

/// Writes over what has this path.
fn write_in_place<R: Files, P: Pieces>(
    rt: &R,
    alloc: Global,
    path: &str,
    pieces: &mut P,
) -> io::Result<()>
    requires { P.can_write pieces.old }
    ensures { OnOk result (IsSomeText (P.is_left pieces.old)) }
{
    let mut file = File::create(rt, path)?;
    write_whole(&mut file, alloc, pieces)
}

/// Writes the whole text, of which a part is held at a time.
fn write_whole<W: Write, P: Pieces>(out: &mut W, alloc: Global, pieces: &mut P) -> io::Result<()>
    requires { P.can_write pieces.old }
    ensures { OnOk result (AppendsText W.contents P.is_left out.old out.new pieces.old) }
{
    let mut held = Vec::new(alloc);
    while pieces.write_next(&mut held)? {
        write_held(out, &mut held)?;
    }
    out.write_all(held.as_slice())
}

/// Writes the bytes that are held, where there are enough of them.
fn write_held<W: Write>(out: &mut W, held: &mut Vec<u8>) -> io::Result<()>
    ensures { OnOk result (WritesSome (W.contents out.old) (W.contents out.new) held.old.items
        held.new.items) }
{
    if held.len() < HELD {
        return Ok(());
    }
    out.write_all(held.as_slice())?;
    held.clear();
    Ok(())
}

/// Whether two paths name one plain file that there is, or one name in one folder.
pub fn are_one_file<R: Files>(rt: &R, one: &str, other: &str) -> bool {
    match (fs::metadata(rt, one), fs::metadata(rt, other)) {
        (Ok(one), Ok(other)) => one.is_file() && is_same(&one, &other),
        _ => are_one_name(rt, one, other),
    }
}

/// Whether the system knows both by one number.
fn is_same(one: &Metadata, other: &Metadata) -> bool {
    one.dev() == other.dev() && one.ino() == other.ino()
}

/// Whether two paths are one name in one folder.
fn are_one_name<R: Files>(rt: &R, one: &str, other: &str) -> bool {
    let ((one_folder, one_name), (other_folder, other_name)) = (parts_of(one), parts_of(other));
    one_name == other_name && are_one_folder(rt, one_folder, other_folder)
}

fn are_one_folder<R: Files>(rt: &R, one: &str, other: &str) -> bool {
    match (fs::metadata(rt, one), fs::metadata(rt, other)) {
        (Ok(one), Ok(other)) => is_same(&one, &other),
        _ => false,
    }
}

/// The folder of a path, and the name in it.
fn parts_of(path: &str) -> (&str, &str) {
    match path.rsplit_once('/') {
        Some(("", name)) => ("/", name),
        Some(parts) => parts,
        None => (".", path),
    }
}
