//! The files in which the lines of a joined text stand.
ghost use Rattle.std.specs.Prelude.{◌≡◌};
ghost use Rattle.occ_files.specs.Sources.{place_in_files};

/// The file in which a line of the whole source stands, by its number from 0, and the line's number in it. Of each file but the last
/// `ends` has the number of its last line in the whole.
pub fn place_in_files(mut ends: &[u32], line: u32) -> (usize, u32)
    ensures { result ≡ place_in_files 0 0 ends.entry.now line }
{
    let (mut file, mut before) = (0, 0);
    while let [end, rest @ ..] = ends {
        if line <= *end {
            break;
        }
        file += 1;
        before = *end;
        ends = rest;
    }
    (file, line.saturating_sub(before))
}
