//! Storing a part of a message into cells in a row.
ghost use Rattle.std.specs.Prelude.{◌≡◌};
ghost use Rattle.occ_term.specs.Storing.{values_in};
ghost use Rattle.occ_machine.specs.Machine.{frame_in};
ghost use Rattle.occ_proc.specs.Passing.{span_of};

use crate::spots::Cells;
use occ_term::{Frame, Part};

/// Stores the values of a part into cells, no more than there are.
#[inline(always)]
pub fn store_in(cells: Cells, part: &Part, frame: &mut Frame)
    ensures { frame.new ≡ frame_in (span_of cells) (values_in part.now) frame.old }
{
    match part {
        Part::One(_, value) => {
            if 0 < cells.count {
                frame.set(cells.first, *value);
            }
        }
        Part::Many(_, values) | Part::Counted(_, values) => {
            store_values(cells, values.as_slice(), frame);
        }
    }
}

fn store_values(cells: Cells, values: &[i64], frame: &mut Frame)
    ensures { frame.new ≡ frame_in (span_of cells) values.now frame.old }
{
    if cells.count < values.len() as u64 {
        frame.set_span(cells.first, &values[..cells.count as usize]);
    } else {
        frame.set_span(cells.first, values);
    }
}
