//! Who stands at the foot of a chart.
ghost use Rattle.std.specs.Prelude.{◌≡◌, IfOk, OnOk, length, min};
ghost use Rattle.occ_explaining.specs.Charting.{AddsFoot, AddsFooting, AreFeet};

use occ_chart::{Stub, foot_of};
use occ_net_tables::Tables;
use occ_term::Channel;
use std::alloc::{AllocError, Global};

/// Adds a process that stands there in these words, where there are some.
fn push_foot(stubs: &mut Vec<Stub>, number: u32, words: Option<Vec<u8>>) -> Result<(), AllocError>
    ensures { OnOk result (AddsFooting number words stubs.old stubs.new) }
{
    if let Some(words) = words {
        stubs.push(Stub::new(number, words))?;
    }
    Ok(())
}

/// Adds the process with this number, where it waits or never goes on.
fn push_task(
    alloc: Global,
    stubs: &mut Vec<Stub>,
    channels: &[Channel],
    tables: &Tables,
    number: u32,
) -> Result<(), AllocError>
    ensures { OnOk result (AddsFoot tables.now channels.now number stubs.old stubs.new) }
{
    match tables.task(number) {
        Some(task) => {
            let words = foot_of(alloc, &task.wait, channels)?;
            push_foot(stubs, number, words)
        }
        None => Ok(()),
    }
}

/// Those of the first so many processes that wait or never go on.
pub(crate) fn feet(
    alloc: Global,
    channels: &[Channel],
    tables: &Tables,
    count: u32,
) -> Result<Vec<Stub>, AllocError>
    ensures { IfOk result (AreFeet tables.now channels.now count) }
{
    let mut stubs = Vec::new(alloc);
    for number in 0..count {
        push_task(alloc, &mut stubs, channels, tables, number)?;
    }
    Ok(stubs)
}
