//! The numbers that are given out while a program is unfolded.

ghost use Rattle.std.specs.Prelude.{◌++◌, ◌+◌, ◌<◌, ◌≡◌, ◌≤◌, IfOk, OnOk, Some, length, min, nat_le};
ghost use Rattle.occ_term.specs.Messages.{product};
ghost use Rattle.occ_term.specs.Sizes.{no_size, with_node};
ghost use Rattle.occ_term.specs.UnfoldedProgram.{byte_channel, most_cells};
ghost use Rattle.occ_check_meaning.specs.Numbers.{at_start, component_names, deeper, more_cells, more_channels, more_processes, more_protocols, most_depth};
ghost use Rattle.occ_check_meaning.specs.Scope.{keep};
ghost use Rattle.occ_check_lines.specs.View.{Answers, Counts, Makes, TakesRoom, numbers_of};

use crate::fault::CheckFault;
use occ_held::letters::Letters;
use occ_term::{Cell, Channel, MOST_CELLS, Name, Primitive, Protocol};
use sqlite_items::Items;
use std::alloc::{AllocError, Global};

/// How many channels a program may have.
const MOST_CHANNELS: usize = 4096;
/// How many processes a program may have.
const MOST_PROCESSES: u32 = 4096;
/// How many nodes a program may have.
const MOST_NODES: u32 = 100000;
/// How deep a node may stand.
const MOST_DEPTH: u32 = 200;

/// The cells and the channels that are declared so far, and how many processes, named protocols and nodes there are.
#[derive(Drop)]
pub struct Numbers {
    /// The cells, from number 0 on.
    pub cells: Vec<Cell>,
    /// The channels, from number 0 on.
    pub channels: Vec<Channel>,
    /// How many processes there are.
    pub processes: u32,
    /// The lines at which protocols with names are declared.
    pub protocols: Vec<u32>,
    /// How many nodes there are.
    pub nodes: u32,
}

impl Numbers {
    /// The main process and the first three channels are there. The error is a refused growth.
    pub fn at_start(alloc: Global) -> Result<Numbers, AllocError>
        ensures { Makes numbers_of result at_start }
    {
        let mut channels = Vec::new(alloc);
        channels.push(channel_of_bytes(alloc, b"keyboard")?)?;
        channels.push(channel_of_bytes(alloc, b"screen")?)?;
        channels.push(channel_of_bytes(alloc, b"error")?)?;
        Ok(Numbers {
            cells: Vec::new(alloc),
            channels,
            processes: 1,
            protocols: Vec::new(alloc),
            nodes: 0,
        })
    }

    /// Gives out the cells of a variable, a named value or an index, and answers the first of them.
    ///
    /// # Errors
    ///
    /// `TooLarge` past 1,048,576 cells, and `Memory`.
    pub fn more_cells(
        &mut self,
        alloc: Global,
        primitive: Primitive,
        name: &Letters,
        sizes: &[u32],
    ) -> Result<u32, CheckFault>
        ensures counts { Counts result self.new
            (more_cells primitive name.now sizes.now (numbers_of self.old)) }
        ensures first { IfOk result (λ first. first ≡ length self.old.cells.items) }
    {
        let first = first_of_more(self.cells.len(), components(sizes), MOST_CELLS)?;
        let name = Name::of(alloc, name.copy()?)?;
        let mut names = Vec::new(alloc);
        component_names(alloc, &mut names, &name, sizes)?;
        for name in names {
            self.cells.push(Cell { name, primitive })?;
        }
        Ok(first)
    }

    /// Gives out the channels of a declaration, and answers the first of them.
    ///
    /// # Errors
    ///
    /// `TooLarge` past 4,096 channels, and `Memory`.
    pub fn more_channels(
        &mut self,
        alloc: Global,
        protocol: &Protocol,
        name: &Letters,
        sizes: &[u32],
    ) -> Result<u32, CheckFault>
        ensures counts { Counts result self.new
            (more_channels protocol.now name.now sizes.now (numbers_of self.old)) }
        ensures first { IfOk result (λ first. first ≡ length self.old.channels.items) }
    {
        let first = first_of_more(self.channels.len(), components(sizes), MOST_CHANNELS)?;
        let name = Name::of(alloc, name.copy()?)?;
        let mut names = Vec::new(alloc);
        component_names(alloc, &mut names, &name, sizes)?;
        for name in names {
            let protocol = protocol.copy(alloc)?;
            self.channels.push(Channel { name, protocol })?;
        }
        Ok(first)
    }

    /// Gives out a branch of a PAR, and answers its number.
    ///
    /// # Errors
    ///
    /// `TooLarge` past 4,096 processes.
    pub fn more_processes(&mut self) -> Result<u32, CheckFault>
        ensures counts { Counts result self.new (more_processes (numbers_of self.old)) }
        ensures number { IfOk result (λ number. number ≡ self.old.processes) }
    {
        let number = self.processes;
        if number < MOST_PROCESSES {
            self.processes = number + 1;
            Ok(number)
        } else {
            Err(CheckFault::TooLarge)
        }
    }

    /// Counts a protocol with a name, which is declared at this line, and answers its number.
    ///
    /// # Errors
    ///
    /// `Memory`.
    pub fn more_protocols(&mut self, line: u32) -> Result<u64, CheckFault>
        ensures counts { Counts result self.new (Some (more_protocols (numbers_of self.old))) }
        ensures number { IfOk result (λ number. number ≡ length self.old.protocols.items) }
    {
        let number = self.protocols.len();
        self.protocols.push(line)?;
        Ok(number as u64)
    }

    /// Counts one node, under so many nodes that stand round it.
    ///
    /// # Errors
    ///
    /// `TooLarge` past 100,000 nodes, and where it would stand deeper than 200.
    pub fn node(&mut self, depth: u32) -> Result<(), CheckFault>
        ensures counts { TakesRoom result self.old self.new depth (with_node no_size) }
        ensures within { IfOk result (λ _. depth < most_depth) }
    {
        if depth < MOST_DEPTH && self.nodes < MOST_NODES {
            self.nodes += 1;
            Ok(())
        } else {
            Err(CheckFault::TooLarge)
        }
    }

    /// Counts no node at this depth.
    ///
    /// # Errors
    ///
    /// `TooLarge` where there are too many nodes already, or too many stand round it.
    pub fn no_node(&mut self, depth: u32) -> Result<(), CheckFault>
        ensures { TakesRoom result self.old self.new depth no_size }
    {
        if depth <= MOST_DEPTH && self.nodes <= MOST_NODES {
            Ok(())
        } else {
            Err(CheckFault::TooLarge)
        }
    }
}

/// How deep it is so many levels further down, none of which is a node.
///
/// # Errors
///
/// `TooLarge` past a depth of 200.
pub fn deeper(depth: u32, levels: usize) -> Result<u32, CheckFault>
    requires { depth ≤ most_depth }
    ensures deep { Answers result (deeper depth levels) }
    ensures within { IfOk result (λ deep. deep ≤ most_depth) }
{
    if levels <= (MOST_DEPTH - depth) as usize {
        Ok(depth + levels as u32)
    } else {
        Err(CheckFault::TooLarge)
    }
}

fn channel_of_bytes(alloc: Global, name: &[u8]) -> Result<Channel, AllocError>
    ensures { IfOk result (λ channel. channel ≡ byte_channel name.now) }
{
    let name = Name::new(alloc, name)?;
    let protocol = Protocol::Simple(Items::new(alloc), Primitive::Byte);
    Ok(Channel { name, protocol })
}

/// The number of the first of so many more, where there are so many already.
///
/// # Errors
///
/// `TooLarge` where they are more than the most that there may be.
fn first_of_more(len: usize, count: u32, most: usize) -> Result<u32, CheckFault>
    requires few { most ≤ most_cells }
    ensures { Answers result (keep (nat_le (len + count) most) len) }
{
    match most.checked_sub(len) {
        Some(left) if count as usize <= left => Ok(len as u32),
        _ => Err(CheckFault::TooLarge),
    }
}

/// How many components an array of these sizes has, up to the largest `u32`.
pub fn components(sizes: &[u32]) -> u32
    ensures { result ≡ min (product sizes.now) 4294967295 }
{
    let mut count = 1_u32;
    for size in sizes {
        count = count.saturating_mul(*size);
    }
    count
}

/// The names of the components of an array of these sizes, after others: the last subscript moves fastest.
#[tactic(auto, unfolding(occ_check_meaning::specs::Numbers::component_names))]
fn component_names(
    alloc: Global,
    names: &mut Vec<Name>,
    name: &Name,
    sizes: &[u32],
) -> Result<(), AllocError>
    ensures { OnOk result
        (names.new.items ≡ names.old.items ++ component_names name.now sizes.now) }
{
    match sizes.split_first() {
        None => {
            names.push(name.copy()?)?;
            Ok(())
        }
        Some((size, others)) => {
            let array = name.shared(alloc)?;
            for k in 0..*size {
                let component = array.component(alloc, k)?;
                component_names(alloc, names, &component, others)?;
            }
            Ok(())
        }
    }
}
