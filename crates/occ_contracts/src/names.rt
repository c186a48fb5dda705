//! Numbers that are given out while a program is unfolded: a step on two equal states of them gives the same ones.
ghost use Rattle.std.specs.Prelude.{◌≡◌, ◌≤◌, IfErr, IsErr};
ghost use Rattle.occ_check_meaning.specs.Numbers.{most_depth};
ghost use Rattle.occ_check_lines.specs.View.{numbers_of};
ghost use Rattle.occ_check_lines.specs.declared.fault.CheckFault.TheVariants.{Memory};
ghost use Rattle.occ_contracts.specs.Agreement.{Agree, BothGive};

use occ_check_lines::fault::CheckFault;
use occ_check_lines::numbers::{Numbers, deeper};
use occ_held::letters::Letters;
use occ_term::{Primitive, Protocol};
use std::alloc::Global;

/// The cells of a variable are fixed.
pub fn more_cells_twice(
    one: &mut Numbers,
    other: &mut Numbers,
    alloc: Global,
    primitive: Primitive,
    name: &Letters,
    sizes: &[u32],
) -> (Result<u32, CheckFault>, Result<u32, CheckFault>)
    requires { numbers_of other.old ≡ numbers_of one.old }
    ensures given { Agree (λ n. n) (λ e. e ≡ Memory) result.0 result.1 }
    ensures left { BothGive (λ _ _. numbers_of one.new ≡ numbers_of other.new) result.0 result.1 }
{
    (
        one.more_cells(alloc, primitive, name, sizes),
        other.more_cells(alloc, primitive, name, sizes),
    )
}

/// The channels of a declaration are fixed.
pub fn more_channels_twice(
    one: &mut Numbers,
    other: &mut Numbers,
    alloc: Global,
    protocol: &Protocol,
    name: &Letters,
    sizes: &[u32],
) -> (Result<u32, CheckFault>, Result<u32, CheckFault>)
    requires { numbers_of other.old ≡ numbers_of one.old }
    ensures given { Agree (λ n. n) (λ e. e ≡ Memory) result.0 result.1 }
    ensures left { BothGive (λ _ _. numbers_of one.new ≡ numbers_of other.new) result.0 result.1 }
{
    (
        one.more_channels(alloc, protocol, name, sizes),
        other.more_channels(alloc, protocol, name, sizes),
    )
}

/// The number of a branch of a PAR is fixed.
pub fn more_processes_twice(
    one: &mut Numbers,
    other: &mut Numbers,
) -> (Result<u32, CheckFault>, Result<u32, CheckFault>)
    requires { numbers_of other.old ≡ numbers_of one.old }
    ensures given { Agree (λ n. n) (λ e. e ≡ Memory) result.0 result.1 }
    ensures left { BothGive (λ _ _. numbers_of one.new ≡ numbers_of other.new) result.0 result.1 }
{
    (one.more_processes(), other.more_processes())
}

/// The identity of a protocol with a name is fixed.
pub fn more_protocols_twice(
    one: &mut Numbers,
    other: &mut Numbers,
    line: u32,
) -> (Result<u64, CheckFault>, Result<u64, CheckFault>)
    requires { numbers_of other.old ≡ numbers_of one.old }
    ensures given { Agree (λ n. n) (λ e. e ≡ Memory) result.0 result.1 }
    ensures left { BothGive (λ _ _. numbers_of one.new ≡ numbers_of other.new) result.0 result.1 }
{
    (one.more_protocols(line), other.more_protocols(line))
}

/// Whether there may be a node at a depth is fixed.
pub fn node_twice(
    one: &mut Numbers,
    other: &mut Numbers,
    depth: u32,
) -> (Result<(), CheckFault>, Result<(), CheckFault>)
    requires { numbers_of other.old ≡ numbers_of one.old }
    ensures given { Agree (λ n. n) (λ e. e ≡ Memory) result.0 result.1 }
    ensures left { BothGive (λ _ _. numbers_of one.new ≡ numbers_of other.new) result.0 result.1 }
{
    (one.node(depth), other.node(depth))
}

/// So it is where no node is counted.
pub fn no_node_twice(
    one: &mut Numbers,
    other: &mut Numbers,
    depth: u32,
) -> (Result<(), CheckFault>, Result<(), CheckFault>)
    requires { numbers_of other.old ≡ numbers_of one.old }
    ensures given { Agree (λ n. n) (λ e. e ≡ Memory) result.0 result.1 }
    ensures left { BothGive (λ _ _. numbers_of one.new ≡ numbers_of other.new) result.0 result.1 }
{
    (one.no_node(depth), other.no_node(depth))
}

/// How deep it is so many levels further down is fixed.
pub fn deeper_twice(depth: u32, levels: usize) -> (Result<u32, CheckFault>, Result<u32, CheckFault>)
    requires { depth ≤ most_depth }
    ensures { Agree (λ n. n) (λ e. e ≡ Memory) result.0 result.1 }
{
    (deeper(depth, levels), deeper(depth, levels))
}

/// Where there are no nodes yet there is room for one.
pub fn first_node(numbers: &mut Numbers) -> Result<(), CheckFault>
    requires { numbers.old.nodes ≡ 0 }
    ensures { IfErr result (λ e. e ≡ Memory) }
{
    numbers.node(0)
}

/// A node is refused under 200 others.
pub fn too_deep_a_node(numbers: &mut Numbers) -> Result<(), CheckFault>
    ensures { IsErr result }
{
    numbers.node(200)
}
