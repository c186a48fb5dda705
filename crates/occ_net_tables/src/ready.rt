//! The numbers of the processes that may take a turn, in rising order.
ghost use Rattle.std.specs.Prelude.{◌≡◌, ◌≤◌, ◌<◌, ◌+◌, ◌%◌, insert, length, remove, vec_capacity, vec_len};
ghost use Rattle.occ_machine.specs.SameStop.{IsRising};
ghost use Rattle.occ_net_tables.specs.Ready.{put_in};
ghost use Rattle.occ_net_tables.specs.Room.{HasOneMore};

/// Of how many numbers at most each is moved by itself.
const FEW: usize = 16;

/// Puts a number among rising ones, where there is room for it.
#[inline(always)]
pub(crate) fn insert(ready: &mut Vec<u32>, number: u32)
    requires rising { IsRising ready.old.items }
    requires room { vec_len ready.old < vec_capacity ready.old }
    ensures items { ready.new.items ≡ put_in number ready.old.items }
    ensures room { HasOneMore ready.old ready.new }
{
    if ready.len() > FEW {
        insert_far(ready, number);
        return;
    }
    let mut at = ready.len();
    ready.push_reserved(number);
    while at > 0 && number <= ready[at - 1] {
        ready[at] = ready[at - 1];
        at -= 1;
        ready[at] = number;
    }
}

/// The number at this place is taken out.
#[inline(always)]
pub(crate) fn take_out(ready: &mut Vec<u32>, place: usize)
    requires { place < vec_len ready.old }
    ensures items { ready.new.items ≡ remove ready.old.items place }
    ensures room { vec_len ready.new < vec_capacity ready.new }
{
    let last = ready.len() - 1;
    if last - place > FEW {
        ready.remove(place);
        return;
    }
    let mut at = place;
    while at < last {
        ready[at] = ready[at + 1];
        at += 1;
    }
    ready.take_last();
}

/// Puts a number among rising ones, with one search and one move of all that stand behind it.
#[inline(never)]
fn insert_far(ready: &mut Vec<u32>, number: u32)
    requires rising { IsRising ready.old.items }
    requires room { vec_len ready.old < vec_capacity ready.old }
    ensures items { ready.new.items ≡ put_in number ready.old.items }
    ensures room { HasOneMore ready.old ready.new }
{
    let place = place_for(ready, number);
    let Ok(()) = ready.insert(place, number) else {
        unreachable!()
    };
}

/// The first place at which no smaller number stands.
fn place_for(ready: &[u32], number: u32) -> usize
    requires { IsRising ready.now }
    ensures within { result ≤ length ready.now }
    ensures place { insert ready.now result number ≡ put_in number ready.now }
{
    let mut low = 0;
    let mut high = ready.len();
    while low < high {
        let middle = low + (high - low) / 2;
        if ready[middle] < number {
            low = middle + 1;
        } else {
            high = middle;
        }
    }
    low
}

/// The place that a choice of `which` selects among so many. Mostly few are ready, and a division by a number that is known here is a
/// multiplication, where the processor's own takes as long as twenty of them.
#[inline(always)]
pub(crate) fn place_among(which: u32, count: usize) -> usize
    requires { 0 < count }
    ensures { result ≡ which % count }
{
    let which = which as usize;
    if which < count {
        return which;
    }
    match count {
        1 => 0,
        2 => which % 2,
        3 => which % 3,
        _ => which % count,
    }
}
