//! A board, and its watchers.
ghost use Rattle.std.specs.Prelude.{◌≡◌, List, [], false};
ghost use Rattle.occ_board.specs.Traces.{publishing};
ghost use Rattle.occ_term.specs.Runs.{Entry};

use core::mem::replace_with;
use occ_board::{Board, Naming, Opened, Publisher, Shown, Watcher};
use occ_term::{End, Message, Name, Part, Parts, Primitive, Text};
use std::alloc::{AllocError, Global};
use std::marker::Brand;
use std::process::Abort;
use std::sync::Wait;
use std::test::Fail;

// The byte 65 to the screen, with this number.
fn shown(alloc: Global, number: u64) -> Result<Shown, AllocError> {
    let name = Name::new(alloc, b"screen")?;
    let tag = Text::new(alloc, b"t")?;
    let message = Message {
        tag: Some(0),
        items: Parts::one(Part::One(Primitive::Byte, 65)),
    };
    Ok(Shown::new(
        number,
        1,
        name,
        End::Process(0),
        End::Screen,
        Some(tag),
        message,
    ))
}

// The length of the list, and its last entry's number.
fn read<J: Naming>(watcher: Watcher<J>) -> Result<(Watcher<J>, (usize, u64)), Fail> {
    let read = watcher.look(|list| {
        (
            list.len(),
            match list.last() {
                Some(shown) => shown.number(),
                None => 0,
            },
        )
    });
    Ok(read.ok().ok_or("the board is open")?)
}

// What a watcher reads before an entry is appended, before it is published, and after.
fn read_thrice<J: Naming, R: Wait>(
    rt: &R,
    alloc: Global,
    publisher: &mut Publisher<J>,
    watcher: Watcher<J>,
) -> Result<[(usize, u64); 3], Fail>
    requires fresh { publisher.old ≡ publishing [] [] false }
    requires may { (xs : List Entry) → J.may xs }
{
    let (watcher, first) = read(watcher)?;
    let added = publisher.append(shown(alloc, 7)?).is_ok();
    let (watcher, second) = read(watcher)?;
    if !added {
        return Err("memory".into());
    }
    replace_with(publisher, rt, |publisher, rt| publisher.publish(rt))
        .ok()
        .ok_or("memory")?;
    let (_, third) = read(watcher)?;
    Ok([first, second, third])
}

fn looks<J: Naming, R: Wait + Abort>(rt: &R, alloc: Global, opened: Opened) -> Result<(), Fail>
    requires book { opened ≡ J.book }
    requires may { (xs : List Entry) → J.may xs }
{
    let (mut publisher, mut watchers) = match Board::new::<J>(opened, alloc, 8) {
        Ok(board) => board,
        Err(_) => return Err("a board".into()),
    };
    let read = match watchers.pop() {
        Some(watcher) => read_thrice(rt, alloc, &mut publisher, watcher),
        None => Err("a watcher".into()),
    };
    let count = publisher.published().len();
    publisher.end(rt);
    assert!(rt; count == 1);
    assert!(rt; read? == [(0, 0), (0, 0), (1, 7)]);
    match watchers.pop() {
        Some(watcher) => assert!(rt; watcher.look(|list| list.len()).is_err()),
        None => return Err("a watcher".into()),
    }
    Ok(())
}

#[test]
fn a_published_entry_is_seen(rt: HostRuntime) -> Result<(), Fail> {
    looks::<Brand, _>(&rt, rt.alloc(), Opened::new())
}
