//! A writer that breaks, at each write in turn.
use occ_play::{Counted, Plan, PlayFault, play, status_of};
use std::alloc::Global;
use std::io;
use std::io::Write;
use std::process::Abort;

/// It takes at most two bytes a write, and from a given write on it fails or takes none.
#[derive(Drop)]
struct Breaking<'a> {
    taken: &'a mut Vec<u8>,
    writes_left: u32,
    takes_none: bool,
}

impl Write for Breaking<'_> {
    fn write(&mut self, bytes: &[u8]) -> io::Result<usize> {
        if self.writes_left == 0 {
            return if self.takes_none {
                Ok(0)
            } else {
                Err(io::Error::from(io::ErrorKind::Other))
            };
        }
        self.writes_left -= 1;
        let count = bytes.len().min(2);
        self.taken.extend_from_slice(&bytes[..count])?;
        Ok(count)
    }

    fn flush(&mut self) -> io::Result<()> {
        Ok(())
    }
}

const SOURCE: &[u8] =
    b"PROC main (CHAN OF BYTE keyboard, screen)\n  SEQ\n    screen ! 'A'\n    screen ! 'B'\n    screen ! 'C'\n    STOP\n:\n";

/// Eleven bytes, so six writes.
const ANSWER: &[u8] = b"ABC\nstopped\n";

/// What was written, where so many writes are taken before the first that breaks.
fn check_writes(rt: &impl Abort, alloc: Global, writes: u32, takes_none: bool) {
    let mut taken = Vec::new(alloc);
    let mut out = Counted::new(Breaking {
        taken: &mut taken,
        writes_left: writes,
        takes_none,
    });
    let played = play(alloc, SOURCE, b"", &Plan::Turns(100), false, &mut out);
    let failures = out.failures();
    drop(out);
    let status = status_of(&played);
    match &played {
        Ok(_) => {
            assert!(rt; writes >= 6);
            assert!(rt; failures == 0 && status == 2);
            assert!(rt; taken.as_slice() == ANSWER);
        }
        Err(PlayFault::Write { written }) => {
            assert!(rt; writes < 6);
            assert!(rt; failures == 1 && status == 6);
            assert!(rt; *written == u64::from(writes) * 2);
            assert!(rt; taken.len() as u64 == *written);
            assert!(rt; ANSWER.starts_with(taken.as_slice()));
        }
        Err(_) => assert!(rt; false, "another fault"),
    }
}

#[test]
fn stops_at_the_first_failure(rt: HostRuntime) {
    for takes_none in [false, true] {
        for writes in 0..8u32 {
            check_writes(&rt, rt.alloc(), writes, takes_none);
        }
    }
}
