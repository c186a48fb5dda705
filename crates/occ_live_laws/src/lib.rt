//! Laws for runs that read the keyboard while they go on.
//!
//! A replay has the keyboard's bytes from the start. Of a turn only two ends look at whether one is left: an input from the keyboard,
//! and a choice that would take another arm if there were one. So a replay of which no turn ends so without a byte does not depend on
//! what follows behind its bytes: with more of them it is the same replay, with more left. A run may therefore begin without any,
//! and get more just before a turn that would look past those that it has. At every moment it is the replay for all bytes so far.
//!
//! Each function's contract is the law; its body does nothing.
#![tactic(auto)]

ghost use Rattle.occ_live_laws.specs.Examples.{DeafRows, HearingRows};
ghost use Rattle.occ_live_laws.specs.Live.{BytesAhead, EndsForAll, LiveAtEnd, LiveReplays, LooksMatter, MoreBytes, NobodyWaits, OthersAreDeaf, ShownGrows, ShownStays, TurnsWithMore, WithinReplays};

/// What a process does that does not wait for the keyboard is the same with a byte as without.
pub fn others_are_deaf()
    ensures { OthersAreDeaf }
{}

/// A replay that never looks past its bytes is a replay.
pub fn within_replays()
    ensures { WithinReplays }
{}

/// A replay that never looks past its bytes is the same one with more of them.
pub fn more_bytes()
    ensures { MoreBytes }
{}

/// Where no turn looked past the bytes, no process waits for one.
pub fn nobody_waits()
    ensures { NobodyWaits }
{}

/// A turn that does not look past the bytes is the same one with more of them.
pub fn turns_with_more()
    ensures { TurnsWithMore }
{}

/// A turn that looks past the bytes is another one where there is a byte more.
pub fn looks_matter()
    ensures { LooksMatter }
{}

/// A replay that gets bytes while it goes on is at every moment the one for all of them so far, and any behind these.
pub fn live_replays()
    ensures { LiveReplays }
{}

/// Once no byte is left, it goes on as any replay does.
pub fn live_at_end()
    ensures { LiveAtEnd }
{}

/// Bytes that are left and were not taken might be any others.
pub fn bytes_ahead()
    ensures { BytesAhead }
{}

/// What the screen has while a run goes on is a beginning of what it has in the end.
pub fn shown_stays()
    ensures { ShownStays }
{}

/// The same where it is known which bytes there are.
pub fn shown_grows()
    ensures { ShownGrows }
{}

/// A run that has ended has ended for whatever bytes would have followed.
pub fn ends_for_all()
    ensures { EndsForAll }
{}

/// For whom a byte of the keyboard makes no difference, and for whom it does.
pub fn small_choices()
    ensures deaf { DeafRows }
    ensures hearing { HearingRows }
{}
