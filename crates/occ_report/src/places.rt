//! The table of the places.
ghost use Rattle.std.specs.Prelude.{◌≡◌, map, option_map, slice_get};
ghost use Rattle.occ_report.specs.Places.{calls_of, name_of, stop_of, stops_of};

use crate::calls::Call;
use crate::stop::{Stop, first_of};
use occ_machine::Wait;
use std::marker::Model;

/// What is known of a process.
pub(crate) struct Located {
    /// The PROC that its branch calls, or else the one in whose body the branch stands.
    pub name: Vec<u8>,
    /// The places of its code at which it stops.
    pub stops: Vec<Stop>,
    /// The calls that its code goes through, behind those that led to where it begins.
    pub calls: Vec<Call>,
}

impl Drop for Located {
    fn drop(self) {
        let Located {
            name: _,
            stops: _,
            calls: _,
        } = self;
    }
}

/// Where the processes of a program stand in its text: by process number the PROC of the branch, the lines of all
/// places at which the process can stop, and the calls that its code goes through.
pub struct Places {
    all: Vec<Located>,
}

impl Drop for Places {
    fn drop(self) {
        let Places { all: _ } = self;
    }
}

impl Model for Places {
    ghost use Rattle.std.specs.Prelude.{List, map};
    ghost use Rattle.occ_report.specs.Places.{Known};
    ghost use Rattle.occ_report.specs.Located.{known};

    ghost Value = { List Known };

    ghost view = { λ p. map known p.all.items };
}

ghost use Rattle.occ_report.specs.Located.{known};

impl Places {
    /// The table of these.
    pub(crate) fn new(all: Vec<Located>) -> Places
        ensures { result ≡ map known all.items }
    {
        Places { all }
    }

    /// What is known of a process.
    fn located(&self, number: u32) -> Option<&Located>
        ensures { option_map (λ l. known l.now) result ≡ slice_get self.now number }
    {
        self.all.get(number as usize)
    }

    /// The name of the PROC that the branch of a process calls, or else of the one in whose body the branch stands; empty
    /// where it isn't known.
    pub fn name(&self, number: u32) -> &[u8]
        ensures { result.now ≡ name_of self.now number }
    {
        match self.located(number) {
            Some(located) => located.name.as_slice(),
            None => &[],
        }
    }

    /// The places at which a process can stop, as they stand in its code; none where they aren't known.
    pub fn stops(&self, number: u32) -> &[Stop]
        ensures { result.now ≡ stops_of self.now number }
    {
        match self.located(number) {
            Some(located) => located.stops.as_slice(),
            None => &[],
        }
    }

    /// The calls that the code of a process goes through, behind those that led to where it begins; none where they aren't known.
    pub fn calls(&self, number: u32) -> &[Call]
        ensures { result.now ≡ calls_of self.now number }
    {
        match self.located(number) {
            Some(located) => located.calls.as_slice(),
            None => &[],
        }
    }

    /// The stop at which a process stands that waits so and goes on at this place of its code.
    pub fn stop(&self, number: u32, wait: &Wait, place: u32) -> Option<Stop>
        ensures { result ≡ stop_of self.now number wait.now place }
    {
        first_of(wait, place, self.stops(number))
    }
}
