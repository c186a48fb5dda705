//! Who stands at the foot of a chart.
ghost use Rattle.std.specs.Prelude.{◌≡◌};
ghost use Rattle.occ_chart.specs.Columns.{footing};

use std::marker::Model;

/// A process that stands where a run has come to, and in which words that is told.
pub struct Stub {
    process: u32,
    words: Vec<u8>,
}

impl Drop for Stub {
    fn drop(self) {
        let Stub {
            process: _,
            words: _,
        } = self;
    }
}

impl Model for Stub {
    ghost use Rattle.occ_chart.specs.Columns.{Footing, footing};

    ghost Value = { Footing };

    ghost view = { λ s. footing s.process s.words.items };
}

impl Stub {
    /// The process with this number, and these words.
    pub fn new(process: u32, words: Vec<u8>) -> Stub
        ensures { result ≡ footing process words.items }
    {
        Stub { process, words }
    }

    /// The number of the process.
    pub fn process(&self) -> u32
        ensures { result ≡ self.now.process }
    {
        self.process
    }

    /// The words.
    pub fn words(&self) -> &[u8]
        ensures { result.now ≡ self.now.words }
    {
        self.words.as_slice()
    }
}
