//! A value that is let go by one call.
//!
//! Where a value of a large enum stands beside calls that may fail, it is let go at each of them, and each place has code
//! for each of the enum's variants. A value that is held is let go by one call at each place.
#![tactic(auto)]

pub mod letters;
pub mod parts;

ghost use Rattle.std.specs.Prelude.{◌≡◌};

/// A value that is let go by one call.
pub struct Held<T: Drop> {
    /// The value.
    pub value: T,
}

impl<T: Drop> Drop for Held<T> {
    fn drop(self) {
        let Held { value: _ } = self;
    }
}

impl<T: Drop> Held<T> {
    /// Holds a value.
    pub fn new(value: T) -> Held<T>
        ensures { result.value ≡ value }
    {
        Held { value }
    }

    /// The value, taken out.
    pub fn into_inner(self) -> T
        ensures { result ≡ self.value }
    {
        let Held { value } = self;
        value
    }
}
