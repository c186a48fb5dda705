//! Compiled programs.
ghost use Rattle.std.specs.Prelude.{◌≡◌, ◌↔◌, IsTrue, IfOk, IfSome, IfNone, None, Some, length, map, slice_get};
ghost use Rattle.std.specs.Arc.{arc_value};
ghost use Rattle.occ_machine.specs.Compiled.{IsCompiled};
ghost use Rattle.occ_machine.specs.Made.{program_with};

use crate::body::Body;
use crate::channels::{copy_channels, same_channels};
use occ_term::{Channel, Errors};
use std::alloc::{AllocError, Global};
use std::marker::Model;
use std::sync::Arc;

/// A compiled program: a body for each process number, the channels, and what a fault does.
///
/// Each body does what its process's term does, in some program that keeps the usage rules and has
/// these channels: no other value of this type can be made.
pub struct Code {
    bodies: Vec<Arc<Body, Global>>,
    channels: Vec<Channel>,
    errors: Errors,
}

impl Drop for Code {
    fn drop(self) {
        let Code {
            bodies: _,
            channels: _,
            errors: _,
        } = self;
    }
}

impl Model for Code {
    ghost use Rattle.std.specs.Prelude.{map};
    ghost use Rattle.std.specs.Arc.{arc_value};
    ghost use Rattle.occ_machine.specs.Compiled.{Program, IsCompiled};

    ghost Value = { Program };

    ghost view = { λ c. record { bodies = map arc_value c.bodies.items; channels = c.channels.items; errors = c.errors } };

    ghost invariant = { λ c. IsCompiled (record { bodies = map arc_value c.bodies.items; channels = c.channels.items; errors = c.errors }) };
}

impl Code {
    /// The code with these bodies, channels and mode of errors.
    pub fn new(bodies: Vec<Arc<Body, Global>>, channels: Vec<Channel>, errors: Errors) -> Code
        requires { IsCompiled (program_with bodies channels errors) }
        ensures { result ≡ program_with bodies channels errors }
    {
        Code {
            bodies,
            channels,
            errors,
        }
    }

    /// What every code keeps: it was compiled from a program.
    pub fn compiled(&self)
        ensures { IsCompiled self.now }
    {
        let _bodies = &self.bodies;
    }

    /// How many processes there are.
    pub fn len(&self) -> usize
        ensures { result ≡ length self.now.bodies }
    {
        self.bodies.len()
    }

    /// The body of the process with this number.
    pub fn body(&self, number: usize) -> Option<&Arc<Body, Global>>
        ensures some { IfSome result
            (λ b. slice_get self.now.bodies number ≡ Some (arc_value b.now)) }
        ensures none { IfNone result (slice_get self.now.bodies number ≡ None) }
    {
        self.bodies.get(number)
    }

    /// The channels, from number 0 on.
    pub fn channels(&self) -> &[Channel]
        ensures { result.now ≡ self.now.channels }
    {
        &self.channels
    }

    /// What a fault does.
    pub fn errors(&self) -> Errors
        ensures { result ≡ self.now.errors }
    {
        self.errors
    }

    /// The same code, with this for what a fault does.
    pub fn with_errors(self, errors: Errors) -> Code
        ensures { result ≡ record self { errors = errors } }
    {
        let Code {
            bodies,
            channels,
            errors: _,
        } = self;
        Code {
            bodies,
            channels,
            errors,
        }
    }

    /// Whether both have the same content: the same bodies and channels, in the same order, and the same for what a
    /// fault does. The error is a refused growth.
    pub fn is_same(&self, alloc: Global, other: &Code) -> Result<bool, AllocError>
        ensures { IfOk result (λ same. IsTrue same ↔ (self.now ≡ other.now)) }
    {
        if self.errors != other.errors {
            return Ok(false);
        }
        if !same_bodies(&self.bodies, &other.bodies) {
            return Ok(false);
        }
        same_channels(alloc, &self.channels, &other.channels)
    }

    /// The same code once more, which shares its bodies with this one. The error is a refused growth.
    pub fn again(&self, alloc: Global) -> Result<Code, AllocError>
        ensures { IfOk result (λ c. c ≡ self.now) }
    {
        Ok(Code {
            bodies: shared_bodies(alloc, &self.bodies)?,
            channels: copy_channels(alloc, &self.channels)?,
            errors: self.errors,
        })
    }
}

fn same_bodies(bodies: &[Arc<Body, Global>], others: &[Arc<Body, Global>]) -> bool
    ensures { IsTrue result ↔ (map arc_value bodies.now ≡ map arc_value others.now) }
{
    if bodies.len() != others.len() {
        return false;
    }
    for i in 0..bodies.len() {
        if !bodies[i].is_same(&others[i]) {
            return false;
        }
    }
    true
}

fn shared_bodies(
    alloc: Global,
    bodies: &[Arc<Body, Global>],
) -> Result<Vec<Arc<Body, Global>>, AllocError>
    ensures { IfOk result (λ shared. map arc_value shared.items ≡ map arc_value bodies.now) }
{
    let mut shared = Vec::new(alloc);
    for body in bodies {
        shared.push(Arc::try_clone(body)?)?;
    }
    Ok(shared)
}
