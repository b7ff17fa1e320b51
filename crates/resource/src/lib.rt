// The PUCCH resource of a PDCCH, a grant or a release, and its place back from a resource (document 01, "Resources"); the resources of
// both antenna ports are in ports.rt (document 02, U9).
#![tactic(auto)]

mod map;
mod ports;

ghost use Rattle.std.specs.Prelude.{◌≡◌};
ghost use Rattle.frame.specs.Refusals.{numbered};
ghost use Rattle.resource.specs.Calls.{resource_of, inverse_of};

use frame::{Refusal, Settings, Window};
pub use map::{Map, cces_of, is_cce};
pub use ports::{OnPorts, ports_of, second_port};

// The number of a PDCCH's first CCE. CCEs and PUCCH resources are counted apart, by two tuple structs, as document 01 asks: only the
// map and its inverse lead from one count to the other. So the two are no instances of one type, and no `From`: with it `into` would
// take a number for either, and where one is meant for the other nobody would see it.
#[repr(C)]
#[derive(Clone, Copy, Debug, PartialEq, Eq)]
pub struct Cce(u16);

// The number of a PUCCH resource.
#[repr(C)]
#[derive(Clone, Copy, Debug, PartialEq, Eq)]
pub struct Resource(u16);

impl Cce {
    pub fn new(number: u16) -> Cce
        ensures { result.0 ≡ number }
    {
        Cce(number)
    }

    pub fn number(self) -> u16
        ensures { result ≡ self.0 }
    {
        self.0
    }
}

impl Resource {
    pub fn new(number: u16) -> Resource
        ensures { result.0 ≡ number }
    {
        Resource(number)
    }

    pub fn number(self) -> u16
        ensures { result ≡ self.0 }
    {
        self.0
    }
}

// The resource of the PDCCH at position m with first CCE c, in the window of uplink subframe n. It is part of each caller, so that the
// calls of a C caller keep to the stack that the header states.
#[inline(always)]
#[tactic(auto, using(frame::proofs::Refused::chain_refused, crate::proofs::Mapped::resource_mapped), unfolding(crate::specs::Calls::resource_of))]
pub fn resource_of(s: Settings, n: u16, m: u16, c: Cce) -> Result<Resource, Refusal>
    ensures { numbered result ≡ resource_of s n m c.0 }
{
    Map::of(Window::new(s, n)?).resource(m, c)
}

// The position and first CCE whose resource this is, in the window of uplink subframe n.
#[tactic(auto, using(frame::proofs::Refused::chain_refused, crate::proofs::Mapped::inverse_mapped), unfolding(crate::specs::Calls::inverse_of))]
pub fn inverse_of(s: Settings, n: u16, r: Resource) -> Result<(u16, Cce), Refusal>
    ensures { numbered result ≡ inverse_of s n r.0 }
{
    Map::of(Window::new(s, n)?).inverse(r)
}
