// The resource of a PDCCH, and its place back from a resource.
ghost use Rattle.std.specs.Prelude.{◌≡◌};
ghost use Rattle.frame.specs.Refusals.{numbered};
ghost use Rattle.numbers.specs.Answers.{resource_answer, inverse_answer};

use frame::Refusal;
use resource::{Cce, OnPorts, Resource};

// `second` is the second antenna port's resource, 0 where there is one port.
#[repr(C)]
#[derive(Clone, Copy, Default)]
pub struct ResourceAnswer {
    pub refusal: u16,
    pub resource: u16,
    pub second: u16,
}

impl From<Result<OnPorts, Refusal>> for ResourceAnswer {
    ghost from_gives = { λ x a. a ≡ resource_answer (numbered x) };

    fn from(x: Result<OnPorts, Refusal>) -> ResourceAnswer {
        match x {
            Ok(ports) => ResourceAnswer {
                refusal: 0,
                resource: ports.first.number(),
                second: ports.second.map_or(0, Resource::number),
            },
            Err(refusal) => ResourceAnswer {
                refusal: refusal.into(),
                ..ResourceAnswer::default()
            },
        }
    }
}

// The position and the first CCE of the PDCCH that has the resource; both 0 where refused.
#[repr(C)]
#[derive(Clone, Copy, Default)]
pub struct InverseAnswer {
    pub refusal: u16,
    pub position: u16,
    pub cce: u16,
}

impl From<Result<(u16, Cce), Refusal>> for InverseAnswer {
    ghost from_gives = { λ x a. a ≡ inverse_answer (numbered x) };

    fn from(x: Result<(u16, Cce), Refusal>) -> InverseAnswer {
        match x {
            Ok((position, cce)) => InverseAnswer {
                refusal: 0,
                position,
                cce: cce.number(),
            },
            Err(refusal) => InverseAnswer {
                refusal: refusal.into(),
                ..InverseAnswer::default()
            },
        }
    }
}
