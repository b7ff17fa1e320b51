// The resources of a handset's two antenna ports (document 02, U9).
ghost use Rattle.std.specs.Prelude.{◌≡◌};
ghost use Rattle.frame.specs.Refusals.{numbered};
ghost use Rattle.resource.specs.Ports.{second_port, ports_of};

use crate::{Cce, Resource, resource_of};
use frame::{Refusal, Settings};

// A PDCCH's resource for each antenna port: the first port's, and the second port's, where there are two.
#[derive(Clone, Copy, Debug, PartialEq, Eq)]
pub struct OnPorts {
    pub first: Resource,
    pub second: Option<Resource>,
}

// The second port's resource, one above the first port's; none where there is one port. No settings that are accepted come near the last
// number, which has none above it.
#[tactic(auto, unfolding(crate::specs::Ports::second_port))]
pub fn second_port(s: Settings, first: Resource) -> Option<Resource>
    ensures { result ≡ second_port s first.0 }
{
    if !s.has_second_port() {
        return None;
    }
    first.number().checked_add(1).map(Resource::new)
}

// The resources of the PDCCH at position m with first CCE c, in the window of uplink subframe n: that of each port.
#[tactic(auto, unfolding(crate::specs::Ports::ports_of))]
pub fn ports_of(s: Settings, n: u16, m: u16, c: Cce) -> Result<OnPorts, Refusal>
    ensures { numbered result ≡ ports_of s n m c.0 }
{
    let first = resource_of(s, n, m, c)?;
    let second = second_port(s, first);
    Ok(OnPorts { first, second })
}
