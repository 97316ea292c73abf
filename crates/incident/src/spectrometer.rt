// The domains of a spectrometer's controller: their ECs and portals, and where each has the ports of the shutter and of the warning lamp, and the page of the measured spectrum.
ghost use Rattle.std.specs.Prelude.{◌+◌, ◌≤◌, ◌<◌, ◌≡◌, true};
ghost use Rattle.words.specs.Sizes.{domains, io, object, selectors};
ghost use Rattle.words.specs.Ranges.{aligned};

use std::fmt;
use words::sizes;

// The domains, in the order in which they are made.
#[derive(Clone, Copy, PartialEq, Eq)]
pub(crate) enum Domain {
    Hypervisor,
    Root,
    Operating,
    Service,
    Test,
    Spare,
}

// The things that are lent. Where a sentence has just named them, the shutter's ports are `Them`, and the lamp's port is `It`.
#[derive(Clone, Copy, PartialEq, Eq)]
pub(crate) enum Thing {
    Shutter,
    Lamp,
    Spectrum,
    Them,
    It,
}

// The shutter's ports: the order of their range, and how many there are. The warning lamp's port is the next one after them in each domain.
const SHUTTER_ORDER: u32 = 2;

pub(crate) const SHUTTER_PORTS: u32 = 1 << SHUTTER_ORDER;

// The selector of the page of the measured spectrum, in each domain.
pub(crate) const PAGE: u32 = 5;

impl Domain {
    // A domain by its number, if the story has it.
    pub(crate) fn numbered(number: u32) -> Option<Domain> {
        match number {
            places::HYPERVISOR => Some(Domain::Hypervisor),
            places::ROOT => Some(Domain::Root),
            2 => Some(Domain::Operating),
            3 => Some(Domain::Service),
            4 => Some(Domain::Test),
            5 => Some(Domain::Spare),
            _ => None,
        }
    }

    // The number of a domain: that of a new one is the next.
    pub(crate) fn number(self) -> u32
        ensures { result < domains }
    {
        match self {
            Domain::Hypervisor => places::HYPERVISOR,
            Domain::Root => places::ROOT,
            Domain::Operating => 2,
            Domain::Service => 3,
            Domain::Test => 4,
            Domain::Spare => 5,
        }
    }

    // What a domain is called.
    pub(crate) fn name(self) -> &'static str {
        match self {
            Domain::Hypervisor => "hypervisor",
            Domain::Root => "root",
            Domain::Operating => "operating",
            Domain::Service => "service",
            Domain::Test => "test",
            Domain::Spare => "spare",
        }
    }

    // The EC of a domain. Objects take the numbers after that of the root's SC, in the order in which the root makes them.
    pub(crate) fn ec(self) -> u32 {
        match self {
            Domain::Hypervisor | Domain::Root => boot::ROOT_EC,
            Domain::Operating => boot::ROOT_SC + 4,
            Domain::Service => boot::ROOT_SC + 7,
            Domain::Test => boot::ROOT_SC + 10,
            Domain::Spare => boot::ROOT_SC + 13,
        }
    }

    // The selector of the portal to a domain's EC, in the root and in the domain that calls it. The root has that EC and the domain's PD right before the portal. To itself it
    // has one to receive from the hypervisor.
    pub(crate) fn portal(self) -> u32
        ensures { (2 ≤ result) × (result < selectors object) }
    {
        match self {
            Domain::Hypervisor | Domain::Root => 41,
            Domain::Operating => 44,
            Domain::Service => 47,
            Domain::Test => 50,
            Domain::Spare => 53,
        }
    }

    // The selector where a domain has the first of the shutter's ports: the root has them where the hypervisor has.
    pub(crate) fn ports(self) -> u32
        ensures { (aligned 2 result ≡ true) × (8 ≤ result) × (result + 8 ≤ selectors io) }
    {
        match self {
            Domain::Hypervisor | Domain::Root => 8,
            Domain::Operating => 20,
            Domain::Service => 32,
            Domain::Test => 40,
            Domain::Spare => 48,
        }
    }

    // The selector where a domain has the lamp's port.
    pub(crate) fn lamp_port(self) -> u32
        ensures { (1 ≤ result) × (result + 4 ≤ selectors io) }
    {
        self.ports() + SHUTTER_PORTS
    }

    // The descriptor of a thing, where a domain has it.
    pub(crate) fn range_of(self, thing: Thing) -> u32 {
        match thing {
            Thing::Shutter | Thing::Them => {
                requests::range(sizes::IO, self.ports(), SHUTTER_ORDER)
            }
            Thing::Lamp | Thing::It => requests::single(sizes::IO, self.lamp_port()),
            Thing::Spectrum => requests::single(sizes::MEMORY, PAGE),
        }
    }
}

// A domain as a sentence has it: the root needs no further word.
impl fmt::Display for Domain {
    fn fmt<W: fmt::Write>(&self, f: &mut fmt::Formatter<W>) -> fmt::Result {
        f.write_str(self.name())?;
        match self {
            Domain::Root => Ok(()),
            _ => f.write_str(" domain"),
        }
    }
}

// A domain as a sentence goes on with it.
#[derive(Clone, Copy)]
pub(crate) struct The {
    pub(crate) domain: Domain,
}

impl fmt::Display for The {
    fn fmt<W: fmt::Write>(&self, f: &mut fmt::Formatter<W>) -> fmt::Result {
        write!(f, " the {}", self.domain)
    }
}

// A domain as the one that something is given to.
#[derive(Clone, Copy)]
pub(crate) struct To {
    pub(crate) domain: Domain,
}

impl fmt::Display for To {
    fn fmt<W: fmt::Write>(&self, f: &mut fmt::Formatter<W>) -> fmt::Result {
        let domain = self.domain;
        write!(f, " to{}", The { domain })
    }
}

// What the story calls a thing.
impl fmt::Display for Thing {
    fn fmt<W: fmt::Write>(&self, f: &mut fmt::Formatter<W>) -> fmt::Result {
        f.write_str(match self {
            Thing::Shutter => "the shutter's ports",
            Thing::Lamp => "the lamp's port",
            Thing::Spectrum => "the spectrum's page",
            Thing::Them => "them",
            Thing::It => "it",
        })
    }
}

// The descriptor of the shutter's ports, where the root has them, with mask 0.
pub(crate) fn ports_with_mask_0() -> u32 {
    requests::masked_range(sizes::IO, Domain::Root.ports(), SHUTTER_ORDER, 0)
}
