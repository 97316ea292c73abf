// The hypercalls by name that send no message, each with the promise that it is that call, for programs that tell how the kernel is used. The root makes all creations and the REVOKE.
#![tactic(auto)]

ghost use Rattle.std.specs.Prelude.{◌≤◌, ◌<◌, ◌^◌, ◌≡◌, true};
ghost use Rattle.words.specs.Sizes.{greatest_order, selectors, spaces};
ghost use Rattle.words.specs.Ranges.{aligned};
ghost use Rattle.descriptor.specs.Descriptors.{describe, null};
ghost use Rattle.interface.specs.Boot.{root_ec, exc};
ghost use Rattle.interface.specs.Verdicts.{CREATE_PD, CREATE_EC, CREATE_PT, REVOKE, LOOKUP};
ghost use Rattle.requests.specs.Requests.{Asked, cpu, masked_range, full_range, without_message};

use boot::ROOT_EC;
use descriptor::Descriptor;
use interface::numbers;
use layout::Selector;
use reply::Reply;

// The selector where the root has its own PD.
const OWN_PD: u32 = boot::EXC;

// The CPU of the ECs that are made.
const CPU: u32 = 0;

// All bits of a descriptor's mask.
const FULL_MASK: u32 = 31;

// The descriptor of a range with a mask.
pub fn masked_range(space: u32, base: u32, order: u32, mask: u32) -> u32
    requires { (space < spaces) × (order ≤ greatest_order space) × (aligned order base ≡ true) × (base < selectors space) × (mask < 2 ^ 5) }
    ensures { result ≡ describe (masked_range space base order mask) }
{
    let Some(selector) = Selector::of(space, base) else {
        return Descriptor::NULL.word();
    };
    Descriptor::of(space, selector, order, mask).word()
}

// The descriptor of a range with all mask bits.
pub fn range(space: u32, base: u32, order: u32) -> u32
    requires { (space < spaces) × (order ≤ greatest_order space) × (aligned order base ≡ true) × (base < selectors space) }
    ensures { result ≡ describe (full_range space base order) }
{
    masked_range(space, base, order, FULL_MASK)
}

// The descriptor of one selector.
pub fn single(space: u32, selector: u32) -> u32
    requires { (space < spaces) × (selector < selectors space) }
    ensures { result ≡ describe (full_range space selector 0) }
{
    range(space, selector, 0)
}

// Makes a call that sends no message. The two tables stay two, as the kernel's functions have them.
fn ask(
    number: u32,
    caller: u32,
    first: u32,
    second: u32,
    third: u32,
    places: &mut [u32],
    objects: &mut [u32],
) -> Reply
    ensures { Asked places.old objects.old places.new objects.new result (without_message number caller first second third) }
{
    let source: [u32; 0] = [];
    let mut target: [u32; 0] = [];
    kernel::hypercall(
        number,
        caller,
        first,
        second,
        third,
        0,
        0,
        0,
        places,
        objects,
        &source,
        &mut target,
    )
}

// Makes a domain that starts with nothing.
pub fn create_pd(selector: u32, places: &mut [u32], objects: &mut [u32]) -> Reply
    ensures { Asked places.old objects.old places.new objects.new result (without_message CREATE_PD root_ec selector exc null) }
{
    ask(
        numbers::CREATE_PD,
        ROOT_EC,
        selector,
        OWN_PD,
        Descriptor::NULL.word(),
        places,
        objects,
    )
}

// Makes an EC in the domain of a PD.
pub fn create_ec(selector: u32, pd: u32, places: &mut [u32], objects: &mut [u32]) -> Reply
    ensures { Asked places.old objects.old places.new objects.new result (without_message CREATE_EC root_ec selector pd cpu) }
{
    ask(
        numbers::CREATE_EC,
        ROOT_EC,
        selector,
        pd,
        CPU,
        places,
        objects,
    )
}

// Makes another EC in the root's own domain.
pub fn create_own_ec(selector: u32, places: &mut [u32], objects: &mut [u32]) -> Reply
    ensures { Asked places.old objects.old places.new objects.new result (without_message CREATE_EC root_ec selector exc cpu) }
{
    create_ec(selector, OWN_PD, places, objects)
}

// Makes a portal to an EC.
pub fn create_pt(selector: u32, ec: u32, places: &mut [u32], objects: &mut [u32]) -> Reply
    ensures { Asked places.old objects.old places.new objects.new result (without_message CREATE_PT root_ec selector exc ec) }
{
    ask(
        numbers::CREATE_PT,
        ROOT_EC,
        selector,
        OWN_PD,
        ec,
        places,
        objects,
    )
}

// Asks what a domain has around the base of a range.
pub fn look_up(caller: u32, range: u32, places: &mut [u32], objects: &mut [u32]) -> Reply
    ensures { Asked places.old objects.old places.new objects.new result (without_message LOOKUP caller range 0 0) }
{
    ask(numbers::LOOKUP, caller, range, 0, 0, places, objects)
}

// Takes back what was lent of a range of the root's, which keeps its own.
pub fn revoke(range: u32, places: &mut [u32], objects: &mut [u32]) -> Reply
    ensures { Asked places.old objects.old places.new objects.new result (without_message REVOKE root_ec range 0 0) }
{
    ask(numbers::REVOKE, ROOT_EC, range, 0, 0, places, objects)
}
