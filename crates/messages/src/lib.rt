// Messages of one typed item by name, each with the promise that it is that CALL, for programs that tell how the kernel is used: a range is lent, or taken from the hypervisor.
#![tactic(auto)]

ghost use Rattle.std.specs.Prelude.{◌≡◌};
ghost use Rattle.interface.specs.Boot.{root_ec};
ghost use Rattle.requests.specs.Requests.{Asked};
ghost use Rattle.messages.specs.Messages.{delegate, delegate_from_hypervisor, item_block, ItemWords, window_block, with_one_item};

use boot::ROOT_EC;
use interface::block::DELEGATE_WINDOW;
use interface::numbers;
use reply::Reply;
use words::sizes;

// The words of a message block that a message of one typed item has.
const COUNTS: usize = 0;

const ITEM_SECOND: usize = sizes::BLOCK_WORDS - 2;

const ITEM_DESCRIPTOR: usize = sizes::BLOCK_WORDS - 1;

// The counts of such a message, and its item's second word where the item is delegated, by the caller or out of the hypervisor's domain.
const ONE_ITEM: u32 = 65536;

const DELEGATE: u32 = 1;

const DELEGATE_FROM_HYPERVISOR: u32 = 2049;

// What the words of a message of one typed item say.
pub fn item_words()
    ensures { ItemWords }
{}

// The sender's block of a message of one typed item.
fn item_block(item: u32, second: u32) -> [u32; sizes::BLOCK_WORDS]
    ensures { result ≡ item_block item second }
{
    let mut block = [0u32; sizes::BLOCK_WORDS];
    block[COUNTS] = ONE_ITEM;
    block[ITEM_DESCRIPTOR] = item;
    block[ITEM_SECOND] = second;
    block
}

// The receiver's block of such a message: it accepts what is delegated in a window.
fn window_block(window: u32) -> [u32; sizes::BLOCK_WORDS]
    ensures { result ≡ window_block window }
{
    let mut block = [0u32; sizes::BLOCK_WORDS];
    block[DELEGATE_WINDOW] = window;
    block
}

// Sends a message of one typed item, to a receiver that accepts it in a window.
fn send(
    caller: u32,
    portal: u32,
    item: u32,
    second: u32,
    window: u32,
    places: &mut [u32],
    objects: &mut [u32],
) -> Reply
    ensures { Asked places.old objects.old places.new objects.new result (with_one_item caller portal item second window) }
{
    let source = item_block(item, second);
    let mut target = window_block(window);
    kernel::hypercall(
        numbers::CALL,
        caller,
        portal,
        0,
        0,
        0,
        0,
        0,
        places,
        objects,
        &source,
        &mut target,
    )
}

// Lends a range of the caller's to the domain behind a portal.
pub fn lend(
    caller: u32,
    portal: u32,
    item: u32,
    window: u32,
    places: &mut [u32],
    objects: &mut [u32],
) -> Reply
    ensures { Asked places.old objects.old places.new objects.new result (with_one_item caller portal item delegate window) }
{
    send(caller, portal, item, DELEGATE, window, places, objects)
}

// Gives the root a range of the hypervisor's, at the same selectors, through a portal to an EC of the root's own.
pub fn take(portal: u32, range: u32, places: &mut [u32], objects: &mut [u32]) -> Reply
    ensures { Asked places.old objects.old places.new objects.new result (with_one_item root_ec portal range delegate_from_hypervisor range) }
{
    send(
        ROOT_EC,
        portal,
        range,
        DELEGATE_FROM_HYPERVISOR,
        range,
        places,
        objects,
    )
}
