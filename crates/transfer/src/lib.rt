// A message from block to block: the untyped words, and the typed items, each translated or delegated in its turn.
#![tactic(auto)]

ghost use Rattle.std.specs.Prelude.{Err, Ok, ◌<◌, ◌≤◌, ◌≡◌};
ghost use Rattle.words.specs.Sizes.{domains};
ghost use Rattle.descriptor.specs.Descriptors.{why_null, ReadProper, ShownProper};
ghost use Rattle.interface.specs.Places.{cap_at, places_in};
ghost use Rattle.interface.specs.Message.{received_word, received_second, source_domain, delegate_item, transfer};
ghost use Rattle.places.specs.Table.{Sized};
ghost use Rattle.descent.specs.Walks.{Linked};
ghost use Rattle.blocks.specs.Fitting.{Blocks};
ghost use Rattle.delegation.specs.Delegating.{LiveLinks};
ghost use Rattle.transfer.specs.Typed.{item_by, Done};
ghost use Rattle.transfer.specs.Turns.{Ready, moved_by, Transferred};

use descriptor::{Descriptor, Reading, Reason, Received};
use interface::block;
use windows::Pair;
use words::sizes;

const ITEM_WORDS: usize = 2;

// What one typed item comes to: what the receiver is shown, and how many places were filled.
#[derive(Clone, Copy)]
struct Outcome {
    received: Received,
    filled: u32,
}

// An item that is null.
fn null_item(reason: Reason) -> Outcome
    ensures { result ≡ record { received = Err reason; filled = 0 } }
{
    Outcome {
        received: Err(reason),
        filled: 0,
    }
}

// The domain that an item is delegated from: the sender's, or domain 0 where H is set and the sender is the root.
fn source_domain(sender: u32, second: u32) -> u32
    ensures { (result ≡ source_domain sender second) × (result ≤ sender) }
{
    if ((second >> 11) % 2 == 1) & (sender == places::ROOT) {
        return places::HYPERVISOR;
    }
    sender
}

// The word of the descriptor that the receiver is given.
fn received_word(received: Received) -> u32
    requires { ShownProper received }
    ensures { result ≡ received_word received }
{
    match received {
        Err(_) => Descriptor::NULL.word(),
        Ok(range) => windows::word_of(range),
    }
}

// The second word that the receiver is given: the item's kind, and why it is null.
fn received_second(second: u32, received: Received) -> u32
    ensures { result ≡ received_second second (why_null received) }
{
    second % 2 + 2 * descriptor::why_null(received)
}

// Delegates an item. Where nothing is filled the item is null.
fn delegate_item(table: &mut [u32], sender: u32, receiver: u32, second: u32, pair: Pair) -> Outcome
    requires { Sized table.old × (sender < domains) × (receiver < domains) }
    ensures { Done table.old table.new (delegate_item (places_in table.old) sender receiver second (Ok (pair.item, pair.window))) result }
{
    let hotspot = second >> 12;
    let filled = delegation::delegate(
        table,
        source_domain(sender, second),
        receiver,
        hotspot,
        pair,
    );
    if filled == 0 {
        return null_item(Reason::NothingFilled);
    }
    Outcome {
        received: Ok(windows::destination(hotspot, pair)),
        filled,
    }
}

// One typed item on the table as it stands.
fn item(
    table: &mut [u32],
    sender: u32,
    receiver: u32,
    descriptor: u32,
    second: u32,
    translating: Reading,
    delegating: Reading,
) -> Outcome
    requires { Sized table.old × Linked (cap_at table.old) × (sender < domains) × (receiver < domains) × ReadProper translating × ReadProper delegating }
    ensures { Done table.old table.new (item_by (places_in table.old) sender receiver descriptor second translating delegating) result }
{
    if second % 2 == 1 {
        return match windows::matching(descriptor, delegating) {
            Err(reason) => null_item(reason),
            Ok((range, window)) => {
                let pair = Pair {
                    item: range,
                    window,
                };
                delegate_item(table, sender, receiver, second, pair)
            }
        };
    }
    match windows::matching(descriptor, translating) {
        Err(reason) => null_item(reason),
        Ok((range, window)) => Outcome {
            received: translation::translate(table, sender, receiver, range, window),
            filled: 0,
        },
    }
}

// The typed items in turn, each on the table that those before it left: a loop and no chain, since each step changes the table. Their words are received in the words above the untyped
// ones, from the end downward.
fn items(
    table: &mut [u32],
    sender: u32,
    receiver: u32,
    source: &[u32],
    upper: &mut [u32],
    typed: usize,
    translating: Reading,
    delegating: Reading,
) -> u32
    requires { Sized table.old × LiveLinks (cap_at table.old) × Ready sender receiver source.now upper.old typed translating delegating }
    ensures { Transferred table.old table.new upper.new
        (moved_by (places_in table.old) sender receiver source.now translating delegating upper.old typed) result }
{
    let top = upper.len();
    let mut filled = 0u32;
    for i in 0..typed {
        let before = ITEM_WORDS * i;
        let descriptor = source[sizes::BLOCK_WORDS - 1 - before];
        let second = source[sizes::BLOCK_WORDS - 2 - before];
        let outcome = item(
            table,
            sender,
            receiver,
            descriptor,
            second,
            translating,
            delegating,
        );
        let received = outcome.received;
        upper[top - 1 - before] = received_word(received);
        upper[top - 2 - before] = received_second(second, received);
        filled += outcome.filled;
    }
    filled
}

// Transfers a message from one domain to another: word 0 and the untyped words are copied, and the typed items go in turn. Answers how many places were filled.
pub fn message(
    table: &mut [u32],
    sender: u32,
    receiver: u32,
    source: &[u32],
    target: &mut [u32],
) -> u32
    requires { Sized table.old × LiveLinks (cap_at table.old) × (sender < domains) × (receiver < domains) × Blocks source.now target.old }
    ensures { Transferred table.old table.new target.new
        (transfer (places_in table.old) sender receiver source.now target.old) result }
{
    let word0 = source[0];
    let translating = windows::read(target[block::TRANSLATE_WINDOW]);
    let delegating = windows::read(target[block::DELEGATE_WINDOW]);
    blocks::copy_untyped(source, target);
    let above = blocks::HEAD_WORDS + (blocks::untyped_count(word0) as usize);
    let typed = blocks::typed_count(word0) as usize;
    items(
        table,
        sender,
        receiver,
        source,
        &mut target[above..],
        typed,
        translating,
        delegating,
    )
}
