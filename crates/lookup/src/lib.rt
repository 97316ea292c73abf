// LOOKUP.
#![tactic(auto)]

ghost use Rattle.std.specs.Prelude.{◌≡◌, ◌&&◌, List, ℕ, ◌+◌, ◌^◌, ◌<◌, ◌≤◌, eqb};
ghost use Rattle.words.specs.Sizes.{domains};
ghost use Rattle.words.specs.Sizes.{places as placeCount};
ghost use Rattle.words.specs.Ranges.{rounded};
ghost use Rattle.descriptor.specs.Descriptors.{Proper};
ghost use Rattle.descriptor.specs.declared.Reading.TheVariants.{Good};
ghost use Rattle.interface.specs.Places.{live, cap_at, view};
ghost use Rattle.interface.specs.Verdicts.{Call, reply_of};
ghost use Rattle.interface.specs.Lookup.{lookup, uniform, largest};
ghost use Rattle.interface.specs.Lookup.{found as foundRange};
ghost use Rattle.places.specs.Table.{Sized};
ghost use Rattle.capabilities.specs.Callers.{Called};

use descriptor::{Descriptor, Range, Reading};
use layout::{Cap, ObjectNumber, Place, Selector};
use reply::{Refusal, Reply};
use words::{ranges, sizes};

// Whether a capability is live, with some permissions and the resource that is an offset past another.
fn continues(cap: Cap, permissions: u32, resource: u32, offset: u32) -> bool
    ensures { result ≡ (live cap && eqb cap.permissions permissions && eqb cap.resource (resource + offset)) }
{
    places::is_live(cap)
        & (cap.permissions == permissions)
        & (cap.resource as u64 == resource as u64 + offset as u64)
}

// Whether the places of the range of an order around a selector of a space, which begins at a place, are all live, with equal permissions and resources rising by one.
fn is_uniform(places: &[u32], first: Place, selector: u32, order: u32) -> bool
    requires { Sized places.now × (order < 32) × (first.0 + (rounded order selector + 2 ^ order) ≤ placeCount) }
    ensures { result ≡ uniform (λ k. cap_at places.now (first.0 + k)) selector order }
{
    let low = ranges::round_down(order, selector);
    let size = ranges::size(order);
    let permissions = places::load(places, first.after(selector)).permissions;
    let resource = places::load(places, first.after(low)).resource;
    (0..size).all(|offset| {
        let cap = places::load(places, first.after(low + offset));
        continues(cap, permissions, resource, offset)
    })
}

// The largest order, of at most the greatest of the space, of such a range around a selector, or 0.
fn largest_order(places: &[u32], first: Place, selector: u32, greatest: u32) -> u32
    requires { Sized places.now × (greatest < 32) × (selector < 2 ^ greatest) × (first.0 + 2 ^ greatest ≤ placeCount) }
    ensures { (result ≡ largest (λ k. cap_at places.now (first.0 + k)) selector greatest) × (result ≤ greatest) }
{
    for order in (1..=greatest).rev() {
        if is_uniform(places, first, selector, order) {
            return order;
        }
    }
    0
}

// The descriptor of the largest range around a range's base, or the null descriptor where nothing is held there.
fn found(places: &[u32], domain: u32, range: Range) -> u32
    requires { Sized places.now × (domain < domains) × Proper range × ((p : ℕ) → p < placeCount → (cap_at places.now p).permissions < 2 ^ 5) }
    ensures { (objects : List ℕ) → result ≡ foundRange (view places.now objects) domain (Good range) }
{
    let space = range.space();
    let selector = range.at(0).number();
    let first = Place::of(domain, space, Selector::wrapped(0));
    let cap = places::load(places, first.after(selector));
    if !places::is_live(cap) {
        return Descriptor::NULL.word();
    }
    let order = largest_order(places, first, selector, sizes::greatest_order(space));
    let base = Selector::wrapped(ranges::round_down(order, selector));
    Descriptor::of(space, base, order, cap.permissions).word()
}

// LOOKUP on sound tables: the largest range around a descriptor's base, as a descriptor, or the null descriptor where nothing is held there.
pub fn look_up(caller: ObjectNumber, descriptor: u32, places: &[u32], objects: &[u32]) -> Reply
    requires { Called places.now objects.now caller.0 }
    ensures { (c : Call) → c.caller ≡ caller.0 → c.first ≡ descriptor → result ≡ reply_of (lookup (view places.now objects.now) c) }
{
    match Descriptor::from_word(descriptor).read() {
        Reading::Null => Ok(Descriptor::NULL.word()),
        Reading::Malformed => Err(Refusal::BadPar),
        Reading::Good(range) => {
            let domain = capabilities::domain(places, objects, caller);
            Ok(found(places, domain, range))
        }
    }
}
