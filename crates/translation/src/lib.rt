// Translating a typed item: the range of the receiver that the sender's places descend from.
#![tactic(auto)]

ghost use Rattle.std.specs.Prelude.{Ok, ◌+◌, ◌^◌, ◌<◌, ◌≡◌, eqb, if◌then◌else◌};
ghost use Rattle.words.specs.Sizes.{domains, places};
ghost use Rattle.layout.specs.Numbers.{linked};
ghost use Rattle.descriptor.specs.Descriptors.{Proper};
ghost use Rattle.interface.specs.Places.{cap_at, places_in};
ghost use Rattle.interface.specs.Message.{nearest, sender_place, translate_item};
ghost use Rattle.places.specs.Table.{Sized};
ghost use Rattle.descent.specs.Walks.{Linked};
ghost use Rattle.windows.specs.Matching.{Matched};
ghost use Rattle.translation.specs.Translating.{lies_there};

use descriptor::{Range, Reason, Received};
use layout::{Place, Selector};
use marks::PlaceRange;
use words::{permissions, ranges, sizes};

// The sender's place at an offset of its range.
fn place_at(sender: u32, item: Range, offset: u32) -> Place
    requires { (sender < domains) × Proper item × (offset < 2 ^ item.order) }
    ensures { (result.0 ≡ sender_place sender item offset) × (result.0 < places) }
{
    Place::of(sender, item.space(), item.at(offset))
}

// The nearest strict ancestor of a place in a domain, if there is one.
fn nearest_in(table: &[u32], domain: u32, place: Place) -> Option<Place>
    requires { Sized table.now × Linked (cap_at table.now) × (domain < domains) × (place.0 < places) }
    ensures { result ≡ linked (nearest (cap_at table.now) domain place.0) }
{
    let places = PlaceRange {
        first: Place::first_of(domain),
        size: sizes::STRIDE,
    };
    descent::ancestor(table, place, places)
}

// R, where all the ancestors' range begins: the selector found at offset 0.
fn base_of(offset: u32, selector: Selector, base: Selector) -> Selector
    ensures { result.0 ≡ (if eqb offset 0 then selector.0 else base.0) }
{
    if offset == 0 { selector } else { base }
}

// Whether a selector lies at R + offset, R is aligned, and the selector lies inside the window.
fn lies_there(selector: u32, base: u32, order: u32, offset: u32, window: Range) -> bool
    requires { (order < 32) × (base + offset < 2 ^ 32) × Proper window }
    ensures { result ≡ lies_there selector base order offset window }
{
    let start = window.at(0).number();
    let end = start + ranges::size(window.order());
    (selector == base + offset)
        & ranges::is_aligned(order, base)
        & (start <= selector)
        & (selector < end)
}

// What the receiver is shown of an item that it is to have already: the range of the nearest ancestors. The first offset that has none, or whose one lies elsewhere, ends the search.
// It is left by a label, the form that is asked for here (docs/DECISIONS.md).
pub fn translate(table: &[u32], sender: u32, receiver: u32, item: Range, window: Range) -> Received
    requires { Sized table.now × Linked (cap_at table.now) × (sender < domains) × (receiver < domains) × Matched item window }
    ensures { result ≡ (translate_item (places_in table.now) sender receiver (Ok (item, window))).received }
{
    let order = item.order();
    let size = ranges::size(order);
    let mut base = item.at(0);
    let mut mask = item.mask();
    let shown = 'search: {
        for i in 0..size {
            let place = place_at(sender, item, i);
            let Some(above) = nearest_in(table, receiver, place) else {
                break 'search None;
            };
            let selector = above.selector();
            base = base_of(i, selector, base);
            if !lies_there(selector.number(), base.number(), order, i, window) {
                break 'search None;
            }
            let cap = places::load(table, place);
            mask = permissions::keep(mask, cap.permissions);
        }
        Some(Range::of(item.space(), base, order, mask))
    };
    shown.ok_or(Reason::TranslationBroke)
}
