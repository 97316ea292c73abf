// A typed item's range and its window: reading and matching them, the part of them around the hotspot, and the word of a range.
#![tactic(auto)]

ghost use Rattle.std.specs.Prelude.{◌+◌, ◌%◌, ◌^◌, ◌<◌, ◌≤◌, min, ◌≡◌};
ghost use Rattle.words.specs.Ranges.{rounded};
ghost use Rattle.descriptor.specs.Descriptors.{describe, reading, matched, Proper};
ghost use Rattle.windows.specs.Matching.{Matched, destination_of};

use descriptor::{Descriptor, Match, Range, Reading};
use words::ranges;

// An item's range with its window: two proper ranges of one space.
#[derive(Clone, Copy)]
pub struct Pair {
    pub item: Range,
    pub window: Range,
    ghost matched: { Matched item window },
}

// Where the part of an order that a delegation uses begins in a side of it: around the hotspot.
pub fn offset(side: u32, order: u32, hotspot: u32) -> u32
    requires { (side < 32) × (order ≤ side) }
    ensures { (result ≡ rounded order (hotspot % 2 ^ side)) × (result + 2 ^ order ≤ 2 ^ side) }
{
    ranges::round_down(order, hotspot % ranges::size(side))
}

// The range that a delegation fills.
pub fn destination(hotspot: u32, pair: Pair) -> Range
    ensures { result ≡ destination_of hotspot pair.item pair.window }
{
    let item = pair.item;
    let window = pair.window;
    let window_order = window.order();
    let order = item.order().min(window_order);
    let base = window.at(offset(window_order, order, hotspot));
    Range::of(item.space(), base, order, item.mask())
}

// The word of a range's descriptor.
pub fn word_of(range: Range) -> u32
    requires { Proper range }
    ensures { result ≡ describe range }
{
    Descriptor::of(range.space(), range.at(0), range.order(), range.mask()).word()
}

// What the word of a descriptor says.
pub fn read(word: u32) -> Reading
    ensures { result ≡ reading word }
{
    Descriptor::from_word(word).read()
}

// An item's range with its window, by the word of the item's descriptor and what the window says.
pub fn matching(descriptor: u32, window: Reading) -> Match
    ensures { result ≡ matched (reading descriptor) window }
{
    read(descriptor).matching(window)
}
