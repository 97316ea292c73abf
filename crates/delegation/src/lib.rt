// Delegating a typed item: its places to those of its window, offset by offset.
#![tactic(auto)]

ghost use Rattle.std.specs.Prelude.{◌+◌, ◌^◌, ◌<◌};
ghost use Rattle.words.specs.Sizes.{domains, place_of};
ghost use Rattle.interface.specs.Message.{delegations};
ghost use Rattle.places.specs.Table.{Sized};
ghost use Rattle.delegation.specs.Delegating.{GivenAt, Taken};

use layout::Place;
use windows::Pair;
use words::ranges;

// Delegates the place at an offset of the item to the place at an offset of its window. Answers whether it filled that.
fn give_at(table: &mut [u32], from: u32, to: u32, pair: Pair, at: u32, into: u32) -> bool
    requires { Sized table.old × (from < domains) × (to < domains) × (at < 2 ^ pair.item.order) × (into < 2 ^ pair.window.order) }
    ensures { GivenAt table.old table.new (place_of to pair.item.space (pair.window.base + into)) (place_of from pair.item.space (pair.item.base + at))
        pair.item.mask result }
{
    let item = pair.item;
    let window = pair.window;
    let space = item.space();
    let source = Place::of(from, space, item.at(at));
    let destination = Place::of(to, space, window.at(into));
    places::give(table, destination, source, item.mask())
}

// Delegates an item's places to those of its window, offset by offset, on the table as it stands. Answers how many places it filled: a loop and no chain, since each step changes the
// table.
pub fn delegate(table: &mut [u32], from: u32, to: u32, hotspot: u32, pair: Pair) -> u32
    requires { Sized table.old × (from < domains) × (to < domains) }
    ensures { Taken table.old table.new (delegations from to hotspot pair.item pair.window) result }
{
    let item_order = pair.item.order();
    let window_order = pair.window.order();
    let order = item_order.min(window_order);
    let item_offset = windows::offset(item_order, order, hotspot);
    let window_offset = windows::offset(window_order, order, hotspot);
    let size = ranges::size(order);
    let mut count = 0u32;
    for i in 0..size {
        if give_at(table, from, to, pair, item_offset + i, window_offset + i) {
            count += 1;
        }
    }
    count
}
