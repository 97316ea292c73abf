// Revocation of permissions, and the census: each marks the descendants, then strips or lists the marked places.
#![tactic(auto)]

ghost use Rattle.std.specs.Prelude.{◌≡◌};
ghost use Rattle.interface.specs.Places.{Cap, cap_at, cap_table, places_in};
ghost use Rattle.interface.specs.Effects.{stripped, cut_caps};
ghost use Rattle.interface.specs.Census.{counted};
ghost use Rattle.marks.specs.PlaceBits.{bit_at};
ghost use Rattle.places.specs.Table.{Sized};
ghost use Rattle.descent.specs.Walks.{Linked, InSpace};
ghost use Rattle.tree.specs.Changing.{changed_where};

use layout::{Cap, Place};
use marks::{Marks, PlaceRange};
use reply::{Refusal, Reply};
use words::permissions;

// Removes a mask's permissions from every strict descendant of the places of a range, and from those places too if asked. A place left with none becomes null. The marks are found
// on the table as it is, before any place is stripped.
pub fn cut(table: &mut [u32], mask: u32, range: PlaceRange, self_too: bool)
    requires { Sized table.old × Linked (cap_at table.old) × InSpace range.first.0 range.size }
    ensures { table.new ≡ cap_table (cut_caps mask range.first.0 range.size self_too (cap_at table.old)) }
{
    let mut marked = Marks::blank(table);
    descent::mark_below(table, range, &mut marked);
    marked.set_range(range, self_too);
    change_marked(table, &marked, |cap| stripped(cap, mask));
}

// Changes what each of the marked places holds.
pub fn change_marked<F: Fn(Cap) -> Cap>(table: &mut [u32], marked: &Marks, change: F)
    requires { Sized table.old × F.IsAlwaysCallable change }
    ensures { (h : Cap → Cap) → ((cap left : Cap) → F.post change cap left → left ≡ h cap) →
        table.new ≡ cap_table (changed_where (bit_at marked.now) h (cap_at table.old)) }
{
    for place in marked.places() {
        let cap = places::load(table, place);
        places::store(table, place, change(cap));
    }
}

// A capability without a mask's permissions: null, where none is left.
fn stripped(cap: Cap, mask: u32) -> Cap
    ensures { result ≡ stripped mask cap }
{
    let left = permissions::remove(cap.permissions, mask);
    if left == 0 {
        return places::without_parent(0, 0);
    }
    Cap {
        permissions: left,
        ..cap
    }
}

// The census of a place on sound tables: its strict descendants in the list, rising, and their number.
pub fn census(place: u32, table: &[u32], list: &mut [u32]) -> Reply
    requires { Sized table.now × Linked (cap_at table.now) }
    ensures { record { reply = result; list = list.new } ≡ counted (places_in table.now) place list.old }
{
    let at = Place::found(place).ok_or(Refusal::BadPar)?;
    let cap = places::load(table, at);
    if !places::is_live(cap) {
        return Err(Refusal::BadCap);
    }
    let mut marked = Marks::blank(table);
    descent::mark_below(table, PlaceRange { first: at, size: 1 }, &mut marked);
    let count = marked.count();
    if list.len() < (count as usize) {
        return Err(Refusal::Short(count));
    }
    marked.list(list);
    Ok(count)
}
