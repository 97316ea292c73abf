// Repair of found tables: the places that keep the rules 11 and 12 are marked, then those whose chains break, on the table as it is found; and then these are emptied.
#![tactic(auto)]

ghost use Rattle.std.specs.Prelude.{◌≡◌, ◌<◌, true, length};
ghost use Rattle.words.specs.Sizes.{stride, places};
ghost use Rattle.interface.specs.Basics.{all_below};
ghost use Rattle.interface.specs.Places.{live, object_table_words, cap_at, tables, view};
ghost use Rattle.interface.specs.Damage.{sound};
ghost use Rattle.places.specs.Table.{Sized};
ghost use Rattle.descent.specs.Walks.{Marked};
ghost use Rattle.repair_rules.specs.Repair.{repaired, repairing};
ghost use Rattle.repair.specs.Mending.{link_keeps, Unmarked, ToldWhole, ToldLost, LostMarked, EmptiedLost, Mended, place_mends};

use layout::Place;
use marks::Marks;
use reply::{Refusal, Reply};
use words::sizes;

// A chain that is whole has no more places than there are depths.
const CHAIN_LIMIT: u32 = sizes::GREATEST_DEPTH + 1;

// Whether a place keeps the rules 11 and 12.
fn link_keeps(table: &[u32], objects: &[u32], place: u32) -> bool
    requires { Sized table.now × (length objects.now ≡ object_table_words) × (place < places) }
    ensures { result ≡ link_keeps (view table.now objects.now) place }
{
    let depth = place_rules::cap_at(table, place).depth;
    place_rules::live_or_null(table, objects, place) & (depth <= sizes::GREATEST_DEPTH)
}

// Marks the places that keep them.
fn mark_links(table: &[u32], objects: &[u32], links: &mut Marks)
    requires { Sized table.now × (length objects.now ≡ object_table_words) × Unmarked links.old }
    ensures { Marked (link_keeps (view table.now objects.now)) links.new }
{
    for at in 0..sizes::PLACES {
        let keeps = link_keeps(table, objects, at);
        links.set(Place::counted(at), keeps);
    }
}

// Whether the chain of a live place is whole: each of its places is marked, and it ends within as many steps as a whole one can have.
fn is_whole(table: &[u32], links: &Marks, place: Place) -> bool
    requires { Sized table.now × (place.0 < places) × (live (cap_at table.now place.0) ≡ true) }
    ensures { ToldWhole table.now links.now place.0 result }
{
    let mut at = place;
    for _ in 0..CHAIN_LIMIT {
        if !links.is_set(at) {
            return false;
        }
        let Some(above) = descent::parent(table, at) else {
            return true;
        };
        at = above;
    }
    false
}

// Whether a place is to be emptied: a null one is, and a live one outside domain 0 whose chain is not whole.
fn is_lost(table: &[u32], links: &Marks, place: Place) -> bool
    requires { Sized table.now × (place.0 < places) }
    ensures { ToldLost table.now links.now place.0 result }
{
    if !places::is_live(places::load(table, place)) {
        return true;
    }
    if place.number() < sizes::STRIDE {
        return false;
    }
    !is_whole(table, links, place)
}

// Marks the places that are to be emptied, and counts the live ones among them. A loop of its own beside that of `mark_links`, which counts nothing, and no chain, since each step
// sets a mark.
fn mark_lost(table: &[u32], links: &Marks, lost: &mut Marks) -> u32
    requires { Sized table.now × Unmarked lost.old }
    ensures { LostMarked table.now links.now lost.new result }
{
    let mut count = 0;
    for at in 0..sizes::PLACES {
        let place = Place::counted(at);
        let goes = is_lost(table, links, place);
        lost.set(place, goes);
        if goes & places::is_live(places::load(table, place)) {
            count += 1;
        }
    }
    count
}

// Empties the places that are to be emptied, by the marks of those that keep the rules 11 and 12, and counts the live ones among them. It and `mend` have one array of marks each and
// stand apart, so that neither's marks are known to begin with 0 (`Marks::blank`).
#[inline(never)]
fn empty_lost(table: &mut [u32], links: &Marks) -> u32
    requires { Sized table.old }
    ensures { EmptiedLost table.old links.now table.new result }
{
    let mut lost = Marks::blank(table);
    let count = mark_lost(table, links, &mut lost);
    tree::change_marked(table, &lost, |_| places::without_parent(0, 0));
    count
}

// Repairs a place table, whatever the records are. Answers how many capabilities that took away.
#[inline(never)]
pub fn mend(table: &mut [u32], objects: &[u32]) -> u32
    requires { Sized table.old × (length objects.now ≡ object_table_words) }
    ensures { Mended table.old objects.now table.new result }
{
    let mut links = Marks::blank(table);
    mark_links(table, objects, &mut links);
    empty_lost(table, &links)
}

// Whether a place of domain 0 is as at boot once null places are emptied.
fn place_mends(table: &[u32], place: Place) -> bool
    requires { Sized table.now × (place.0 < places) }
    ensures { result ≡ place_mends table.now place.0 }
{
    let cap = places::load(table, place);
    let fixed = boot::boot_cap(place);
    if places::is_live(cap) {
        return cap == fixed;
    }
    !places::is_live(fixed)
}

// Whether each is.
fn hypervisor_mends(table: &[u32]) -> bool
    requires { Sized table.now }
    ensures { result ≡ all_below stride (place_mends table.now) }
{
    (0..sizes::STRIDE).fold(
        true,
        |mends, at| mends & place_mends(table, Place::counted(at)),
    )
}

// Whether tables are sound once they are repaired.
fn is_mendable(places: &[u32], objects: &[u32]) -> bool
    ensures { result ≡ sound (repaired (tables places.now objects.now)) }
{
    if !boot::are_sized(places, objects) {
        return false;
    }
    let Some(pds) = record_rules::pds_in_turn(objects) else {
        return false;
    };
    if !record_rules::records_keep(objects, pds) {
        return false;
    }
    hypervisor_mends(places)
}

// Repairs two tables, if that makes them sound: tables whose lengths, records or domain 0 are wrong are refused, and stay. The answer is how many capabilities were lost.
pub fn repair(places: &mut [u32], objects: &[u32]) -> Reply
    ensures { record { reply = result; tables = tables places.new objects.now } ≡ repairing (tables places.old objects.now) }
{
    if !is_mendable(places, objects) {
        return Err(Refusal::Damaged);
    }
    Ok(mend(places, objects))
}
