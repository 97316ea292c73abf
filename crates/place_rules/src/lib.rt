// The rules that a place keeps, each as it is stated, and whether places in a row are all 0.
#![tactic(auto)]

ghost use Rattle.std.specs.Prelude.{◌≡◌, ◌+◌, ◌<◌, ◌≤◌, ◌||◌, eqb, length};
ghost use Rattle.words.specs.Sizes.{spaces, space_of, places};
ghost use Rattle.interface.specs.Places.{nothing, object_table_words, place_table_words, live, cap_at, tables, view, places_in};
ghost use Rattle.interface.specs.Damage.{same_cap, fixed_place, live_place, parent_fits, lineage_keeps};
ghost use Rattle.record_rules.specs.RecordKeeping.{records_in};
ghost use Rattle.place_rules.specs.PlaceKeeping.{greatest_allowed, extent_of, blank, Around};

use layout::{Cap, Place};
use words::{permissions, sizes};

// A domain is cut into as many parts as a word has values, so that a product that wraps takes whole domains off: these parts, and those of one place, rounded up.
const WHOLE: u64 = 1 << 32;

const PART: u64 = (WHOLE - 1) / sizes::STRIDE as u64 + 1;

// A space, and where it begins and ends in its domain, in such parts.
#[derive(Clone, Copy)]
pub struct Extent {
    pub space: u32,
    from: u64,
    end: u64,
}

// What the place holds that a loop over the places has counted to.
pub fn cap_at(table: &[u32], place: u32) -> Cap
    requires { (length table.now ≡ place_table_words) × (place < places) }
    ensures { result ≡ cap_at table.now place }
{
    places::load(table, Place::counted(place))
}

// The space of the place that a loop over the places has counted to.
pub fn space_of(place: u32) -> u32
    requires { place < places }
    ensures { result ≡ space_of place }
{
    Place::counted(place).space()
}

// Where a space begins and ends.
pub fn extent_of(space: u32) -> Extent
    requires { space < spaces }
    ensures { result ≡ extent_of space }
{
    let start = sizes::space_start(space);
    Extent {
        space,
        from: PART * (start as u64),
        end: PART * ((start + sizes::selectors(space)) as u64),
    }
}

// Whether a place is of a space: the parts of its domain that come before it are among the space's.
fn is_of_space(place: Place, extent: Extent) -> bool
    requires { (place.0 < places) × (extent.space < spaces) × (extent ≡ extent_of extent.space) }
    ensures { result ≡ eqb (space_of place.0) extent.space }
{
    let before = PART * (place.number() as u64) % WHOLE;
    (extent.from <= before) & (before < extent.end)
}

// Rule 2: domain 0 is as at boot.
pub fn fixed_keeps(table: &[u32], place: u32) -> bool
    requires { (length table.now ≡ place_table_words) × (place < places) }
    ensures { result ≡ fixed_place (places_in table.now) place }
{
    if sizes::STRIDE <= place {
        return true;
    }
    cap_at(table, place) == boot::boot_cap(Place::counted(place))
}

// Rule 10: a null place is all 0.
pub fn null_keeps(cap: Cap) -> bool
    ensures { result ≡ (live cap || same_cap cap nothing) }
{
    places::is_live(cap) || cap == places::without_parent(0, 0)
}

// Whether the words of so many places from one on are all 0. Each is looked at, without leaving early, so that the compiler makes vector code.
pub fn is_blank(table: &[u32], first: u32, count: u32) -> bool
    requires { (length table.now ≡ place_table_words) × (first + count ≤ places) }
    ensures { result ≡ blank table.now first count }
{
    let start = sizes::PLACE_WORDS * (first as usize);
    let end = start + sizes::PLACE_WORDS * (count as usize);
    table[start..end]
        .iter()
        .fold(true, |blank, &word| blank & (word == 0))
}

// Whether a place may be the parent of a capability in a space. A place that has the capability's permissions is live.
pub fn parent_fits(table: &[u32], extent: Extent, cap: Cap, parent: Place) -> bool
    requires { (length table.now ≡ place_table_words) × (0 < cap.permissions) × (extent.space < spaces) × (extent ≡ extent_of extent.space) × (parent.0 < places) }
    ensures { result ≡ parent_fits (places_in table.now) extent.space cap parent.0 }
{
    let above = places::load(table, parent);
    is_of_space(parent, extent)
        & (above.resource == cap.resource)
        & permissions::is_within(cap.permissions, above.permissions)
        & (above.depth as u64 + 1 == cap.depth as u64)
}

// Whether a place has a fitting parent or none.
fn lineage_keeps(table: &[u32], place: u32, space: u32, cap: Cap) -> bool
    requires { (length table.now ≡ place_table_words) × (space ≡ space_of place) × (cap ≡ cap_at table.now place) × (0 < cap.permissions) }
    ensures { result ≡ lineage_keeps (places_in table.now) place }
{
    if cap.parent == 0 {
        return (cap.depth == 0) & ((space == sizes::OBJECT) | (place < sizes::STRIDE));
    }
    let Some(parent) = Place::linked(cap.parent) else {
        return false;
    };
    parent_fits(table, extent_of(space), cap, parent)
}

// The greatest permissions that a capability for a number in a space may have: none where the number is no resource's. A free record has none either.
fn greatest_allowed(objects: &[u32], space: u32, resource: u32) -> u32
    requires { (length objects.now ≡ object_table_words) × (space < spaces) }
    ensures { result ≡ greatest_allowed (records_in objects.now) space resource }
{
    if space == sizes::OBJECT {
        if sizes::RECORDS <= resource {
            return 0;
        }
        return objects::greatest_of(record_rules::kind_of(objects, resource));
    }
    if sizes::PAGE_SELECTORS <= resource {
        return 0;
    }
    objects::greatest_permissions(space, objects::FREE)
}

// Rule 11: a live place lies in a domain with a PD, names a resource, has no permission above the greatest, and has a fitting parent or none.
pub fn live_keeps(
    table: &[u32],
    objects: &[u32],
    place: u32,
    space: u32,
    home: bool,
    cap: Cap,
) -> bool
    requires { Around (tables table.now objects.now) place space home × (cap ≡ cap_at table.now place) × (0 < cap.permissions) }
    ensures { result ≡ live_place (view table.now objects.now) place }
{
    (home & (cap.permissions <= greatest_allowed(objects, space, cap.resource)))
        && lineage_keeps(table, place, space, cap)
}

// Rule 11, of a place that may be null.
pub fn live_or_null(table: &[u32], objects: &[u32], place: u32) -> bool
    requires { (length table.now ≡ place_table_words) × (length objects.now ≡ object_table_words) × (place < places) }
    ensures { result ≡ live_place (view table.now objects.now) place }
{
    let cap = cap_at(table, place);
    if cap.permissions == 0 {
        return true;
    }
    let domain = place / sizes::STRIDE;
    let home = (domain == 0) | record_rules::has_pd(objects, domain);
    live_keeps(table, objects, place, space_of(place), home, cap)
}
