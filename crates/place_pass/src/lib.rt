// One pass over the places outside domain 0: a shorter test of each decides whether all places keep the rules.
#![tactic(auto)]

ghost use Rattle.std.specs.Prelude.{◌≡◌, ◌+◌, ◌-◌, ◌%◌, ◌<◌, ◌≤◌, true, ◌&&◌, leb, ltb, length};
ghost use Rattle.words.specs.Sizes.{stride, places, records};
ghost use Rattle.interface.specs.Basics.{all_below};
ghost use Rattle.interface.specs.Places.{kind_word, object_at, object_table_words, place_table_words, tables, view, greatest_of, places_in};
ghost use Rattle.interface.specs.Damage.{fixed_place};
ghost use Rattle.record_rules.specs.RecordKeeping.{Kept};
ghost use Rattle.place_rules.specs.PlaceKeeping.{place_keeps, extent_of, blank, Around};
ghost use Rattle.place_pass.specs.PassKeeping.{quick_keeps, group, run, Passed};

use layout::{Cap, Place};
use place_rules::Extent;
use words::sizes;

// Places are looked at in groups, so that null ones are passed over quickly: the places of a group. Each space has a multiple of them.
const GROUP: u32 = 32;

// The domains without a PD are null, and looked at in longer runs: the places of a run. Each domain has a multiple of them.
const RUN: u32 = 64;

// Whether an object capability without a parent names a record whose greatest permissions hold its own.
fn names_object(objects: &[u32], cap: Cap) -> bool
    requires { length objects.now ≡ object_table_words }
    ensures { result ≡ (ltb cap.resource records && leb cap.permissions (greatest_of (object_at objects.now cap.resource kind_word))) }
{
    (cap.resource < sizes::RECORDS)
        && (cap.permissions <= objects::greatest_of(record_rules::kind_of(objects, cap.resource)))
}

// Whether a place of a domain with a PD passes the shorter test.
fn quick_keeps(table: &[u32], objects: &[u32], place: u32, extent: Extent) -> bool
    requires { Around (tables table.now objects.now) place extent.space true × (extent ≡ extent_of extent.space) × (stride ≤ place) }
    ensures { result ≡ quick_keeps (view table.now objects.now) place }
{
    let cap = place_rules::cap_at(table, place);
    if cap.permissions == 0 {
        return cap == places::without_parent(0, 0);
    }
    let Some(parent) = Place::linked(cap.parent) else {
        return (cap.parent == 0)
            & (extent.space == sizes::OBJECT)
            & (cap.depth == 0)
            & names_object(objects, cap);
    };
    (cap.depth <= sizes::GREATEST_DEPTH) & place_rules::parent_fits(table, extent, cap, parent)
}

// Whether the words of all places from one on are 0, looked at run by run.
fn rest_is_blank(table: &[u32], first: u32) -> bool
    requires { (length table.now ≡ place_table_words) × (first ≤ places) × (first % run ≡ 0) }
    ensures { result ≡ blank table.now first (places - first) }
{
    (first / RUN..sizes::PLACES / RUN).all(|run| place_rules::is_blank(table, RUN * run, RUN))
}

// Whether all words of a group's places are 0. A group that begins with a live place is told by that place alone.
fn group_is_blank(table: &[u32], first: u32) -> bool
    requires { (length table.now ≡ place_table_words) × (first + group ≤ places) }
    ensures { result ≡ blank table.now first group }
{
    (place_rules::cap_at(table, first).permissions == 0)
        && place_rules::is_blank(table, first, GROUP)
}

// Whether the places up to the end of a group of a domain with a PD pass the shorter test, where those before it do. A group lies in one space of one domain.
fn group_keeps(table: &[u32], objects: &[u32], first: u32) -> bool
    requires { Passed (tables table.now objects.now) first × (first < places) }
    ensures { result ≡ all_below (first + group) (quick_keeps (view table.now objects.now)) }
{
    if group_is_blank(table, first) {
        return true;
    }
    let extent = place_rules::extent_of(place_rules::space_of(first));
    (first..first + GROUP).all(|at| quick_keeps(table, objects, at, extent))
}

// Whether each place keeps the rules, where the records keep theirs and domain 0 is as at boot. The domains without a PD come last, and are null.
pub fn places_keep(table: &[u32], objects: &[u32], pds: u32) -> bool
    requires { (length table.now ≡ place_table_words) × Kept objects.now pds × (all_below stride (fixed_place (places_in table.now)) ≡ true) }
    ensures { result ≡ all_below places (place_keeps (view table.now objects.now)) }
{
    let end = sizes::STRIDE * (pds + 1);
    // A group is asked only where all before it pass (Passed), which a closure of `all` could not say.
    for group in sizes::STRIDE / GROUP..end / GROUP {
        if !group_keeps(table, objects, GROUP * group) {
            return false;
        }
    }
    rest_is_blank(table, end)
}
