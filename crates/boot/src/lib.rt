// Boot: the tables as they are when the controller starts.
#![tactic(auto)]

ghost use Rattle.std.specs.Prelude.{◌≡◌, ◌<◌};
ghost use Rattle.words.specs.Sizes.{memory, selectors};
ghost use Rattle.interface.specs.Basics.{word};
ghost use Rattle.interface.specs.Places.{nothing, sized, cap_table, record_table};
ghost use Rattle.interface.specs.Boot.{boot_record, boot_object, hypervisor_cap, lent_to_root, root_memory, root_cap, boot_cap};
ghost use Rattle.interface.specs.Outcomes.{Booted};
ghost use Rattle.places.specs.Table.{Sized as SizedPlaces};
ghost use Rattle.objects.specs.Records.{Sized as SizedObjects, words_of};
ghost use Rattle.boot.specs.Held.{hypervisor_object, root_object, held_cap};

use layout::{Cap, ObjectNumber, Place, Selector};
use objects::Record;
use reply::{Refusal, Reply};
use words::sizes;

// Each CPU has an idle SC and each interrupt a semaphore; the records of the root's PD, EC and SC follow them.
const GSIS: u32 = 24;

pub const ROOT_PD: u32 = objects::CPUS + GSIS;

pub const ROOT_EC: u32 = ROOT_PD + 1;

pub const ROOT_SC: u32 = ROOT_PD + 2;

// The root holds these three at the selectors from EXC on.
const ROOT_OBJECTS: u32 = 3;

pub const EXC: u32 = 32;

// The root's two pages, each at the selector of its own number: the information page, which it may read, and just below it the UTCB of its EC, which it may also write.
const INFORMATION_PAGE: u32 = 63;

const INFORMATION_PERMISSIONS: u32 = 1;

const UTCB_PAGE: u32 = 62;

const UTCB_PERMISSIONS: u32 = 3;

// The root SC's priority and quantum.
pub const ROOT_PRIORITY: u32 = 1;

pub const ROOT_QUANTUM: u32 = 10000;

// The EC word of an idle SC: no EC's number, since a word of a table has no `Option`.
pub const NO_EC: u32 = sizes::RECORDS;

// The words of a record at boot.
fn boot_record(object: ObjectNumber) -> Record
    ensures { word (words_of result) ≡ word (boot_record object.0) }
{
    let number = object.number();
    if number < objects::CPUS {
        return Record(objects::SC, NO_EC, 0, 0, 0);
    }
    if number < ROOT_PD {
        return Record(objects::SM, 0, 0, 0, 0);
    }
    if number == ROOT_PD {
        return Record(objects::PD, places::ROOT, 0, 0, 0);
    }
    if number == ROOT_EC {
        return Record(objects::EC, places::ROOT, 0, 0, 0);
    }
    if number == ROOT_SC {
        return Record(objects::SC, ROOT_EC, ROOT_PRIORITY, ROOT_QUANTUM, 0);
    }
    Record(objects::FREE, 0, 0, 0, 0)
}

// What a null place holds.
fn null_cap() -> Cap
    ensures { result ≡ nothing }
{
    places::without_parent(0, 0)
}

// The capability for an object of boot.
fn boot_object(object: ObjectNumber) -> Cap
    ensures { result ≡ boot_object object.0 }
{
    let words = boot_record(object);
    places::without_parent(
        object.number(),
        objects::greatest_permissions(sizes::OBJECT, words.0),
    )
}

// What a place holds at boot by its object, if it has one.
fn held(found: Option<ObjectNumber>) -> Cap
    ensures { result ≡ held_cap found }
{
    match found {
        Some(object) => boot_object(object),
        None => null_cap(),
    }
}

// The object that domain 0 holds at an object selector at boot, if it holds one: selectors and objects are numbered alike there.
fn hypervisor_object(selector: Selector) -> Option<ObjectNumber>
    ensures { result ≡ hypervisor_object selector.0 }
{
    let number = selector.number();
    if number < ROOT_PD {
        return ObjectNumber::found(number);
    }
    None
}

// The object that the root holds at an object selector at boot, if it holds one: its PD, EC and SC, from EXC on.
fn root_object(selector: Selector) -> Option<ObjectNumber>
    ensures { result ≡ root_object selector.0 }
{
    let number = selector.number();
    if (EXC <= number) & (number < EXC + ROOT_OBJECTS) {
        return ObjectNumber::found(ROOT_PD + (number - EXC));
    }
    None
}

// What domain 0 holds at boot: the page or the port of each selector's number, and its objects.
fn hypervisor_cap(space: u32, selector: Selector) -> Cap
    ensures { result ≡ hypervisor_cap space selector.0 }
{
    if space < sizes::OBJECT {
        return places::without_parent(
            selector.number(),
            objects::greatest_permissions(space, objects::FREE),
        );
    }
    held(hypervisor_object(selector))
}

// A page as the root holds it at boot: domain 0's place of the same selector is its parent.
fn lent_to_root(selector: Selector, permissions: u32) -> Cap
    requires { selector.0 < selectors memory }
    ensures { result ≡ lent_to_root selector.0 permissions }
{
    let parent = Place::of(places::HYPERVISOR, sizes::MEMORY, selector);
    Cap {
        resource: selector.number(),
        permissions,
        parent: parent.link(),
        depth: 1,
    }
}

// What the root holds in memory at boot.
fn root_memory(selector: Selector) -> Cap
    ensures { result ≡ root_memory selector.0 }
{
    let page = selector.number();
    if page == INFORMATION_PAGE {
        return lent_to_root(selector, INFORMATION_PERMISSIONS);
    }
    if page == UTCB_PAGE {
        return lent_to_root(selector, UTCB_PERMISSIONS);
    }
    null_cap()
}

// What the root holds at boot.
fn root_cap(space: u32, selector: Selector) -> Cap
    ensures { result ≡ root_cap space selector.0 }
{
    if space == sizes::OBJECT {
        return held(root_object(selector));
    }
    if space == sizes::MEMORY {
        return root_memory(selector);
    }
    null_cap()
}

// What a place holds at boot.
pub fn boot_cap(place: Place) -> Cap
    ensures { result ≡ boot_cap place.0 }
{
    let domain = place.domain();
    if domain == places::HYPERVISOR {
        return hypervisor_cap(place.space(), place.selector());
    }
    if domain == places::ROOT {
        return root_cap(place.space(), place.selector());
    }
    null_cap()
}

// Fills the place table. Each table has a loop of its own: they differ in the type of a number and in what is stored.
fn fill_places(table: &mut [u32])
    requires { SizedPlaces table.old }
    ensures { table.new ≡ cap_table boot_cap }
{
    for number in 0..sizes::PLACES {
        let place = Place::counted(number);
        places::store(table, place, boot_cap(place));
    }
}

// Fills the object table.
fn fill_objects(table: &mut [u32])
    requires { SizedObjects table.old }
    ensures { table.new ≡ record_table (λ number. word (boot_record number)) }
{
    for number in 0..sizes::RECORDS {
        let object = ObjectNumber::counted(number);
        objects::make(table, object, boot_record(object));
    }
}

// Whether both tables have their lengths.
pub fn are_sized(places: &[u32], objects: &[u32]) -> bool
    ensures { result ≡ sized (record { places = places.now; objects = objects.now }) }
{
    (places.len() == sizes::PLACE_TABLE_WORDS) & (objects.len() == sizes::OBJECT_TABLE_WORDS)
}

// Fills two lent tables, whatever they held; tables of other lengths are refused and stay.
pub fn boot(places: &mut [u32], objects: &mut [u32]) -> Reply
    ensures { Booted places.old objects.old places.new objects.new result }
{
    if !are_sized(places, objects) {
        return Err(Refusal::Damaged);
    }
    fill_places(places);
    fill_objects(objects);
    Ok(0)
}
