// The rule that the five CREATE calls share: the checks in their order, and the steps in theirs.
#![tactic(auto)]

ghost use Rattle.std.specs.Prelude.{true, ◌≡◌, ◌^◌, ◌<◌, ◌≤◌};
ghost use Rattle.words.specs.Sizes.{domains, object};
ghost use Rattle.descriptor.specs.declared.Reading.TheVariants.{Null};
ghost use Rattle.descriptor.specs.Descriptors.{Proper};
ghost use Rattle.interface.specs.Places.{SM, tables, view};
ghost use Rattle.interface.specs.Creations.{hand_on, initial_good, initial_gives};
ghost use Rattle.places.specs.Table.{Sized as SizedPlaces};
ghost use Rattle.objects.specs.Records.{Sized as SizedObjects};
ghost use Rattle.creation_rule.specs.CreationRule.{Decides, Creates, Hands, Handed};

use descriptor::{Range, Reading};
use layout::{ObjectNumber, Place};
use objects::Record;
use reply::{Refusal, Reply};
use words::{ranges, sizes};

// What one creation has of its own: the new object's words, what its own tests came to, and the initial range of a new PD.
// Four flags and no Result: the definition `creation` has these flags, and so the order of the refusals stands in `check` alone.
#[derive(Clone, Copy)]
pub struct Creation {
    pub object: Record,
    pub bindable: bool,
    pub cpu_good: bool,
    pub parameters_good: bool,
    pub domain_left: bool,
    pub initial: Reading,
}

impl Creation {
    // A creation that has no tests of its own and no initial range.
    pub fn of(object: Record) -> Creation
        ensures { result ≡ record { object = object; bindable = true; cpu_good = true; parameters_good = true; domain_left = true; initial = Null } }
    {
        Creation {
            object,
            bindable: true,
            cpu_good: true,
            parameters_good: true,
            domain_left: true,
            initial: Reading::Null,
        }
    }
}

// The checks that all creations have, in their order.
fn check(
    places: &[u32],
    objects: &[u32],
    domain: u32,
    selector: u32,
    pd: u32,
    new: Creation,
) -> Result<ObjectNumber, Refusal>
    requires { SizedPlaces places.now × SizedObjects objects.now × (domain < domains) × (0 < new.object.0) × (new.object.0 ≤ SM) }
    ensures { Decides (view places.now objects.now) domain selector pd new result }
{
    if places::is_live(places::load(places, capabilities::object_place(domain, selector))) {
        return Err(Refusal::BadCap);
    }
    if !capabilities::is_permitted(
        places,
        objects,
        capabilities::object_place(domain, pd),
        objects::PD,
        new.object.0 - 1,
    ) {
        return Err(Refusal::BadCap);
    }
    if !new.bindable {
        return Err(Refusal::BadCap);
    }
    if !new.cpu_good {
        return Err(Refusal::BadCpu);
    }
    if !new.parameters_good {
        return Err(Refusal::BadPar);
    }
    let number = objects::free_record(objects).ok_or(Refusal::NoRoom)?;
    if !new.domain_left {
        return Err(Refusal::NoRoom);
    }
    Ok(number)
}

// Delegates each place of a range of object selectors to the same selector of another domain.
fn hand_on(table: &mut [u32], from: u32, to: u32, range: Range)
    requires { SizedPlaces table.old × (from < domains) × (to < domains) × Proper range × (range.space ≡ object) }
    ensures { Hands (hand_on from to range.base (2 ^ range.order) range.mask) table.old table.new }
{
    for offset in 0..ranges::size(range.order()) {
        let selector = range.at(offset);
        let destination = Place::of(to, sizes::OBJECT, selector);
        let source = Place::of(from, sizes::OBJECT, selector);
        places::give(table, destination, source, range.mask());
    }
}

// Whether an initial descriptor is null or of objects.
pub fn is_initial(initial: Reading) -> bool
    ensures { result ≡ initial_good initial }
{
    match initial {
        Reading::Null => true,
        Reading::Malformed => false,
        Reading::Good(range) => range.space() == sizes::OBJECT,
    }
}

// Delegates an initial range from one domain to another.
fn give_initial(table: &mut [u32], from: u32, to: u32, initial: Reading)
    requires { SizedPlaces table.old × (from < domains) × Handed to initial }
    ensures { Hands (initial_gives from to initial) table.old table.new }
{
    if let Reading::Good(range) = initial {
        hand_on(table, from, to, range);
    }
}

// Creates an object by the rule of every creation: the checks; then its words are stored, the initial range is delegated to the domain that they name, and the new place gets
// the greatest permissions and no parent.
pub fn create(
    places: &mut [u32],
    objects: &mut [u32],
    domain: u32,
    selector: u32,
    pd: u32,
    new: Creation,
) -> Reply
    requires { SizedPlaces places.old × SizedObjects objects.old × (domain < domains) × (0 < new.object.0) × (new.object.0 ≤ SM) ×
        (new.parameters_good ≡ true → new.domain_left ≡ true → Handed new.object.1 new.initial) }
    ensures { Creates domain selector pd new (tables places.old objects.old) (tables places.new objects.new) result }
{
    let number = check(places, objects, domain, selector, pd, new)?;
    let object = new.object;
    let initial = new.initial;
    objects::make(objects, number, object);
    give_initial(places, domain, object.1, initial);
    places::store(
        places,
        capabilities::object_place(domain, selector),
        places::without_parent(number.number(), objects::greatest_of(object.0)),
    );
    Ok(0)
}
