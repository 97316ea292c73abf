// The damage test: whether tables are sound, in one pass over the places, and which rule is the first that they break.
#![tactic(auto)]

ghost use Rattle.std.specs.Prelude.{◌≡◌};
ghost use Rattle.interface.specs.Damage.{sound, fault};

use reply::Fault;

mod faults;

// Whether two tables are sound.
pub fn is_sound(places: &[u32], objects: &[u32]) -> bool
    ensures { result ≡ sound (record { places = places.now; objects = objects.now }) }
{
    if !boot::are_sized(places, objects) {
        return false;
    }
    let Some(pds) = record_rules::pds_in_turn(objects) else {
        return false;
    };
    record_rules::records_keep(objects, pds)
        && hypervisor_rules::hypervisor_keeps(places)
        && place_pass::places_keep(places, objects, pds)
}

// The first rule that two tables break, and the lowest record or else the lowest place that breaks it: for each rule records come before places, and so one loop has both searches.
pub fn first_fault(places: &[u32], objects: &[u32]) -> Option<Fault>
    ensures { result ≡ fault (record { places = places.now; objects = objects.now }) }
{
    if !boot::are_sized(places, objects) {
        return Some(Fault::Lengths);
    }
    for rule in faults::FIRST_RULE..faults::LAST_RULE + 1 {
        if let Some(number) = faults::lowest_record(rule, objects) {
            return Some(Fault::AtRecord(rule, number));
        }
        if let Some(place) = faults::lowest_place(rule, places, objects) {
            return Some(Fault::AtPlace(rule, place));
        }
    }
    None
}
