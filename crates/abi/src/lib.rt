// The functions that programs in other languages link: a slice passes as a pointer and a length, and a reply as one number, its status in the high and its answer in the low
// 32 bits.
#![tactic(auto)]

pub mod pages;

ghost use Rattle.std.specs.Prelude.{◌≡◌, length, if◌then◌else◌};
ghost use Rattle.interface.specs.Places.{tables};
ghost use Rattle.interface.specs.Damage.{sound, fault};
ghost use Rattle.interface.specs.Message.{untyped_part};
ghost use Rattle.interface.specs.Census.{census_of};
ghost use Rattle.interface.specs.Outcomes.{call_of, outcome};
ghost use Rattle.repair_rules.specs.Repair.{repairing};
ghost use Rattle.abi.specs.Packing.{joined, packed, packed_fault, booting, mending, calling, counting};

use reply::{Fault, Reply};
use words::sizes;

// Two numbers of 32 bits in one of 64.
fn join(high: u32, low: u32) -> u64
    ensures { result ≡ joined high low }
{
    (high as u64) * 4294967296 + (low as u64)
}

// A reply's status in the high and its answer in the low 32 bits.
fn pack(reply: Reply) -> u64
    ensures { result ≡ packed reply }
{
    join(reply::status(reply), reply::answer(reply))
}

// Fills two tables as they are at boot; tables of other lengths are refused and stay.
#[unsafe(no_mangle)]
pub extern "C" fn rudozhev_boot(places: &mut [u32], objects: &mut [u32]) -> u64
    ensures { record { word = result; tables = tables places.new objects.new } ≡ booting (tables places.old objects.old) }
{
    pack(kernel::boot(places, objects))
}

// Any hypercall: its number, the caller's EC number and six words, the two tables, the caller's message block and the callee's.
#[unsafe(no_mangle)]
pub extern "C" fn rudozhev_hypercall(
    number: u32,
    caller: u32,
    first: u32,
    second: u32,
    third: u32,
    fourth: u32,
    fifth: u32,
    sixth: u32,
    places: &mut [u32],
    objects: &mut [u32],
    source: &[u32],
    target: &mut [u32],
) -> u64
    ensures { record { word = result; tables = tables places.new objects.new; block = target.new } ≡
        calling (outcome (tables places.old objects.old)
        (call_of number caller first second third fourth fifth sixth source.now target.old)) }
{
    pack(kernel::hypercall(
        number, caller, first, second, third, fourth, fifth, sixth, places, objects, source, target,
    ))
}

// The census of a place: its strict descendants in the list, rising, and their number.
#[unsafe(no_mangle)]
pub extern "C" fn rudozhev_census(
    place: u32,
    places: &[u32],
    objects: &[u32],
    list: &mut [u32],
) -> u64
    ensures { record { word = result; list = list.new } ≡ counting (census_of (tables places.now objects.now) place list.old) }
{
    pack(kernel::census(place, places, objects, list))
}

// The number of the first rule of damage that the tables break in the high 32 bits, 0 where they are sound, and in the low ones the lowest record that breaks it or else the
// lowest place, places counted on from the number of records.
#[unsafe(no_mangle)]
pub extern "C" fn rudozhev_damage(places: &[u32], objects: &[u32]) -> u64
    ensures { result ≡ packed_fault (fault (tables places.now objects.now)) }
{
    let Some(fault) = soundness::first_fault(places, objects) else {
        return 0;
    };
    match fault {
        Fault::Lengths => join(1, 0),
        Fault::AtRecord(rule, number) => join(rule, number),
        Fault::AtPlace(rule, place) => join(rule, sizes::RECORDS + place),
    }
}

// Whether two tables are sound: 1, or 0 where they are damaged. Faster than finding the rule.
#[unsafe(no_mangle)]
pub extern "C" fn rudozhev_sound(places: &[u32], objects: &[u32]) -> u32
    ensures { result ≡ (if sound (tables places.now objects.now) then 1 else 0) }
{
    if soundness::is_sound(places, objects) {
        return 1;
    }
    0
}

// Repairs two tables, if that makes them sound: tables whose lengths, records or domain 0 are wrong are refused, and stay. The answer is how many capabilities were lost.
#[unsafe(no_mangle)]
pub extern "C" fn rudozhev_repair(places: &mut [u32], objects: &[u32]) -> u64
    ensures { record { word = result; tables = tables places.new objects.now } ≡ mending (repairing (tables places.old objects.now)) }
{
    pack(repair::repair(places, objects))
}

// How many untyped words a received block has, from its word 4 on: 0 for a block of another length or whose counts do not fit.
#[unsafe(no_mangle)]
pub extern "C" fn rudozhev_untyped(block: &[u32]) -> u64
    ensures { result ≡ length (untyped_part block.now) }
{
    kernel::untyped(block).len() as u64
}
