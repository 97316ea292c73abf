// The kernel's face: boot, the hypercalls, the census and the untyped part of a received message, on lent tables, blocks and lists of any length and content.
#![tactic(auto)]

ghost use Rattle.std.specs.Prelude.{◌≡◌, true, []};
ghost use Rattle.interface.specs.Places.{tables, sized};
ghost use Rattle.interface.specs.Message.{untyped_part};
ghost use Rattle.interface.specs.Outcomes.{call_of, outcome, Booted};
ghost use Rattle.interface.specs.Census.{census_of};
ghost use Rattle.interface.specs.Demand.{from_boot, GoesOn, ShowsHeirs};

use reply::{Refusal, Reply};
use service::CallWords;

// Any hypercall: its number, the caller's EC number and the six words after it (a call takes as many as it has), the place table and the object table, the caller's message
// block and the callee's. Damage is tested before all else.
// Twelve parameters and no struct: the functions for other languages get them so (`abi::rudozhev_hypercall`).
pub fn hypercall(
    number: u32,
    caller: u32,
    first: u32,
    second: u32,
    third: u32,
    fourth: u32,
    fifth: u32,
    sixth: u32,
    places: &mut [u32],
    objects: &mut [u32],
    source: &[u32],
    target: &mut [u32],
) -> Reply
    ensures is_outcome { record { reply = result; tables = tables places.new objects.new; block = target.new } ≡
        outcome (tables places.old objects.old)
        (call_of number caller first second third fourth fifth sixth source.now target.old) }
    ensures goes_on { GoesOn (tables places.old objects.old)
        (call_of number caller first second third fourth fifth sixth source.now target.old)
        (record { reply = result; tables = tables places.new objects.new; block = target.new }) }
{
    if soundness::is_sound(places, objects) {
        let words = CallWords {
            first,
            second,
            third,
            fourth,
            fifth,
            sixth,
        };
        return service::serve(number, caller, words, places, objects, source, target);
    }
    Err(Refusal::Damaged)
}

// Fills two lent tables as they are at boot; tables of other lengths are refused and stay.
pub fn boot(places: &mut [u32], objects: &mut [u32]) -> Reply
    ensures booted { Booted places.old objects.old places.new objects.new result }
    ensures from_boot { sized (tables places.old objects.old) ≡ true → tables places.new objects.new ≡ from_boot [] }
{
    boot::boot(places, objects)
}

// The census of a place: its strict descendants in the list, rising, and their number.
pub fn census(place: u32, places: &[u32], objects: &[u32], list: &mut [u32]) -> Reply
    ensures is_census { record { reply = result; list = list.new } ≡ census_of (tables places.now objects.now) place list.old }
    ensures shows_heirs { ShowsHeirs (tables places.now objects.now) place list.old (record { reply = result; list = list.new }) }
{
    if !soundness::is_sound(places, objects) {
        return Err(Refusal::Damaged);
    }
    tree::census(place, places, list)
}

// The untyped part of a received block, as a part of that block: empty for a block of another length or whose counts do not fit.
pub fn untyped(block: &[u32]) -> &[u32]
    ensures { result.now ≡ untyped_part block.now }
{
    blocks::untyped(block)
}
