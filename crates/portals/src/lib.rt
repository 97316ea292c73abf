// CALL.
#![tactic(auto)]

ghost use Rattle.std.specs.Prelude.{◌≡◌};
ghost use Rattle.interface.specs.Places.{tables};
ghost use Rattle.interface.specs.Verdicts.{Call};
ghost use Rattle.capabilities.specs.Callers.{Called};
ghost use Rattle.portals.specs.Carrying.{Carries};

use layout::ObjectNumber;
use reply::{Refusal, Reply};
use words::sizes;

// The bit of a portal's permission to be called.
const CALL: u32 = 1;

// CALL on sound tables: the caller's message goes to the portal's EC. Answers how many places were filled.
pub fn call(
    caller: ObjectNumber,
    selector: u32,
    places: &mut [u32],
    objects: &[u32],
    source: &[u32],
    target: &mut [u32],
) -> Reply
    requires { Called places.old objects.now caller.0 }
    ensures { (c : Call) → c.caller ≡ caller.0 → c.first ≡ selector → c.source ≡ source.now → c.target ≡ target.old →
        Carries c (tables places.old objects.now) (tables places.new objects.now) target.new result }
{
    if source.len() != sizes::BLOCK_WORDS {
        return Err(Refusal::BadPar);
    }
    if target.len() != sizes::BLOCK_WORDS {
        return Err(Refusal::BadPar);
    }
    let sender = capabilities::domain(places, objects, caller);
    let place = capabilities::object_place(sender, selector);
    if !capabilities::is_permitted(places, objects, place, objects::PT, CALL) {
        return Err(Refusal::BadCap);
    }
    let portal = ObjectNumber::named_by(places::load(places, place));
    let callee = ObjectNumber::bound_by(objects::load(objects, portal, objects::BOUND_EC));
    if callee == caller {
        return Err(Refusal::ComTim);
    }
    if objects::load(objects, callee, objects::CPU)
        != objects::load(objects, caller, objects::CPU)
    {
        return Err(Refusal::BadCpu);
    }
    if !blocks::payload_fits(source[0]) {
        return Err(Refusal::BadPar);
    }
    let receiver = objects::load(objects, callee, objects::DOMAIN);
    Ok(transfer::message(places, sender, receiver, source, target))
}
