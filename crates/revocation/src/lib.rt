// REVOKE.
#![tactic(auto)]

ghost use Rattle.std.specs.Prelude.{◌≡◌};
ghost use Rattle.interface.specs.Places.{tables};
ghost use Rattle.interface.specs.Verdicts.{Call};
ghost use Rattle.interface.specs.Rules.{Runs};
ghost use Rattle.interface.specs.Revoke.{mask_is_outside, revoke as revokeRule};
ghost use Rattle.descriptor.specs.declared.Reading.TheVariants.{Good};
ghost use Rattle.capabilities.specs.Callers.{Called};

use descriptor::{Descriptor, Range, Reading};
use layout::{ObjectNumber, Place};
use marks::PlaceRange;
use reply::{Refusal, Reply};
use words::{permissions, ranges};

// Whether a range's mask lies outside the greatest permissions of its space, for objects a PD's, so that nothing can be revoked by it.
fn mask_is_outside(range: Range) -> bool
    ensures { result ≡ mask_is_outside (Good range) }
{
    let greatest = objects::greatest_permissions(range.space(), objects::PD);
    let mask = range.mask();
    permissions::keep(greatest, mask) == 0
}

// REVOKE on sound tables: removes the mask's permissions from every strict descendant of the range, and from the range too where the self word is 1.
pub fn revoke(
    caller: ObjectNumber,
    descriptor: u32,
    self_word: u32,
    places: &mut [u32],
    objects: &[u32],
) -> Reply
    requires { Called places.old objects.now caller.0 }
    ensures { (c : Call) → c.caller ≡ caller.0 → c.first ≡ descriptor → c.second ≡ self_word →
        Runs revokeRule c (tables places.old objects.now) (tables places.new objects.now) result }
{
    if 1 < self_word {
        return Err(Refusal::BadPar);
    }
    match Descriptor::from_word(descriptor).read() {
        Reading::Null => Ok(0),
        Reading::Malformed => Err(Refusal::BadPar),
        Reading::Good(range) => {
            if mask_is_outside(range) {
                return Err(Refusal::BadPar);
            }
            let domain = capabilities::domain(places, objects, caller);
            let space = range.space();
            let first = Place::of(domain, space, range.at(0));
            let size = ranges::size(range.order());
            tree::cut(
                places,
                range.mask(),
                PlaceRange { first, size },
                self_word == 1,
            );
            Ok(0)
        }
    }
}
