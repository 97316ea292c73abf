// What the calls share: the caller's domain, the place of a selector in it, and whether a place holds a capability with a permission.
#![tactic(auto)]

ghost use Rattle.std.specs.Prelude.{◌≡◌, ◌<◌};
ghost use Rattle.words.specs.Sizes.{domains};
ghost use Rattle.words.specs.Sizes.{places as placeCount};
ghost use Rattle.interface.specs.Places.{domain_word, object_at, object_place, permitted, view};
ghost use Rattle.places.specs.Table.{Sized as SizedPlaces};
ghost use Rattle.objects.specs.Records.{Sized as SizedObjects};
ghost use Rattle.capabilities.specs.Callers.{Called};

use layout::{ObjectNumber, Place, Selector};
use words::{permissions, sizes};

// The domain of a call's caller. The place table is named by what is required alone. The two tables stay two parameters: C lends them apart, and a call may change one of them.
pub fn domain(places: &[u32], objects: &[u32], caller: ObjectNumber) -> u32
    requires { Called places.now objects.now caller.0 }
    ensures { (result ≡ object_at objects.now caller.0 domain_word) × (result < domains) }
{
    objects::load(objects, caller, objects::DOMAIN)
}

// The place of an object selector in a domain.
pub fn object_place(domain: u32, selector: u32) -> Place
    requires { domain < domains }
    ensures { (result.0 ≡ object_place domain selector) × (result.0 < placeCount) }
{
    Place::of(domain, sizes::OBJECT, Selector::wrapped(selector))
}

// Whether a place holds a capability for an object of a kind, with the permission of a bit's number.
pub fn is_permitted(places: &[u32], objects: &[u32], place: Place, kind: u32, bit: u32) -> bool
    requires { SizedPlaces places.now × SizedObjects objects.now × (place.0 < placeCount) × (bit < 32) }
    ensures { result ≡ permitted (view places.now objects.now) place.0 kind bit }
{
    let cap = places::load(places, place);
    permissions::has(bit, cap.permissions)
        & (objects::load_named(objects, cap.resource, objects::KIND) == kind)
}
