// The five CREATE calls, each on sound tables.
#![tactic(auto)]

ghost use Rattle.std.specs.Prelude.{◌≡◌, ◌<◌};
ghost use Rattle.words.specs.Sizes.{domains};
ghost use Rattle.interface.specs.Places.{EC, object_place, object_in, permitted, tables, view};
ghost use Rattle.interface.specs.Verdicts.{Call};
ghost use Rattle.interface.specs.Creations.{create_pd, create_ec, create_sc, create_pt, create_sm};
ghost use Rattle.interface.specs.Rules.{Runs};
ghost use Rattle.places.specs.Table.{Sized as SizedPlaces};
ghost use Rattle.objects.specs.Records.{Sized as SizedObjects};
ghost use Rattle.capabilities.specs.Callers.{Called};

use creation_rule::Creation;
use descriptor::Descriptor;
use layout::ObjectNumber;
use objects::Record;
use reply::Reply;
use words::sizes;

// The numbers of the bits that permit binding an SC and a PT to an EC.
const BIND_SC: u32 = 1;

const BIND_PT: u32 = 2;

// The EC that an SC or a PT is bound to, and whether its capability permits that.
// A number with a flag and no Option: the definition names the EC in the object's words before the rule has tested the capability.
#[derive(Clone, Copy)]
struct Binding {
    ec: u32,
    permitted: bool,
}

// The binding to the EC that a selector of a domain names, by the bit that permits it.
fn bind(places: &[u32], objects: &[u32], domain: u32, ec: u32, bit: u32) -> Binding
    requires { SizedPlaces places.now × SizedObjects objects.now × (domain < domains) × (bit < 32) }
    ensures { (result.ec ≡ object_in (view places.now objects.now) (object_place domain ec)) ×
        (result.permitted ≡ permitted (view places.now objects.now) (object_place domain ec) EC bit) }
{
    let place = capabilities::object_place(domain, ec);
    Binding {
        ec: places::load(places, place).resource,
        permitted: capabilities::is_permitted(places, objects, place, objects::EC, bit),
    }
}

// CREATE_PD: a PD of the next domain, to which the initial range is delegated before the new place is filled.
pub fn create_pd(
    caller: ObjectNumber,
    selector: u32,
    pd: u32,
    initial: u32,
    places: &mut [u32],
    objects: &mut [u32],
) -> Reply
    requires { Called places.old objects.old caller.0 }
    ensures { (c : Call) → c.caller ≡ caller.0 → c.first ≡ selector → c.second ≡ pd → c.third ≡ initial →
        Runs create_pd c (tables places.old objects.old) (tables places.new objects.new) result }
{
    let domain = capabilities::domain(places, objects, caller);
    let range = Descriptor::from_word(initial).read();
    let next = objects::pds_below(objects, sizes::RECORDS) + 1;
    let new = Creation {
        parameters_good: creation_rule::is_initial(range),
        domain_left: next < sizes::DOMAINS,
        initial: range,
        ..Creation::of(Record(objects::PD, next, 0, 0, 0))
    };
    creation_rule::create(places, objects, domain, selector, pd, new)
}

// CREATE_EC: an EC of the named PD's domain, with a CPU and an event base that wraps.
pub fn create_ec(
    caller: ObjectNumber,
    selector: u32,
    pd: u32,
    cpu: u32,
    event_base: u32,
    places: &mut [u32],
    objects: &mut [u32],
) -> Reply
    requires { Called places.old objects.old caller.0 }
    ensures { (c : Call) → c.caller ≡ caller.0 → c.first ≡ selector → c.second ≡ pd → c.third ≡ cpu → c.fourth ≡ event_base →
        Runs create_ec c (tables places.old objects.old) (tables places.new objects.new) result }
{
    let domain = capabilities::domain(places, objects, caller);
    // Where the selector names no PD the checks refuse the call, whatever word is read.
    let named = places::load(places, capabilities::object_place(domain, pd)).resource;
    let home = objects::load_named(objects, named, objects::DOMAIN);
    let wrapped = event_base % sizes::OBJECT_SELECTORS;
    let new = Creation {
        cpu_good: cpu < objects::CPUS,
        ..Creation::of(Record(objects::EC, home, cpu, wrapped, 0))
    };
    creation_rule::create(places, objects, domain, selector, pd, new)
}

// CREATE_SC: an SC bound to the named EC, with the priority in the QPD's bits 0 to 7 and the quantum from bit 12 on.
pub fn create_sc(
    caller: ObjectNumber,
    selector: u32,
    pd: u32,
    ec: u32,
    qpd: u32,
    places: &mut [u32],
    objects: &mut [u32],
) -> Reply
    requires { Called places.old objects.old caller.0 }
    ensures { (c : Call) → c.caller ≡ caller.0 → c.first ≡ selector → c.second ≡ pd → c.third ≡ ec → c.fourth ≡ qpd →
        Runs create_sc c (tables places.old objects.old) (tables places.new objects.new) result }
{
    let domain = capabilities::domain(places, objects, caller);
    let bound = bind(places, objects, domain, ec, BIND_SC);
    let priority = qpd % 256;
    let quantum = qpd >> 12;
    let new = Creation {
        bindable: bound.permitted,
        parameters_good: (priority != 0) & (quantum != 0),
        ..Creation::of(Record(objects::SC, bound.ec, priority, quantum, 0))
    };
    creation_rule::create(places, objects, domain, selector, pd, new)
}

// CREATE_PT: a PT bound to the named EC, with an MTD, an entry IP and an identifier.
pub fn create_pt(
    caller: ObjectNumber,
    selector: u32,
    pd: u32,
    ec: u32,
    mtd: u32,
    ip: u32,
    identifier: u32,
    places: &mut [u32],
    objects: &mut [u32],
) -> Reply
    requires { Called places.old objects.old caller.0 }
    ensures { (c : Call) → c.caller ≡ caller.0 → c.first ≡ selector → c.second ≡ pd → c.third ≡ ec → c.fourth ≡ mtd → c.fifth ≡ ip → c.sixth ≡ identifier →
        Runs create_pt c (tables places.old objects.old) (tables places.new objects.new) result }
{
    let domain = capabilities::domain(places, objects, caller);
    let bound = bind(places, objects, domain, ec, BIND_PT);
    let new = Creation {
        bindable: bound.permitted,
        ..Creation::of(Record(objects::PT, bound.ec, mtd, ip, identifier))
    };
    creation_rule::create(places, objects, domain, selector, pd, new)
}

// CREATE_SM: a semaphore with a count.
pub fn create_sm(
    caller: ObjectNumber,
    selector: u32,
    pd: u32,
    count: u32,
    places: &mut [u32],
    objects: &mut [u32],
) -> Reply
    requires { Called places.old objects.old caller.0 }
    ensures { (c : Call) → c.caller ≡ caller.0 → c.first ≡ selector → c.second ≡ pd → c.third ≡ count →
        Runs create_sm c (tables places.old objects.old) (tables places.new objects.new) result }
{
    let domain = capabilities::domain(places, objects, caller);
    let new = Creation::of(Record(objects::SM, count, 0, 0, 0));
    creation_rule::create(places, objects, domain, selector, pd, new)
}
