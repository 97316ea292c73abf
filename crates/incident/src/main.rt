// Tries the incident that this kernel is to prevent. The ports of a spectrometer's shutter were lent to the operating domain, lent on through the service domain to a test
// domain, and forgotten there. A lookup answered with the nearest range where it should have found nothing, the revoke that followed it missed the test domain, and the
// shutter opened beside a trainee. Here the census names every place that has the ports, a lookup beside them finds nothing, a REVOKE that could take nothing is refused, one
// REVOKE empties all those places and spares what else was lent, and the test domain has no port of the shutter's left to lend on.
#![tactic(auto)]

mod spectrometer;
mod steps;
mod telling;

use spectrometer::{Domain, Thing};
use steps::Machine;

// The root gets an EC to receive from the hypervisor with, and makes the four domains, of which each but the last can call the next one.
fn set_up(machine: &mut Machine) {
    machine.chapter("THE MACHINE AND ITS DOMAINS\n");
    machine.boot();
    machine.make_receiver();
    machine.make_domain(Domain::Operating);
    machine.make_domain(Domain::Service);
    machine.make_domain(Domain::Test);
    machine.make_domain(Domain::Spare);
    machine.connect(Domain::Operating, Domain::Service);
    machine.connect(Domain::Service, Domain::Test);
    machine.connect(Domain::Test, Domain::Spare);
}

// What the root takes, and what is lent of it: the shutter's ports, the lamp's port, which has nothing to do with them, and the page of the spectrum.
fn lending(machine: &mut Machine) {
    machine.chapter("\nWHAT IS LENT\n");
    machine.take(Thing::Shutter);
    machine.take(Thing::Lamp);
    machine.take(Thing::Spectrum);
    machine.lend(Domain::Root, Thing::Shutter, Domain::Operating);
    machine.lend(Domain::Operating, Thing::Them, Domain::Service);
    machine.lend(Domain::Service, Thing::Them, Domain::Test);
    machine.lend(Domain::Root, Thing::Lamp, Domain::Operating);
    machine.lend(Domain::Operating, Thing::It, Domain::Service);
    machine.lend(Domain::Service, Thing::It, Domain::Test);
    machine.lend(Domain::Root, Thing::Spectrum, Domain::Operating);
}

// The mistake of the incident is a lookup where the root has nothing, right after the lamp's port, and a revoke of what it answers. All have the ports after it as before.
fn mistake(machine: &mut Machine) {
    machine.chapter("\nWHO HAS THE SHUTTER'S PORTS\n");
    machine.name_shutter_heirs(Domain::Root);
    machine.chapter("\nA LOOKUP BESIDE THEM, AND A REVOKE OF ITS ANSWER\n");
    machine.look_at(Domain::Test, Thing::Shutter);
    machine.look_before_them(Domain::Test);
    machine.look_after_lamp(Domain::Test);
    machine.look_after_lamp(Domain::Root);
    machine.revoke_answer();
    machine.name_shutter_heirs(Domain::Root);
}

// A revoke with mask 0 would take nothing, and is refused. The right way is a lookup of the shutter's ports, and a revoke of their range.
fn recovery(machine: &mut Machine) {
    machine.chapter("\nTHE REVOKE OF THE PORTS\n");
    machine.revoke_for_a_year();
    machine.look_at(Domain::Root, Thing::Shutter);
    machine.revoke_shutter();
}

// The domains find nothing where they had the ports. The root's own are still there, and so is what was lent beside them.
fn rest(machine: &mut Machine) {
    machine.chapter("\nWHAT IS LEFT\n");
    machine.name_shutter_heirs(Domain::Root);
    machine.look_for_shutter(Domain::Operating);
    machine.look_for_shutter(Domain::Service);
    machine.look_for_shutter(Domain::Test);
    machine.look_at(Domain::Root, Thing::Shutter);
    machine.look_at(Domain::Operating, Thing::Lamp);
    machine.look_at(Domain::Service, Thing::Lamp);
    machine.look_at(Domain::Test, Thing::Lamp);
    machine.look_at(Domain::Operating, Thing::Spectrum);
}

// Every domain that had the shutter's ports tries to lend them on, and the last one the lamp's port. The census of the hypervisor's places names all who have the ports then.
fn aftermath(machine: &mut Machine) {
    machine.chapter("\nLENDING ON WHAT IS LEFT\n");
    machine.lend_again(Domain::Operating, Thing::Shutter, Domain::Service);
    machine.lend_again(Domain::Service, Thing::Them, Domain::Test);
    machine.lend(Domain::Test, Thing::Them, Domain::Spare);
    machine.lend(Domain::Test, Thing::Lamp, Domain::Spare);
    machine.chapter("\nWHO HAS THE SHUTTER'S PORTS NOW\n");
    machine.name_shutter_heirs(Domain::Hypervisor);
}

// Tells the story, part by part.
fn main(rt: HostRuntime) {
    let mut machine = Machine::blank(rt.stdout());
    set_up(&mut machine);
    lending(&mut machine);
    mistake(&mut machine);
    recovery(&mut machine);
    rest(&mut machine);
    aftermath(&mut machine);
}
