// The steps of the story: each makes its calls, and says who did what and how it ended.
ghost use Rattle.std.specs.Prelude.{◌<◌};
ghost use Rattle.words.specs.Sizes.{io, selectors, spaces};

use crate::spectrometer::{Domain, PAGE, SHUTTER_PORTS, The, Thing, To, ports_with_mask_0};
use crate::telling;
use crate::telling::{say, say_done, say_places};
use reply::Reply;
use std::io::Stdout;
use words::sizes;

// A script runs once on each night of a year.
const NIGHTS: u32 = 365;

// On how many of these nights a REVOKE of a range is refused, up to the first on which it is not.
fn refused_nights(range: u32, places: &mut [u32], objects: &mut [u32]) -> u32 {
    for night in 0..NIGHTS {
        if requests::revoke(range, places, objects).is_ok() {
            return night;
        }
    }
    NIGHTS
}

// The table of places, the table of objects, what the last LOOKUP answered, and where the story is told.
#[derive(Drop)]
pub(crate) struct Machine {
    places: [u32; sizes::PLACE_TABLE_WORDS],
    objects: [u32; sizes::OBJECT_TABLE_WORDS],
    answer: u32,
    out: Stdout,
}

impl Machine {
    // The machine before it boots: its tables are zeros.
    pub(crate) fn blank(out: Stdout) -> Machine {
        let places = [0u32; sizes::PLACE_TABLE_WORDS];
        let objects = [0u32; sizes::OBJECT_TABLE_WORDS];
        Machine {
            places,
            objects,
            answer: 0,
            out,
        }
    }

    // A chapter begins.
    pub(crate) fn chapter(&mut self, title: &str) {
        say(self.out, title);
    }

    // The machine boots.
    pub(crate) fn boot(&mut self) {
        say(self.out, "The machine boots: ");
        say_done(self.out, kernel::boot(&mut self.places, &mut self.objects));
    }

    // The root makes an EC of its own and a portal to it, to receive from the hypervisor.
    pub(crate) fn make_receiver(&mut self) {
        let portal = Domain::Root.portal();
        say(self.out, "The root makes an EC to receive with: ");
        let made = requests::create_own_ec(portal - 1, &mut self.places, &mut self.objects);
        say_done(self.out, made);
        say(self.out, "The root makes a portal to it: ");
        let made = requests::create_pt(portal, portal - 1, &mut self.places, &mut self.objects);
        say_done(self.out, made);
    }

    // The root makes a domain: its PD, an EC in it and a portal to that EC.
    pub(crate) fn make_domain(&mut self, domain: Domain) {
        let portal = domain.portal();
        say(self.out, format_args!("The root makes{}: ", The { domain }));
        let made = requests::create_pd(portal - 2, &mut self.places, &mut self.objects);
        say_done(self.out, made);
        say(self.out, "  an EC in it: ");
        let made = requests::create_ec(portal - 1, portal - 2, &mut self.places, &mut self.objects);
        say_done(self.out, made);
        say(self.out, "  a portal to that: ");
        let made = requests::create_pt(portal, portal - 1, &mut self.places, &mut self.objects);
        say_done(self.out, made);
    }

    // Lends a range to the domain behind a portal.
    fn lend_range(&mut self, caller: u32, portal: u32, item: u32, window: u32) {
        let reply = messages::lend(
            caller,
            portal,
            item,
            window,
            &mut self.places,
            &mut self.objects,
        );
        say_places(self.out, reply, " filled\n");
    }

    // The root lends a domain the portal to the next one.
    pub(crate) fn connect(&mut self, domain: Domain, next: Domain) {
        say(
            self.out,
            format_args!("The {domain} gets a portal{}: ", To { domain: next }),
        );
        let onward = requests::single(sizes::OBJECT, next.portal());
        self.lend_range(boot::ROOT_EC, domain.portal(), onward, onward);
    }

    // The root takes a thing of the hypervisor's.
    pub(crate) fn take(&mut self, thing: Thing) {
        let root = Domain::Root;
        say(self.out, format_args!("The {root} takes {thing}: "));
        let range = root.range_of(thing);
        let portal = root.portal();
        let reply = messages::take(portal, range, &mut self.places, &mut self.objects);
        say_places(self.out, reply, " filled\n");
    }

    // Lends a thing of a domain's to the next one.
    fn lend_thing(&mut self, domain: Domain, thing: Thing, next: Domain) {
        self.lend_range(
            domain.ec(),
            next.portal(),
            domain.range_of(thing),
            next.range_of(thing),
        );
    }

    // A domain lends a thing to the next one: all but the root were lent it, and lend it on.
    pub(crate) fn lend(&mut self, domain: Domain, thing: Thing, next: Domain) {
        let on = if domain == Domain::Root { "" } else { " on" };
        say(
            self.out,
            format_args!("The {domain} lends {thing}{on}{}: ", To { domain: next }),
        );
        self.lend_thing(domain, thing, next);
    }

    // A domain lends a thing on to the next one once more.
    pub(crate) fn lend_again(&mut self, domain: Domain, thing: Thing, next: Domain) {
        say(
            self.out,
            format_args!("The {domain} lends {thing} on again: "),
        );
        self.lend_thing(domain, thing, next);
    }

    // What a domain finds at a selector.
    fn find(&mut self, domain: Domain, space: u32, selector: u32)
        requires { (space < spaces) × (selector < selectors space) }
    {
        let range = requests::single(space, selector);
        let reply = requests::look_up(domain.ec(), range, &mut self.places, &mut self.objects);
        telling::say_selector(self.out, space, selector);
        telling::say_found(self.out, reply);
        self.answer = reply::answer(reply);
    }

    // A domain looks at the first selector of a thing.
    pub(crate) fn look_at(&mut self, domain: Domain, thing: Thing) {
        say(self.out, format_args!("The {domain} looks at {thing}, "));
        match thing {
            Thing::Shutter | Thing::Them => self.find(domain, sizes::IO, domain.ports()),
            Thing::Lamp | Thing::It => self.find(domain, sizes::IO, domain.lamp_port()),
            Thing::Spectrum => self.find(domain, sizes::MEMORY, PAGE),
        }
    }

    // A domain looks right before the shutter's ports.
    pub(crate) fn look_before_them(&mut self, domain: Domain) {
        say(
            self.out,
            format_args!("The {domain} looks right before them, "),
        );
        self.find(domain, sizes::IO, domain.ports() - 1);
    }

    // A domain looks right after the lamp's port.
    pub(crate) fn look_after_lamp(&mut self, domain: Domain) {
        say(
            self.out,
            format_args!("The {domain} looks right after the lamp's port, "),
        );
        self.find(domain, sizes::IO, domain.lamp_port() + 1);
    }

    // What a domain finds at an I/O selector.
    fn find_port(&mut self, domain: Domain, selector: u32)
        requires { selector < selectors io }
    {
        say(self.out, "  ");
        self.find(domain, sizes::IO, selector);
    }

    // A domain looks at each selector where it had the shutter's ports.
    pub(crate) fn look_for_shutter(&mut self, domain: Domain) {
        say(
            self.out,
            format_args!("The {domain} looks for the shutter's ports\n"),
        );
        for port in 0..SHUTTER_PORTS {
            self.find_port(domain, domain.ports() + port);
        }
    }

    // Takes back what was lent of a range of the root's.
    fn revoke(&mut self, range: u32) {
        say_done(
            self.out,
            requests::revoke(range, &mut self.places, &mut self.objects),
        );
    }

    // The root revokes what the last LOOKUP answered.
    pub(crate) fn revoke_answer(&mut self) {
        say(self.out, "The root revokes what that answer names: ");
        self.revoke(self.answer);
    }

    // A script of the root's revokes the shutter's ports with mask 0, night after night.
    pub(crate) fn revoke_for_a_year(&mut self) {
        let places = self.places;
        let objects = self.objects;
        let range = ports_with_mask_0();
        say(
            self.out,
            "A script of the root's revokes the shutter's ports with mask 0: ",
        );
        self.revoke(range);
        let refused = refused_nights(range, &mut self.places, &mut self.objects);
        say(self.out, "It does so each night for a year: ");
        say(
            self.out,
            format_args!("REFUSED {refused} times of {NIGHTS}"),
        );
        say(
            self.out,
            if self.places == places && self.objects == objects {
                ", and no word of the tables changed\n"
            } else {
                ", and THE TABLES CHANGED\n"
            },
        );
    }

    // The root revokes the shutter's ports.
    pub(crate) fn revoke_shutter(&mut self) {
        say(
            self.out,
            "The root revokes the shutter's ports and keeps its own: ",
        );
        self.revoke(Domain::Root.range_of(Thing::Shutter));
    }

    // The census of a place names each place that has its capability from there.
    fn name_heirs(&self, place: u32) {
        let mut list = [0u32; sizes::PLACES as usize];
        telling::say_place(self.out, place);
        say(self.out, ": lent to ");
        let reply = kernel::census(place, &self.places, &self.objects, &mut list);
        say_places(self.out, reply, "\n");
        telling::say_list(self.out, &list, reply::answer(reply));
    }

    // The census of each of the shutter's ports of a domain.
    pub(crate) fn name_shutter_heirs(&self, domain: Domain) {
        let first = domain.number() * sizes::STRIDE + sizes::IO_START + domain.ports();
        for port in 0..SHUTTER_PORTS {
            self.name_heirs(first + port);
        }
    }
}
