// Writes to standard output, in words, what the story is told with: the replies of the calls, ranges, selectors and places. Std says nothing of what is written, and so no
// contract does.
ghost use Rattle.descriptor.specs.Descriptors.{Proper};

use crate::spectrometer::Domain;
use descriptor::{Descriptor, Range, Reading};
use layout::Place;
use reply::Reply;
use std::fmt;
use std::fmt::Display;
use std::io::Stdout;
use words::{ranges, sizes};

// So many of a thing.
#[derive(Clone, Copy)]
struct Counted {
    count: u32,
    thing: &'static str,
}

impl Display for Counted {
    fn fmt<W: fmt::Write>(&self, f: &mut fmt::Formatter<W>) -> fmt::Result {
        let plural = if self.count == 1 { "" } else { "s" };
        write!(f, "{}{}{plural}", self.count, self.thing)
    }
}

// A selector of a space.
#[derive(Clone, Copy)]
struct Position {
    space: u32,
    number: u32,
}

impl Display for Position {
    fn fmt<W: fmt::Write>(&self, f: &mut fmt::Formatter<W>) -> fmt::Result {
        let space = match self.space {
            sizes::MEMORY => "memory selector ",
            sizes::IO => "I/O selector ",
            _ => "object selector ",
        };
        write!(f, "{space}{}", self.number)
    }
}

// Standard output, on which each phrase of a text is written by itself: one that cannot be written keeps none of the next ones back.
#[derive(Drop)]
struct Phrases {
    out: Stdout,
}

impl fmt::Write for Phrases {
    fn write_str(&mut self, phrase: &str) -> fmt::Result {
        let _ = self.out.write_all(phrase.as_bytes());
        Ok(())
    }
}

// Writes a text.
pub(crate) fn say<D: Display + Drop>(out: Stdout, text: D) {
    let _ = fmt::Write::write(&mut Phrases { out }, text);
}

// Begins a line with a selector of a space.
pub(crate) fn say_selector(out: Stdout, space: u32, number: u32) {
    say(out, format_args!("{}: ", Position { space, number }));
}

// Ends a line with whether a call was done, or else the status of its refusal.
pub(crate) fn say_done(out: Stdout, reply: Reply) {
    if reply.is_ok() {
        say(out, "done\n");
        return;
    }
    say(
        out,
        format_args!("REFUSED with status {}\n", reply::status(reply)),
    );
}

// Ends a line with how many places a call answers with, and what they are.
pub(crate) fn say_places(out: Stdout, reply: Reply, what: &str) {
    if let Ok(count) = reply {
        let places = Counted {
            count,
            thing: " place",
        };
        say(out, format_args!("{places}{what}"));
    } else {
        say_done(out, reply);
    }
}

// Writes where a place is: its domain, space and selector.
pub(crate) fn say_place(out: Stdout, word: u32) {
    let Some(place) = Place::found(word) else {
        say(out, "NO PLACE");
        return;
    };
    let number = place.domain();
    let name = Domain::numbered(number).map_or("UNKNOWN", |domain| domain.name());
    let selector = Position {
        space: place.space(),
        number: place.selector().number(),
    };
    say(out, format_args!("domain {number} ({name}), {selector}"));
}

// Writes the first places of a list, one a line.
pub(crate) fn say_list(out: Stdout, list: &[u32], count: u32) {
    for &word in list.iter().take(count as usize) {
        say(out, "  ");
        say_place(out, word);
        say(out, "\n");
    }
}

// Ends a line with a range.
fn say_range(out: Stdout, range: Range)
    requires { Proper range }
{
    let thing = match range.space() {
        sizes::MEMORY => " page",
        sizes::IO => " port",
        _ => " object",
    };
    let count = ranges::size(range.order());
    let resources = Counted { count, thing };
    let first = range.at(0).number();
    say(out, format_args!("{resources} from selector {first} on\n"));
}

// Ends a line with what a LOOKUP found.
pub(crate) fn say_found(out: Stdout, reply: Reply) {
    let Ok(word) = reply else {
        say_done(out, reply);
        return;
    };
    match Descriptor::from_word(word).read() {
        Reading::Null => say(out, "nothing\n"),
        Reading::Malformed => say(out, "NO RANGE\n"),
        Reading::Good(found) => say_range(out, found),
    }
}
