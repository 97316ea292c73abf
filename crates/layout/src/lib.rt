// Where things are: selector, place and object number, and the capability that a place holds.
//
// Selector, place and object number are a one-number struct each, so that none is taken for another: their numbers are private to this crate, and its
// conversions are the only way across. Each conversion says what its number is.
#![tactic(auto)]

ghost use Rattle.std.specs.Prelude.{◌≡◌, ◌&&◌, ◌+◌, ◌*◌, ◌%◌, ◌<◌, ◌≤◌, leb, ltb};
ghost use Rattle.words.specs.Sizes.{domains, spaces, object, selectors, stride, places, place_words, records, record_words, place_of, domain_of, space_of, selector_of};
ghost use Rattle.layout.specs.Numbers.{selected, placed, link_of, linked, numbered};

use words::sizes;

#[derive(Clone, Copy, PartialEq, Eq)]
pub struct Selector(u32);

#[derive(Clone, Copy, PartialEq, Eq, PartialOrd, Ord)]
pub struct Place(u32);

#[derive(Clone, Copy, PartialEq, Eq)]
pub struct ObjectNumber(u32);

// A capability as a place holds it: the resource's number, the permissions, the parent place plus 1 (0: none), and the depth. Each is a word of the table, which may hold anything.
#[derive(Clone, Copy, PartialEq, Eq)]
pub struct Cap {
    pub resource: u32,
    pub permissions: u32,
    pub parent: u32,
    pub depth: u32,
}

impl Selector {
    // The object selector that a word names: object selectors wrap.
    pub fn wrapped(word: u32) -> Selector
        ensures { result.0 ≡ word % selectors object }
    {
        Selector(word % sizes::OBJECT_SELECTORS)
    }

    // The selector that a word names in a space: object selectors wrap, and a page's or a port's is below the number of selectors of its space.
    pub fn of(space: u32, word: u32) -> Option<Selector>
        ensures { result ≡ selected space word }
    {
        if space == sizes::OBJECT {
            return Some(Selector(word % sizes::OBJECT_SELECTORS));
        }
        if sizes::PAGE_SELECTORS <= word {
            return None;
        }
        Some(Selector(word))
    }

    // The selector that a count along a range has come to: the one conversion of such a count.
    pub fn counted(number: u32) -> Selector
        requires { number < selectors object }
        ensures { result.0 ≡ number }
    {
        Selector(number)
    }

    // The selector as a word of the interface: a range's or a descriptor's base, the page or port that boot puts there, what is printed.
    pub fn number(self) -> u32
        ensures { result ≡ self.0 }
    {
        self.0
    }
}

impl Place {
    // The place that a loop over the places has counted to: the one conversion of such a count.
    pub fn counted(number: u32) -> Place
        requires { number < places }
        ensures { result.0 ≡ number }
    {
        Place(number)
    }

    // The place of a selector in a space of a domain.
    pub fn of(domain: u32, space: u32, selector: Selector) -> Place
        requires { (domain < domains) × (space < spaces) × (selector.0 < selectors space) }
        ensures { result.0 ≡ place_of domain space selector.0 }
    {
        Place(domain * sizes::STRIDE + sizes::space_start(space) + selector.0)
    }

    // The first place of a domain.
    pub fn first_of(domain: u32) -> Place
        requires { domain < domains }
        ensures { result.0 ≡ domain * stride }
    {
        Place(domain * sizes::STRIDE)
    }

    // The place of a word's number, if there is one.
    pub fn found(word: u32) -> Option<Place>
        ensures { result ≡ placed word }
    {
        if word < sizes::PLACES {
            return Some(Place(word));
        }
        None
    }

    // The link word that leads to the place: a child's parent word.
    pub fn link(self) -> u32
        requires { self.0 < places }
        ensures { result ≡ link_of self.0 }
    {
        self.0 + 1
    }

    // The place that a link word leads to, if it leads to one.
    pub fn linked(word: u32) -> Option<Place>
        ensures { result ≡ linked word }
    {
        if (word == 0) | (sizes::PLACES < word) {
            return None;
        }
        Some(Place(word - 1))
    }

    // The place as a word of the interface, a list's word of a census or where a fault is, and as the number of the bit that marks it.
    pub fn number(self) -> u32
        ensures { result ≡ self.0 }
    {
        self.0
    }

    // Where the place's words begin in the place table.
    pub fn words_start(self) -> usize
        ensures { result ≡ self.0 * place_words }
    {
        (self.0 as usize) * sizes::PLACE_WORDS
    }

    // The place at an offset from this one.
    pub fn after(self, offset: u32) -> Place
        requires { self.0 + offset < places }
        ensures { result.0 ≡ self.0 + offset }
    {
        Place(self.0 + offset)
    }

    // Whether the place is among as many places as `size` says from `first` on.
    pub fn is_among(self, first: Place, size: u32) -> bool
        requires { first.0 + size ≤ places }
        ensures { result ≡ (leb first.0 self.0 && ltb self.0 (first.0 + size)) }
    {
        (first.0 <= self.0) & (self.0 < first.0 + size)
    }

    pub fn domain(self) -> u32
        ensures { result ≡ domain_of self.0 }
    {
        self.0 / sizes::STRIDE
    }

    pub fn space(self) -> u32
        ensures { result ≡ space_of self.0 }
    {
        let at = self.0 % sizes::STRIDE;
        if at < sizes::IO_START {
            return sizes::MEMORY;
        }
        if at < sizes::OBJECT_START {
            return sizes::IO;
        }
        sizes::OBJECT
    }

    pub fn selector(self) -> Selector
        ensures { result.0 ≡ selector_of self.0 }
    {
        Selector(self.0 % sizes::STRIDE - sizes::space_start(self.space()))
    }
}

impl ObjectNumber {
    // The object whose record a loop over the records has counted to: the one conversion of such a count.
    pub fn counted(number: u32) -> ObjectNumber
        requires { number < records }
        ensures { result.0 ≡ number }
    {
        ObjectNumber(number)
    }

    // The object that an object capability is for: its resource.
    pub fn named_by(cap: Cap) -> ObjectNumber
        requires { cap.resource < records }
        ensures { result.0 ≡ cap.resource }
    {
        ObjectNumber(cap.resource)
    }

    // The EC that an SC or a PT is bound to, by the EC word of its record.
    pub fn bound_by(ec_word: u32) -> ObjectNumber
        requires { ec_word < records }
        ensures { result.0 ≡ ec_word }
    {
        ObjectNumber(ec_word)
    }

    // The object number that a word is, if it is one.
    pub fn found(word: u32) -> Option<ObjectNumber>
        ensures { result ≡ numbered word }
    {
        if word < sizes::RECORDS {
            return Some(ObjectNumber(word));
        }
        None
    }

    // The object number as a word of the interface: the resource of its capabilities, an EC word, or where a fault is.
    pub fn number(self) -> u32
        ensures { result ≡ self.0 }
    {
        self.0
    }

    // Where the object's words begin in the object table.
    pub fn words_start(self) -> usize
        ensures { result ≡ self.0 * record_words }
    {
        (self.0 as usize) * sizes::RECORD_WORDS
    }
}
