// Marks: a bit for each place, by its number; and ranges of places, which are marked together.
#![tactic(auto)]

ghost use Rattle.std.specs.Prelude.{◌≡◌, ℕ, ◌+◌, ◌-◌, ◌<◌, ◌≤◌, false, List, ◌++◌, length, drop};
ghost use Rattle.std.specs.Iterator.{at_most};
ghost use Rattle.words.specs.Sizes.{places};
ghost use Rattle.interface.specs.Places.{place_table_words};
ghost use Rattle.interface.specs.Effects.{among};
ghost use Rattle.marks.specs.PlaceBits.{mark_words, bit_at, SetIf, RangeToo, Next, marked_places};

use layout::Place;
use std::marker::Model;
use words::sizes;

// The bits of a word, and the words that have a bit for each place.
pub const WORD_BITS: u32 = 32;

const MARK_WORDS: usize = (sizes::PLACES / WORD_BITS) as usize;

// A range of places: one, and as many as its size says from it on.
#[derive(Clone, Copy)]
pub struct PlaceRange {
    pub first: Place,
    pub size: u32,
    ghost ends: { first.0 + size ≤ places },
}

impl PlaceRange {
    // Whether a place is among those of the range.
    pub fn contains(self, place: Place) -> bool
        ensures { result ≡ among self.first.0 self.size place.0 }
    {
        place.is_among(self.first, self.size)
    }
}

// A mark for each place, which is set or not.
#[derive(Drop)]
pub struct Marks {
    words: [u32; MARK_WORDS],
}

impl Model for Marks {
    ghost Value = { List ℕ };

    ghost view = { λ marks. marks.words };

    ghost invariant = { λ marks. length marks.words ≡ mark_words };
}

// The marked places from a number on, rising.
#[derive(Drop)]
pub struct MarkedPlaces<'a> {
    marks: &'a Marks,
    from: u32,
    ghost inside: { from ≤ places },
}

impl Marks {
    // Marks of no place, for a place table. They begin with a 0 that the compiler does not know, since it has no code of its own for so many known ones and calls `memset`.
    pub fn blank(table: &[u32]) -> Marks
        requires { length table.now ≡ place_table_words }
        ensures { (number : ℕ) → bit_at result number ≡ false }
    {
        let zero = (table.len() - sizes::PLACE_TABLE_WORDS) as u32;
        Marks {
            words: [zero; MARK_WORDS],
        }
    }

    // Whether a place is marked.
    pub fn is_set(&self, place: Place) -> bool
        requires { place.0 < places }
        ensures { result ≡ bit_at self.now place.0 }
    {
        let number = place.number();
        (self.words[(number / WORD_BITS) as usize] >> (number % WORD_BITS)) % 2 == 1
    }

    // Marks a place if asked.
    pub fn set(&mut self, place: Place, asked: bool)
        requires { place.0 < places }
        ensures { SetIf asked self.old place.0 self.new }
    {
        if asked {
            let number = place.number();
            let at = (number / WORD_BITS) as usize;
            self.words[at] = self.words[at] | (1 << (number % WORD_BITS));
        }
    }

    // Marks the places of a range too if asked.
    pub fn set_range(&mut self, range: PlaceRange, asked: bool)
        ensures { RangeToo asked self.old range.first.0 range.size self.new }
    {
        for offset in 0..range.size {
            self.set(range.first.after(offset), asked);
        }
    }

    // The marked places, rising.
    pub fn places(&self) -> MarkedPlaces<'_>
        ensures { (result.marks.now ≡ self.now) × (result.from ≡ 0) }
    {
        MarkedPlaces {
            marks: self,
            from: 0,
        }
    }

    // The number of the marked places.
    pub fn count(&self) -> u32
        ensures { result ≡ length (marked_places self.now) }
    {
        self.words.iter().map(|word| word.count_ones()).sum()
    }

    // Puts the marked places at the start of a list that is long enough, rising.
    pub fn list(&self, list: &mut [u32])
        requires { length (marked_places self.now) ≤ length list.old }
        ensures { list.new ≡ marked_places self.now ++ drop (length (marked_places self.now)) list.old }
    {
        for (count, place) in self.places().enumerate() {
            list[count] = place.number();
        }
    }
}

impl<'a> Iterator for MarkedPlaces<'a> {
    type Item = Place;

    ghost next_gives = { λ before found after. (after.marks.now ≡ before.marks.now) × Next before.marks.now before.from found after.from };

    ghost remaining = { λ state. at_most (places - state.from) };

    // The marks of a word are looked at together: the search goes on by the rest of a word, and not number by number as a `for` would.
    fn next(&mut self) -> Option<Place> {
        let marks = self.marks;
        let mut number = self.from;
        while number < sizes::PLACES {
            let left = WORD_BITS - number % WORD_BITS;
            let word = marks.words[(number / WORD_BITS) as usize];
            let unmarked = (word >> (number % WORD_BITS)).trailing_zeros();
            if unmarked < left {
                let place = Place::counted(number + unmarked);
                self.from = place.number() + 1;
                return Some(place);
            }
            number += left;
        }
        self.from = sizes::PLACES;
        None
    }
}
