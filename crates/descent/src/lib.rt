// Which places descend from some places, by walks along parent links: the nearest ancestor among them, and the marks of all their strict descendants.
#![tactic(auto)]

ghost use Rattle.std.specs.Prelude.{◌≡◌, ℕ, ◌+◌, ◌*◌, ◌<◌, ◌≤◌, false};
ghost use Rattle.words.specs.Sizes.{places};
ghost use Rattle.layout.specs.Numbers.{linked};
ghost use Rattle.interface.specs.Places.{cap_at};
ghost use Rattle.interface.specs.Effects.{ancestors, below};
ghost use Rattle.marks.specs.PlaceBits.{word_bits, bit_at};
ghost use Rattle.places.specs.Table.{Sized};
ghost use Rattle.descent.specs.Walks.{Linked, InSpace, first_among, Marked, Marking, parentless_from};

use layout::Place;
use marks::{Marks, PlaceRange, WORD_BITS};
use words::sizes;

// The place that a place's parent word leads to, if it leads to one.
pub fn parent(table: &[u32], place: Place) -> Option<Place>
    requires { Sized table.now × (place.0 < places) }
    ensures { result ≡ linked (cap_at table.now place.0).parent }
{
    Place::linked(places::load(table, place).parent)
}

// The link word of the nearest strict ancestor of a place among those of a range, or 0 where there is none. The walk goes to the parent, whose depth is one less. It calls itself, the form
// that is asked for here (docs/DECISIONS.md), and answers a word, so that the call is its last step and takes no stack of its own. Apart from its callers it has the registers to itself.
#[inline(never)]
fn ancestor_word(table: &[u32], place: Place, range: PlaceRange) -> u32
    requires { Sized table.now × Linked (cap_at table.now) × (place.0 < places) }
    ensures { result ≡ first_among range.first.0 range.size (ancestors (cap_at table.now) place.0) }
{
    let cap = places::load(table, place);
    let Some(above) = Place::linked(cap.parent) else {
        return 0;
    };
    if range.contains(above) {
        return cap.parent;
    }
    ancestor_word(table, above, range)
}

// The nearest strict ancestor of a place among those of a range, if there is one.
pub fn ancestor(table: &[u32], place: Place, range: PlaceRange) -> Option<Place>
    requires { Sized table.now × Linked (cap_at table.now) × (place.0 < places) }
    ensures { result ≡ linked (first_among range.first.0 range.size (ancestors (cap_at table.now) place.0)) }
{
    Place::linked(ancestor_word(table, place, range))
}

// A table with links that a walk can follow, and a range whose strict descendants are looked for in it. The marks are lent to each walk and are no part of it: they are two arrays,
// written one after the other, and what they tell holds of both together, so no fact of the struct could hold in between.
#[derive(Clone, Copy)]
struct Search<'a> {
    table: &'a [u32],
    range: PlaceRange,
    ghost sized: { Sized table.now },
    ghost links: { Linked (cap_at table.now) },
}

impl<'a> Search<'a> {
    // Whether a place is a strict descendant of one of the range. The walk from it ends at a place without a parent, or where a parent tells: it is in the range, before `walked`, or
    // known.
    fn walk_below(&self, marked: &Marks, known: &Marks, walked: Place, place: Place) -> bool
        requires { Marking self.now.table.now self.now.range.first.0 self.now.range.size walked.0 known.now marked.now × (place.0 < places) }
        ensures { result ≡ below (cap_at self.now.table.now) self.now.range.first.0 self.now.range.size place.0 }
    {
        let mut at = place;
        while let Some(above) = parent(self.table, at) {
            if self.range.contains(above) {
                return true;
            }
            if (above < walked) | known.is_set(above) {
                return marked.is_set(above);
            }
            at = above;
        }
        false
    }

    // Stores what that walk found for each place that it came by, all of which it holds for. A place is stored before its parent is asked, and so the walk is a `loop`.
    fn settle(
        &self,
        marked: &mut Marks,
        known: &mut Marks,
        walked: Place,
        place: Place,
        found: bool,
    )
        requires { Marking self.now.table.now self.now.range.first.0 self.now.range.size walked.0 known.old marked.old × (place.0 < places) × (found ≡ below (cap_at self.now.table.now) self.now.range.first.0 self.now.range.size place.0) }
        ensures { Marking self.now.table.now self.now.range.first.0 self.now.range.size walked.0 known.new marked.new }
    {
        let mut at = place;
        loop {
            known.set(at, true);
            marked.set(at, found);
            let Some(above) = parent(self.table, at) else {
                return;
            };
            if self.range.contains(above) | (above < walked) | known.is_set(above) {
                return;
            }
            at = above;
        }
    }

    // Whether a place is a strict descendant of one of the range, which is known of it from now on, and of the places that a walk from it came by.
    fn find_out(&self, marked: &mut Marks, known: &mut Marks, walked: Place, place: Place) -> bool
        requires { Marking self.now.table.now self.now.range.first.0 self.now.range.size walked.0 known.old marked.old × (place.0 < places) × (walked.0 ≤ place.0) }
        ensures { Marking self.now.table.now self.now.range.first.0 self.now.range.size walked.0 known.new marked.new × (result ≡ below (cap_at self.now.table.now) self.now.range.first.0 self.now.range.size place.0) }
    {
        if known.is_set(place) {
            return marked.is_set(place);
        }
        let found = self.walk_below(marked, known, walked, place);
        self.settle(marked, known, walked, place, found);
        found
    }

    // Whether a place is a strict descendant of one of the range, where those before it that are have their marks: its parent tells.
    fn descends(&self, marked: &mut Marks, known: &mut Marks, place: Place) -> bool
        requires { Marking self.now.table.now self.now.range.first.0 self.now.range.size place.0 known.old marked.old × (place.0 < places) }
        ensures { Marking self.now.table.now self.now.range.first.0 self.now.range.size place.0 known.new marked.new × (result ≡ below (cap_at self.now.table.now) self.now.range.first.0 self.now.range.size place.0) }
    {
        let Some(above) = parent(self.table, place) else {
            return false;
        };
        if self.range.contains(above) {
            return true;
        }
        if above < place {
            return marked.is_set(above);
        }
        self.find_out(marked, known, place, above)
    }

    // Marks the strict descendants among the places of a word of marks from one on. Where none has a parent, none is.
    fn mark_word(&self, marked: &mut Marks, known: &mut Marks, from: Place)
        requires { Marking self.now.table.now self.now.range.first.0 self.now.range.size from.0 known.old marked.old × (from.0 + word_bits ≤ places) }
        ensures { Marking self.now.table.now self.now.range.first.0 self.now.range.size (from.0 + word_bits) known.new marked.new }
    {
        if are_parentless(self.table, from) {
            return;
        }
        for offset in 0..WORD_BITS {
            let place = from.after(offset);
            let below = self.descends(marked, known, place);
            marked.set(place, below);
        }
    }

    // Marks the strict descendants among the places of so many words of marks from one on.
    fn mark_run(&self, marked: &mut Marks, known: &mut Marks, from: Place, words: u32)
        requires { Marking self.now.table.now self.now.range.first.0 self.now.range.size from.0 known.old marked.old × (from.0 + words * word_bits ≤ places) }
        ensures { Marking self.now.table.now self.now.range.first.0 self.now.range.size (from.0 + words * word_bits) known.new marked.new }
    {
        for word in 0..words {
            self.mark_word(marked, known, from.after(word * WORD_BITS));
        }
    }
}

// Whether the places of a word of marks from one on have no parents. All are looked at, which is quicker than to stop at the first that has one.
fn are_parentless(table: &[u32], from: Place) -> bool
    requires { Sized table.now × (from.0 + word_bits ≤ places) }
    ensures { result ≡ parentless_from (cap_at table.now) from.0 word_bits }
{
    (0..WORD_BITS).fold(true, |parentless, offset| {
        parentless & (places::load(table, from.after(offset)).parent == 0)
    })
}

// Marks the strict descendants of the places of a range, which are all of its space.
pub fn mark_below(table: &[u32], range: PlaceRange, marked: &mut Marks)
    requires { Sized table.now × Linked (cap_at table.now) × InSpace range.first.0 range.size × ((number : ℕ) → bit_at marked.old number ≡ false) }
    ensures { Marked (below (cap_at table.now) range.first.0 range.size) marked.new }
{
    let space = range.first.space();
    let start = sizes::space_start(space);
    let words = sizes::selectors(space) / WORD_BITS;
    let search = Search { table, range };
    let mut known = Marks::blank(table);
    for domain in 0..sizes::DOMAINS {
        let from = Place::first_of(domain).after(start);
        search.mark_run(marked, &mut known, from, words);
    }
}
