// The range descriptor: a range of selectors of a space with a mask, its word, reading a word, matching an item's range with its window, and why an item is null.
#![tactic(auto)]

ghost use Rattle.std.specs.Prelude.{Err, ◌≡◌, ◌+◌, ◌^◌, ◌<◌};
ghost use Rattle.words.specs.Sizes.{selectors};
ghost use Rattle.descriptor.specs.declared.Reading.TheVariants.{Malformed};
ghost use Rattle.descriptor.specs.Descriptors.{kept, describe, reading, matched, reason_number, why_null, well_formed, Proper};

use layout::Selector;
use words::{ranges, sizes};

pub mod theorems;

// A range of selectors of a space, and a mask.
#[derive(Clone, Copy)]
pub struct Range {
    space: u32,
    base: u32,
    order: u32,
    mask: u32,
}

impl Range {
    pub fn of(space: u32, base: Selector, order: u32, mask: u32) -> Range
        ensures { result ≡ record { space = space; base = base.0; order = order; mask = mask } }
    {
        Range {
            space,
            base: base.number(),
            order,
            mask,
        }
    }

    pub fn space(self) -> u32
        ensures { result ≡ self.space }
    {
        self.space
    }

    pub fn order(self) -> u32
        ensures { result ≡ self.order }
    {
        self.order
    }

    pub fn mask(self) -> u32
        ensures { result ≡ self.mask }
    {
        self.mask
    }

    // The selector at an offset of the range.
    pub fn at(self, offset: u32) -> Selector
        requires { Proper self × (offset < 2 ^ self.order) }
        ensures { (result.0 ≡ self.base + offset) × (result.0 < selectors self.space) }
    {
        Selector::counted(self.base + offset)
    }
}

// What a descriptor says: nothing, no range, or a range. Three outcomes and no `Result`: each call answers the three by itself, and `matched` takes the null one before the malformed.
#[derive(Clone, Copy)]
pub enum Reading {
    Null,
    Malformed,
    Good(Range),
}

// Why a typed item is received as null.
#[derive(Clone, Copy)]
pub enum Reason {
    NullDescriptor,
    MalformedDescriptor,
    TypesDiffer,
    NothingFilled,
    TranslationBroke,
}

// An item's range and its window, or why the item is null.
pub type Match = Result<(Range, Range), Reason>;

// What the receiver of a typed item is shown: nothing, for a reason, or a range.
pub type Received = Result<Range, Reason>;

impl From<Reason> for u32 {
    ghost from_gives = { λ reason number. number ≡ reason_number reason };

    // The number of a reason.
    fn from(reason: Reason) -> u32 {
        match reason {
            Reason::NullDescriptor => 1,
            Reason::MalformedDescriptor => 2,
            Reason::TypesDiffer => 3,
            Reason::NothingFilled => 4,
            Reason::TranslationBroke => 5,
        }
    }
}

// Why an item is null: the number of its reason, or 0 where it is not null, as the received word has it.
pub fn why_null(received: Received) -> u32
    ensures { result ≡ why_null received }
{
    match received {
        Err(reason) => u32::from(reason),
        Ok(_) => 0,
    }
}

impl Reading {
    // Why a malformed item is null, by its window: a null descriptor comes first.
    fn beside_malformed(self) -> Reason
        ensures { matched Malformed self ≡ Err result }
    {
        match self {
            Reading::Null => Reason::NullDescriptor,
            Reading::Malformed => Reason::MalformedDescriptor,
            Reading::Good(_) => Reason::MalformedDescriptor,
        }
    }

    // The rule that matches an item's range with its window.
    pub fn matching(self, window: Reading) -> Match
        ensures { result ≡ matched self window }
    {
        match self {
            Reading::Null => Err(Reason::NullDescriptor),
            Reading::Malformed => Err(window.beside_malformed()),
            Reading::Good(item) => match window {
                Reading::Null => Err(Reason::NullDescriptor),
                Reading::Malformed => Err(Reason::MalformedDescriptor),
                Reading::Good(other) => {
                    if item.space == other.space {
                        Ok((item, other))
                    } else {
                        Err(Reason::TypesDiffer)
                    }
                }
            },
        }
    }
}

// Whether an order and a base are those of a range of a space.
fn is_range(space: u32, order: u32, base: u32) -> bool
    requires { (order < 32) × (base < 2 ^ 20) }
    ensures { result ≡ well_formed space order base }
{
    (order <= sizes::greatest_order(space))
        & ranges::is_aligned(order, base)
        & ((space == sizes::OBJECT) | (base + ranges::size(order) <= sizes::selectors(space)))
}

// A range descriptor, as its word. Every word of type 0 is the null descriptor.
#[derive(Clone, Copy)]
pub struct Descriptor(u32);

impl Descriptor {
    pub const NULL: Descriptor = Descriptor(0);

    pub fn from_word(word: u32) -> Descriptor
        ensures { result.0 ≡ kept word }
    {
        if word % 4 == 0 {
            return Descriptor::NULL;
        }
        Descriptor(word)
    }

    // The descriptor of a range, from the space, base, order and mask.
    pub fn of(space: u32, base: Selector, order: u32, mask: u32) -> Descriptor
        requires { Proper (record { space = space; base = base.0; order = order; mask = mask }) }
        ensures { result.0 ≡ describe (record { space = space; base = base.0; order = order; mask = mask }) }
    {
        Descriptor(space + 1 + mask * 4 + order * 128 + base.number() * 4096)
    }

    pub fn word(self) -> u32
        ensures { result ≡ self.0 }
    {
        self.0
    }

    // What the descriptor says.
    pub fn read(self) -> Reading
        ensures { result ≡ reading self.0 }
    {
        let word = self.0;
        if word % 4 == 0 {
            return Reading::Null;
        }
        let space = word % 4 - 1;
        let mask = (word >> 2) % 32;
        let order = (word >> 7) % 32;
        let base = word >> 12;
        if !is_range(space, order, base) {
            return Reading::Malformed;
        }
        if space == sizes::OBJECT {
            return Reading::Good(Range {
                space,
                base: base % sizes::OBJECT_SELECTORS,
                order,
                mask,
            });
        }
        Reading::Good(Range {
            space,
            base,
            order,
            mask,
        })
    }
}
