// The sizes of the layout for the code: each number is said once, and what follows from others is computed. specs/Sizes.antt says what each means; a table has as many words
// as its places or records have together.
ghost use Rattle.std.specs.Prelude.{◌≡◌, ◌<◌};
ghost use Rattle.words.specs.Sizes.{spaces, start, greatest_order, selectors};

pub const DOMAINS: u32 = 8;

// The spaces are numbers: a descriptor has its type's bits, a place its part of a domain, and any word may name one.
pub const MEMORY: u32 = 0;

pub const IO: u32 = 1;

pub const OBJECT: u32 = 2;

// The orders of whole spaces and the numbers of their selectors: of the object space, and of the memory and the I/O space.
pub const OBJECT_ORDER: u32 = 8;

pub const OBJECT_SELECTORS: u32 = 1 << OBJECT_ORDER;

pub const PAGE_ORDER: u32 = 6;

pub const PAGE_SELECTORS: u32 = 1 << PAGE_ORDER;

// Where the spaces begin among the places of their domain, and how many places that has.
pub const IO_START: u32 = PAGE_SELECTORS;

pub const OBJECT_START: u32 = IO_START + PAGE_SELECTORS;

pub const STRIDE: u32 = OBJECT_START + OBJECT_SELECTORS;

pub const PLACES: u32 = DOMAINS * STRIDE;

pub const PLACE_WORDS: usize = 4;

pub const PLACE_TABLE_WORDS: usize = PLACE_WORDS * PLACES as usize;

pub const RECORDS: u32 = 64;

pub const RECORD_WORDS: usize = 5;

pub const OBJECT_TABLE_WORDS: usize = RECORD_WORDS * RECORDS as usize;

pub const GREATEST_DEPTH: u32 = 63;

pub const BLOCK_WORDS: usize = 64;

// The order of the range that is a whole space.
pub fn greatest_order(space: u32) -> u32
    ensures { result ≡ greatest_order space }
{
    if space == OBJECT {
        return OBJECT_ORDER;
    }
    PAGE_ORDER
}

// The number of selectors of a space.
pub fn selectors(space: u32) -> u32
    ensures { result ≡ selectors space }
{
    if space == OBJECT {
        return OBJECT_SELECTORS;
    }
    PAGE_SELECTORS
}

// Where a space begins among the places of its domain.
pub fn space_start(space: u32) -> u32
    requires { space < spaces }
    ensures { result ≡ start space }
{
    if space == MEMORY {
        return 0;
    }
    if space == IO {
        return IO_START;
    }
    OBJECT_START
}
