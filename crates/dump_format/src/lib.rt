// The dump, both tables as bytes: its sizes.
#![tactic(auto)]

use words::sizes;

pub mod theorems;

// The bytes of a word, of the place words, and of a whole dump.
pub const WORD_BYTES: usize = 4;

pub const PLACE_BYTES: usize = WORD_BYTES * sizes::PLACE_TABLE_WORDS;

pub const DUMP_BYTES: usize = PLACE_BYTES + WORD_BYTES * sizes::OBJECT_TABLE_WORDS;
