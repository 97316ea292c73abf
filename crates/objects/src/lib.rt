// The object table: kinds of objects and their permissions, words of records, storing them, and what is counted in it.
#![tactic(auto)]

ghost use Rattle.std.specs.Prelude.{◌≡◌, [], ◌<◌, ◌≤◌};
ghost use Rattle.words.specs.Sizes.{records, record_words};
ghost use Rattle.layout.specs.Numbers.{numbered};
ghost use Rattle.interface.specs.Basics.{word, put};
ghost use Rattle.interface.specs.Places.{count_word, greatest_of, greatest, object_at, record_table, named_words};
ghost use Rattle.interface.specs.Damage.{pds_below};
ghost use Rattle.interface.specs.Creations.{free_record};
ghost use Rattle.objects.specs.Records.{Sized, records_in, words_of, stored_word};

use layout::ObjectNumber;
use words::sizes;

// The kinds of objects, and that of a free record: numbers, since a table's words may hold anything. A new object's kind is the first of its words.
pub const FREE: u32 = 0;

pub const PD: u32 = 1;

pub const EC: u32 = 2;

pub const SC: u32 = 3;

pub const PT: u32 = 4;

pub const SM: u32 = 5;

// The number of CPUs.
pub const CPUS: u32 = 4;

// Where a record has its words: the kind; a PD's or an EC's domain; an EC's CPU and event base; the EC of an SC or a PT; an SC's priority and quantum; a PT's
// identifier, the last of its words; an SM's count.
pub const KIND: usize = 0;

pub const DOMAIN: usize = 1;

pub const CPU: usize = 2;

pub const EVENT_BASE: usize = 3;

pub const BOUND_EC: usize = 1;

pub const PRIORITY: usize = 2;

pub const QUANTUM: usize = 3;

pub const IDENTIFIER: usize = 4;

pub const COUNT: usize = 1;

// The words of a record, in its order: the kind, and those that objects of the kind have, with 0 after them.
#[derive(Clone, Copy)]
pub struct Record(pub u32, pub u32, pub u32, pub u32, pub u32);

// The greatest permissions of an object of a kind.
pub fn greatest_of(kind: u32) -> u32
    ensures { result ≡ greatest_of kind }
{
    match kind {
        PD => 31,
        EC => 7,
        SC => 1,
        PT => 3,
        SM => 3,
        _ => 0,
    }
}

// The greatest permissions for what a space holds: an object has those of its kind.
pub fn greatest_permissions(space: u32, kind: u32) -> u32
    ensures { result ≡ greatest space kind }
{
    if space == sizes::MEMORY {
        return 7;
    }
    if space == sizes::IO {
        return 1;
    }
    greatest_of(kind)
}

// How many words after the kind a record of a kind names: the last of them has this index.
pub fn named_words(kind: u32) -> usize
    ensures { (result ≡ named_words kind) × (result < record_words) }
{
    match kind {
        PD => DOMAIN,
        EC => EVENT_BASE,
        SC => QUANTUM,
        PT => IDENTIFIER,
        SM => COUNT,
        _ => KIND,
    }
}

// A word of a record.
pub fn load(table: &[u32], number: ObjectNumber, index: usize) -> u32
    requires { Sized table.now × (number.0 < records) × (index < record_words) }
    ensures { result ≡ object_at table.now number.0 index }
{
    table[number.words_start() + index]
}

// A word of the record that a capability's resource names, or 0 for a resource past the records, as `object_at` has it: who asks compares a kind, and 0 is none.
pub fn load_named(table: &[u32], resource: u32, index: usize) -> u32
    requires { Sized table.now × (index < record_words) }
    ensures { result ≡ object_at table.now resource index }
{
    let Some(number) = ObjectNumber::found(resource) else {
        return 0;
    };
    load(table, number, index)
}

// Stores a word of a record.
pub fn set(table: &mut [u32], number: ObjectNumber, index: usize, value: u32)
    requires { Sized table.old × (number.0 < records) × (index < record_words) }
    ensures { table.new ≡ stored_word table.old number.0 index value }
{
    let at = number.words_start() + index;
    table[at] = value;
}

// Stores the words of a new object.
pub fn make(table: &mut [u32], number: ObjectNumber, words: Record)
    requires { Sized table.old × (number.0 < records) }
    ensures { table.new ≡ record_table (put (object_at table.old) number.0 (word (words_of words))) }
{
    let start = number.words_start();
    let row = [words.0, words.1, words.2, words.3, words.4];
    table[start..start + sizes::RECORD_WORDS].copy_from_slice(&row);
}

// Stores a semaphore's count.
pub fn set_count(table: &mut [u32], number: ObjectNumber, value: u32)
    requires { Sized table.old × (number.0 < records) }
    ensures { table.new ≡ stored_word table.old number.0 count_word value }
{
    set(table, number, COUNT, value);
}

// The lowest free record, if one is free.
pub fn free_record(table: &[u32]) -> Option<ObjectNumber>
    requires { Sized table.now }
    ensures { result ≡ numbered (free_record (records_in table.now)) }
{
    let first = (0..sizes::RECORDS).find(|&at| load(table, ObjectNumber::counted(at), KIND)
        == FREE);
    match first {
        Some(number) => Some(ObjectNumber::counted(number)),
        None => None,
    }
}

// The number of PDs before a record.
pub fn pds_below(table: &[u32], number: u32) -> u32
    requires { Sized table.now × (number ≤ records) }
    ensures { result ≡ pds_below (records_in table.now) number }
{
    (0..number)
        .filter(|&at| load(table, ObjectNumber::counted(at), KIND) == PD)
        .count() as u32
}
