// The rules that records keep.
#![tactic(auto)]

ghost use Rattle.std.specs.Prelude.{◌≡◌, ◌<◌, ◌≤◌, true, length};
ghost use Rattle.words.specs.Sizes.{records, record_words};
ghost use Rattle.interface.specs.Basics.{all_below};
ghost use Rattle.interface.specs.Places.{SM, object_table_words, domain_word, object_at, kind_of};
ghost use Rattle.interface.specs.Boot.{cpus};
ghost use Rattle.interface.specs.Damage.{fixed_record, interrupt_rule, unnamed_rule, used_first, pds_below, pd_rule, has_pd, is_ec, ec_rule, sc_rule, pt_rule};
ghost use Rattle.record_rules.specs.RecordKeeping.{records_in, clear_from, rest_clear, has_words, record_keeps, UsedBefore, Numbered, counted_pds};

use layout::ObjectNumber;
use words::sizes;

// The greatest priority and quantum.
const GREATEST_PRIORITY: u32 = 255;

const GREATEST_QUANTUM: u32 = 1048575;

// A word of the record that a loop over the records has counted to.
pub fn word_of(objects: &[u32], number: u32, index: usize) -> u32
    requires { (length objects.now ≡ object_table_words) × (number < records) × (index < record_words) }
    ensures { result ≡ object_at objects.now number index }
{
    objects::load(objects, ObjectNumber::counted(number), index)
}

// The kind of a record.
pub fn kind_of(objects: &[u32], number: u32) -> u32
    requires { (length objects.now ≡ object_table_words) × (number < records) }
    ensures { result ≡ kind_of (records_in objects.now) number }
{
    word_of(objects, number, objects::KIND)
}

// Whether a record's words from an index on are 0.
fn is_clear_from(objects: &[u32], number: u32, index: usize) -> bool
    requires { (length objects.now ≡ object_table_words) × (number < records) × (index ≤ record_words) }
    ensures { result ≡ clear_from (records_in objects.now) number index }
{
    (index..sizes::RECORD_WORDS).fold(
        true,
        |clear, at| clear & (word_of(objects, number, at) == 0),
    )
}

// Whether the words of the records from one on are 0. Each is looked at, without leaving early, so that the compiler makes vector code.
fn rest_is_clear(objects: &[u32], number: u32) -> bool
    requires { (length objects.now ≡ object_table_words) × (number ≤ records) }
    ensures { result ≡ rest_clear objects.now number }
{
    let start = sizes::RECORD_WORDS * (number as usize);
    objects[start..]
        .iter()
        .fold(true, |clear, &word| clear & (word == 0))
}

// Whether a record's words are four given ones and then 0.
fn has_words(objects: &[u32], number: u32, kind: u32, first: u32, second: u32, third: u32) -> bool
    requires { (length objects.now ≡ object_table_words) × (number < records) }
    ensures { result ≡ has_words (records_in objects.now) number kind first second third }
{
    (kind_of(objects, number) == kind)
        & (word_of(objects, number, 1) == first)
        & (word_of(objects, number, 2) == second)
        & (word_of(objects, number, 3) == third)
        & is_clear_from(objects, number, 4)
}

// Rule 2: the idle SCs and the root's PD, EC and SC are as at boot.
pub fn fixed_keeps(objects: &[u32], number: u32) -> bool
    requires { (length objects.now ≡ object_table_words) × (number < records) }
    ensures { result ≡ fixed_record (records_in objects.now) number }
{
    if number < objects::CPUS {
        return has_words(objects, number, objects::SC, boot::NO_EC, 0, 0);
    }
    if number == boot::ROOT_PD {
        return has_words(objects, number, objects::PD, places::ROOT, 0, 0);
    }
    if number == boot::ROOT_EC {
        return has_words(objects, number, objects::EC, places::ROOT, 0, 0);
    }
    if number == boot::ROOT_SC {
        return has_words(
            objects,
            number,
            objects::SC,
            boot::ROOT_EC,
            boot::ROOT_PRIORITY,
            boot::ROOT_QUANTUM,
        );
    }
    true
}

// Rule 3: the records of the interrupts are SMs.
pub fn interrupt_keeps(objects: &[u32], number: u32) -> bool
    requires { (length objects.now ≡ object_table_words) × (number < records) }
    ensures { result ≡ interrupt_rule (records_in objects.now) number }
{
    (number < objects::CPUS) | (boot::ROOT_PD <= number) | (kind_of(objects, number) == objects::SM)
}

// Rule 4: a record has a kind, and the words that it does not name are 0.
pub fn unnamed_keeps(objects: &[u32], number: u32) -> bool
    requires { (length objects.now ≡ object_table_words) × (number < records) }
    ensures { result ≡ unnamed_rule (records_in objects.now) number }
{
    let kind = kind_of(objects, number);
    (kind <= objects::SM)
        & ((kind == objects::FREE) | is_clear_from(objects, number, objects::named_words(kind) + 1))
}

// Rule 5: used records come first, and a free record is all 0.
pub fn used_first_keeps(objects: &[u32], number: u32) -> bool
    requires { (length objects.now ≡ object_table_words) × (number < records) }
    ensures { result ≡ used_first (records_in objects.now) number }
{
    if kind_of(objects, number) == objects::FREE {
        return is_clear_from(objects, number, objects::KIND);
    }
    if number == 0 {
        return true;
    }
    kind_of(objects, number - 1) != objects::FREE
}

// Rule 6: a PD's domain is one more than the number of PDs before it, and one of the domains.
pub fn pd_keeps(objects: &[u32], number: u32, before: u32) -> bool
    requires { (length objects.now ≡ object_table_words) × (number < records) × (before ≡ pds_below (records_in objects.now) number) }
    ensures { result ≡ pd_rule (records_in objects.now) number }
{
    if kind_of(objects, number) != objects::PD {
        return true;
    }
    let domain = word_of(objects, number, objects::DOMAIN);
    (domain == before + 1) & (domain < sizes::DOMAINS)
}

// Rule 7: an EC has a domain with a PD, a CPU and an event base.
pub fn ec_keeps(objects: &[u32], number: u32, home: bool) -> bool
    requires { (length objects.now ≡ object_table_words) × (number < records) × (home ≡ has_pd (records_in objects.now) (object_at objects.now number domain_word)) }
    ensures { result ≡ ec_rule (records_in objects.now) number }
{
    if kind_of(objects, number) != objects::EC {
        return true;
    }
    home & (word_of(objects, number, objects::CPU) < objects::CPUS)
        & (word_of(objects, number, objects::EVENT_BASE) < sizes::OBJECT_SELECTORS)
}

// Whether a number is an EC's.
fn is_ec(objects: &[u32], number: u32) -> bool
    requires { length objects.now ≡ object_table_words }
    ensures { result ≡ is_ec (records_in objects.now) number }
{
    if sizes::RECORDS <= number {
        return false;
    }
    kind_of(objects, number) == objects::EC
}

// Rule 8: an SC other than the idle ones names an EC, and has a priority and a quantum.
pub fn sc_keeps(objects: &[u32], number: u32) -> bool
    requires { (length objects.now ≡ object_table_words) × (number < records) }
    ensures { result ≡ sc_rule (records_in objects.now) number }
{
    if (kind_of(objects, number) != objects::SC) | (number < objects::CPUS) {
        return true;
    }
    let priority = word_of(objects, number, objects::PRIORITY);
    let quantum = word_of(objects, number, objects::QUANTUM);
    is_ec(objects, word_of(objects, number, objects::BOUND_EC))
        & ((1 <= priority) & (priority <= GREATEST_PRIORITY))
        & ((1 <= quantum) & (quantum <= GREATEST_QUANTUM))
}

// Rule 9: a PT names an EC.
pub fn pt_keeps(objects: &[u32], number: u32) -> bool
    requires { (length objects.now ≡ object_table_words) × (number < records) }
    ensures { result ≡ pt_rule (records_in objects.now) number }
{
    if kind_of(objects, number) != objects::PT {
        return true;
    }
    is_ec(objects, word_of(objects, number, objects::BOUND_EC))
}

// How many records there are before the first free one.
fn used_records(objects: &[u32]) -> u32
    requires { length objects.now ≡ object_table_words }
    ensures { UsedBefore (records_in objects.now) result }
{
    let Some(first) = objects::free_record(objects) else {
        return sizes::RECORDS;
    };
    first.number()
}

// How many PDs there are, if each keeps its rule and so do used records and free ones: from the first free one on all words are 0. The loop carries the number of PDs so far, which
// each is held against.
pub fn pds_in_turn(objects: &[u32]) -> Option<u32>
    requires { length objects.now ≡ object_table_words }
    ensures { result ≡ counted_pds (records_in objects.now) }
{
    let used = used_records(objects);
    if !rest_is_clear(objects, used) {
        return None;
    }
    let mut before: u32 = 0;
    for at in 0..used {
        if kind_of(objects, at) == objects::PD {
            if !pd_keeps(objects, at, before) {
                return None;
            }
            before += 1;
        }
    }
    Some(before)
}

// Whether a semaphore's record past the idle SCs keeps the rules: it is none of the fixed ones, and has its count alone.
fn semaphore_keeps(objects: &[u32], number: u32) -> bool
    requires { (length objects.now ≡ object_table_words) × (cpus ≤ number) × (number < records) × (kind_of (records_in objects.now) number ≡ SM) ×
        (used_first (records_in objects.now) number ≡ true) }
    ensures { result ≡ record_keeps (records_in objects.now) number }
{
    ((number < boot::ROOT_PD) | (boot::ROOT_SC < number))
        & is_clear_from(objects, number, objects::COUNT + 1)
}

// Whether a record keeps the rules other than that of PDs, where there are so many PDs and used records come first. An idle SC keeps them where it is as at boot.
fn record_keeps(objects: &[u32], number: u32, pds: u32) -> bool
    requires { Numbered objects.now pds × (number < records) }
    ensures { result ≡ record_keeps (records_in objects.now) number }
{
    if number < objects::CPUS {
        return fixed_keeps(objects, number);
    }
    if kind_of(objects, number) == objects::SM {
        return semaphore_keeps(objects, number);
    }
    let domain = word_of(objects, number, objects::DOMAIN);
    fixed_keeps(objects, number)
        & interrupt_keeps(objects, number)
        & unnamed_keeps(objects, number)
        & ec_keeps(objects, number, (1 <= domain) & (domain <= pds))
        & sc_keeps(objects, number)
        & pt_keeps(objects, number)
}

// Whether each record keeps the rules other than that of PDs. Used records come first, so from the first free one on all are free.
pub fn records_keep(objects: &[u32], pds: u32) -> bool
    requires { Numbered objects.now pds }
    ensures { result ≡ all_below records (record_keeps (records_in objects.now)) }
{
    for at in 0..sizes::RECORDS {
        if kind_of(objects, at) == objects::FREE {
            return boot::ROOT_SC < at;
        }
        if !record_keeps(objects, at, pds) {
            return false;
        }
    }
    true
}

// Whether a domain has a PD.
pub fn has_pd(objects: &[u32], domain: u32) -> bool
    requires { length objects.now ≡ object_table_words }
    ensures { result ≡ has_pd (records_in objects.now) domain }
{
    (0..sizes::RECORDS).fold(
        false,
        |found, at| found
            | ((kind_of(objects, at) == objects::PD)
                & (word_of(objects, at, objects::DOMAIN) == domain)),
    )
}
