// The rules of damage by their numbers, and the lowest record and place that break one.
ghost use Rattle.std.specs.Prelude.{◌≡◌, ◌<◌, ◌≤◌, length};
ghost use Rattle.words.specs.Sizes.{places, records};
ghost use Rattle.interface.specs.Places.{object_table_words, place_table_words, shown};
ghost use Rattle.record_rules.specs.RecordKeeping.{records_in};
ghost use Rattle.soundness.specs.RuleNumbers.{first_failing, first_rule, last_rule, rule_of};

use words::sizes;

// The numbers of the first rule after that of lengths, and of the last. A fault is told by its rule's number (interface's Rule), so rules stay numbers here too.
pub const FIRST_RULE: u32 = 2;

pub const LAST_RULE: u32 = 12;

// Whether a record keeps a rule. A closure for each rule would need these arms too.
fn record_keeps_rule(rule: u32, objects: &[u32], number: u32) -> bool
    requires { (first_rule ≤ rule) × (rule ≤ last_rule) × (length objects.now ≡ object_table_words) × (number < records) }
    ensures { result ≡ (rule_of rule).record_keeps_lem (records_in objects.now) number }
{
    match rule {
        2 => record_rules::fixed_keeps(objects, number),
        3 => record_rules::interrupt_keeps(objects, number),
        4 => record_rules::unnamed_keeps(objects, number),
        5 => record_rules::used_first_keeps(objects, number),
        6 => record_rules::pd_keeps(objects, number, objects::pds_below(objects, number)),
        7 => record_rules::ec_keeps(
            objects,
            number,
            record_rules::has_pd(
                objects,
                record_rules::word_of(objects, number, objects::DOMAIN),
            ),
        ),
        8 => record_rules::sc_keeps(objects, number),
        9 => record_rules::pt_keeps(objects, number),
        _ => true,
    }
}

// Whether a place keeps a rule.
fn place_keeps_rule(rule: u32, table: &[u32], objects: &[u32], place: u32) -> bool
    requires { (first_rule ≤ rule) × (rule ≤ last_rule) × (length table.now ≡ place_table_words) × (length objects.now ≡ object_table_words) × (place < places) }
    ensures { result ≡ (rule_of rule).place_keeps_lem (shown (record { places = table.now; objects = objects.now })) place }
{
    match rule {
        2 => place_rules::fixed_keeps(table, place),
        10 => place_rules::null_keeps(place_rules::cap_at(table, place)),
        11 => place_rules::live_or_null(table, objects, place),
        12 => place_rules::cap_at(table, place).depth <= sizes::GREATEST_DEPTH,
        _ => true,
    }
}

// The lowest record that breaks a rule, if one does.
pub fn lowest_record(rule: u32, objects: &[u32]) -> Option<u32>
    requires { (first_rule ≤ rule) × (rule ≤ last_rule) × (length objects.now ≡ object_table_words) }
    ensures { result ≡ first_failing records ((rule_of rule).record_keeps_lem (records_in objects.now)) }
{
    (0..sizes::RECORDS).find(|&number| !record_keeps_rule(rule, objects, number))
}

// The lowest place that breaks a rule, if one does. It differs from the search for a record in what its test reads.
pub fn lowest_place(rule: u32, table: &[u32], objects: &[u32]) -> Option<u32>
    requires { (first_rule ≤ rule) × (rule ≤ last_rule) × (length table.now ≡ place_table_words) × (length objects.now ≡ object_table_words) }
    ensures { result ≡ first_failing places ((rule_of rule).place_keeps_lem (shown (record { places = table.now; objects = objects.now }))) }
{
    (0..sizes::PLACES).find(|&place| !place_keeps_rule(rule, table, objects, place))
}
