// The rule of the hypervisor's domain, domain 0: each of its places is as at boot.
#![tactic(auto)]

ghost use Rattle.std.specs.Prelude.{◌≡◌, ◌+◌, ◌-◌, ◌<◌, ◌≤◌, true, length};
ghost use Rattle.words.specs.Sizes.{object, start, stride, places};
ghost use Rattle.interface.specs.Basics.{all_below};
ghost use Rattle.interface.specs.Places.{place_table_words, places_in};
ghost use Rattle.interface.specs.Boot.{cpus};
ghost use Rattle.interface.specs.Damage.{fixed_place};
ghost use Rattle.hypervisor_rules.specs.HypervisorKeeping.{steps, rising, Stretch};

use std::num;
use words::sizes;

// Where domain 0's capabilities for the idle SCs end, and those for the interrupts; and how many places follow, which are null.
const IDLE_END: u32 = sizes::OBJECT_START + objects::CPUS;

const INTERRUPTS_END: u32 = sizes::OBJECT_START + boot::ROOT_PD;

const LEFT_NULL: u32 = sizes::STRIDE - INTERRUPTS_END;

// The places of a stretch of domain 0 are held each against the one before it, so many at a time.
const STEPS: u32 = 9;

// Whether each word of so many places after one is that of the place before it or one more. Each is looked at, without leaving early, so that the compiler makes vector code.
fn are_steps(table: &[u32], first: u32) -> bool
    requires { (length table.now ≡ place_table_words) × (first + steps < places) }
    ensures { result ≡ rising table.now first steps }
{
    let start = sizes::PLACE_WORDS * (first as usize);
    let next = start + sizes::PLACE_WORDS;
    let words = sizes::PLACE_WORDS * (STEPS as usize);
    table[start..start + words]
        .iter()
        .zip(table[next..next + words].iter())
        .fold(
            true,
            |rising, (&before, &after)| rising & (num::wrapping_sub_u32(after, before) <= 1),
        )
}

// Whether each word of the places after one is, up to another. The last look may go over places that were looked at before.
fn rises(table: &[u32], first: u32, last: u32) -> bool
    requires { (length table.now ≡ place_table_words) × (first + steps ≤ last) × (last < places) }
    ensures { result ≡ rising table.now first (last - first) }
{
    (0..(last - first - 1) / STEPS).all(|look| are_steps(table, first + STEPS * look))
        && are_steps(table, last - STEPS)
}

// Whether the places up to the last of a stretch are as at boot, where those before its first are. Where its first and last place are, and words rise by at most one from each
// place to the next, the places in between are.
fn stretch_keeps(table: &[u32], first: u32, last: u32) -> bool
    requires { (length table.now ≡ place_table_words) × Stretch first last × (all_below first (fixed_place (places_in table.now)) ≡ true) }
    ensures { result ≡ all_below (last + 1) (fixed_place (places_in table.now)) }
{
    (place_rules::fixed_keeps(table, first) & place_rules::fixed_keeps(table, last))
        && rises(table, first, last)
}

// Whether the places up to the last idle SC of domain 0 are as at boot, where those before the first are.
fn idle_keep(table: &[u32]) -> bool
    requires { (length table.now ≡ place_table_words) × (all_below (start object) (fixed_place (places_in table.now)) ≡ true) }
    ensures { result ≡ all_below (start object + cpus) (fixed_place (places_in table.now)) }
{
    (sizes::OBJECT_START..IDLE_END).all(|at| place_rules::fixed_keeps(table, at))
}

// Whether each place of domain 0 is as at boot: its pages, its ports, its idle SCs and its interrupts in turn, and then null places.
pub fn hypervisor_keeps(table: &[u32]) -> bool
    requires { length table.now ≡ place_table_words }
    ensures { result ≡ all_below stride (fixed_place (places_in table.now)) }
{
    stretch_keeps(table, 0, sizes::IO_START - 1)
        && stretch_keeps(table, sizes::IO_START, sizes::OBJECT_START - 1)
        && idle_keep(table)
        && stretch_keeps(table, IDLE_END, INTERRUPTS_END - 1)
        && place_rules::is_blank(table, INTERRUPTS_END, LEFT_NULL)
}
