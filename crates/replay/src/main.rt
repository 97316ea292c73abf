// Replays journals on the kernel, each from boot on, and writes their lines: those that the arguments name, one after the other, or the one on standard input.
#![tactic(auto)]

ghost use Rattle.std.specs.Prelude.{◌+◌, ◌*◌, ◌≤◌, ◌≡◌, true, length, take};
ghost use Rattle.interface.specs.Places.{tables};
ghost use Rattle.interface.specs.Damage.{sound};
ghost use Rattle.journal_lines.specs.Lines.{line_bytes};
ghost use Rattle.turns.specs.Buffers.{Waits, Inside, line_start, last_after, Turn, KeepsUnplayed, begun, TurnsToTheEnd};

use command_line::{Job, fail, print};
use playback::Found;
use std::io::{Eprint, Print, Read};
use turns::Progress;
use words::sizes;

// The size of each buffer: the bytes of a journal, and the lines that wait.
const BUFFER_BYTES: usize = 65536;

// Where the last lines go: after the lines that wait or, if two of the longest lines do not fit there, at the front, once these are written.
fn last_start(rt: &(impl Print + Eprint), out: &[u8], waiting: usize) -> usize
    requires { Waits out.now waiting }
    ensures { result + 2 * line_bytes ≤ length out.now }
{
    if out.len() - waiting < 2 * journal_lines::LINE_BYTES {
        print(rt, &out[..waiting]);
        return 0;
    }
    waiting
}

// Reads more bytes into a buffer, after those that stand at its front. Answers how many stand there then: no more than before at the end of the input, and after an error,
// which is named on standard error.
fn read_more(
    rt: &impl Eprint,
    source: &mut impl Read,
    name: &str,
    buffer: &mut [u8],
    kept: usize,
) -> usize
    requires { kept ≤ length buffer.old }
    ensures bounds { (kept ≤ result) × (result ≤ length buffer.new) }
    ensures kept_bytes { take kept buffer.new ≡ take kept buffer.old }
{
    match source.read(&mut buffer[kept..]) {
        Ok(more) => kept + more,
        Err(error) => {
            fail(rt, name, error);
            kept
        }
    }
}

// Plays on: writes the lines that wait where there was no room for one more, and otherwise reads more of the journal.
fn replay_more(
    rt: &(impl Print + Eprint),
    source: &mut impl Read,
    name: &str,
    progress: Progress,
    places: &mut [u32],
    objects: &mut [u32],
    input: &mut [u8],
    out: &mut [u8],
) -> Progress
    requires sound_before { sound (tables places.old objects.old) ≡ true }
    requires inside { Inside progress input.old out.old }
    ensures inside_after { Inside result input.new out.new }
    ensures turn { Turn (take result.filled input.new) (last_after progress result) (tables places.old objects.old) progress.done
        out.old (line_start progress) (tables places.new objects.new) out.new result }
    ensures keeps_unplayed { KeepsUnplayed progress input.old result input.new }
    ensures sound_after { sound (tables places.new objects.new) ≡ true }
{
    let kept = turns::move_to_front(input, progress.at, progress.filled);
    let next = progress.next;
    if turns::is_whole(next) {
        print(rt, &out[..progress.waiting]);
        return turns::play(
            &input[..kept],
            progress.is_last,
            progress.done,
            0,
            places,
            objects,
            out,
        );
    }
    let filled = read_more(rt, source, name, input, kept);
    turns::play(
        &input[..filled],
        filled == kept,
        progress.done,
        progress.waiting,
        places,
        objects,
        out,
    )
}

// Replays a journal to its end. A proved loop has to end, and nothing says that a journal does: so the loop counts its turns up to a number that no run reaches.
fn replay_all(
    rt: &(impl Print + Eprint),
    source: &mut impl Read,
    name: &str,
    waiting: usize,
    places: &mut [u32],
    objects: &mut [u32],
    input: &mut [u8],
    out: &mut [u8],
) -> Progress
    requires sound_before { sound (tables places.old objects.old) ≡ true }
    requires waits { Waits out.old waiting }
    ensures inside { Inside result input.new out.new }
    ensures turns_to_the_end { TurnsToTheEnd
        (record { progress = begun waiting; tables = tables places.old objects.old; input = input.old; out = out.old })
        (record { progress = result; tables = tables places.new objects.new; input = input.new; out = out.new }) }
{
    let mut progress = Progress {
        filled: 0,
        at: 0,
        next: Found::Nothing,
        done: 0,
        waiting,
        is_last: false,
        is_over: false,
    };
    for turn in 0..u64::MAX {
        if progress.is_over {
            return progress;
        }
        progress = replay_more(rt, source, name, progress, places, objects, input, out);
    }
    progress
}

// Replays a journal, on tables of zero words that are filled as at boot, and adds its last lines. Answers how many bytes wait then.
fn replay_journal(
    rt: &(impl Print + Eprint),
    source: &mut impl Read,
    name: &str,
    input: &mut [u8],
    out: &mut [u8],
    waiting: usize,
) -> usize
    requires { Waits out.old waiting }
    ensures { Waits out.new result }
{
    let mut places = [0u32; sizes::PLACE_TABLE_WORDS];
    let mut objects = [0u32; sizes::OBJECT_TABLE_WORDS];
    let _ = kernel::boot(&mut places, &mut objects);
    let progress = replay_all(
        rt,
        source,
        name,
        waiting,
        &mut places,
        &mut objects,
        input,
        out,
    );
    let next = progress.next;
    let start = last_start(rt, out, progress.waiting);
    playback::add_last_lines(next, progress.done, out, start)
}

// The buffers of the replays: the bytes of a journal, and the lines that wait.
#[derive(Drop)]
struct Replay {
    input: [u8; BUFFER_BYTES],
    out: [u8; BUFFER_BYTES],
    waiting: usize,
    ghost waits: { Waits out waiting },
}

impl Job for Replay {
    // Replays the journal that a source gives.
    fn run(&mut self, rt: &(impl Print + Eprint), source: &mut impl Read, name: &str) {
        self.waiting = replay_journal(
            rt,
            source,
            name,
            &mut self.input,
            &mut self.out,
            self.waiting,
        );
    }
}

// Replays, and writes the lines that wait at the end.
fn main(rt: HostRuntime) {
    let mut replay = Replay {
        input: [0u8; BUFFER_BYTES],
        out: [0u8; BUFFER_BYTES],
        waiting: 0,
    };
    command_line::run(&rt, &mut replay);
    let out: &[u8] = &replay.out;
    print(&rt, &out[..replay.waiting]);
}
