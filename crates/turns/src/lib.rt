// A turn of a journal's replay, over buffers: what was left is moved to the front of the input buffer, and the whole records of what was read are played with their lines.
#![tactic(auto)]

ghost use Rattle.std.specs.Prelude.{◌-◌, ◌≤◌, ◌≡◌, true, length};
ghost use Rattle.interface.specs.Places.{tables};
ghost use Rattle.interface.specs.Damage.{sound};
ghost use Rattle.playback.specs.Playing.{is_whole};
ghost use Rattle.turns.specs.Buffers.{Waits, Inside, is_end, fronted, Turn};

use playback::Found;

// How far the replay of a journal is.
#[derive(Clone, Copy)]
pub struct Progress {
    // The bytes at the front of the input buffer that were read, and where among them the next record begins.
    pub filled: usize,
    pub at: usize,
    // What begins there: a whole record only where the output buffer has no room for the longest line, or where the count could pass 64 bits.
    pub next: Found,
    // The records done.
    pub done: u64,
    // The bytes of lines at the front of the output buffer.
    pub waiting: usize,
    // Whether no more bytes of the journal are there to be read.
    pub is_last: bool,
    // Whether nothing more of the journal counts: a flag beside `next`, since a count that could pass 64 bits ends it too.
    pub is_over: bool,
}

// Moves a part of a buffer to its front. Answers how many bytes that is.
pub fn move_to_front(buffer: &mut [u8], from: usize, to: usize) -> usize
    requires { (from ≤ to) × (to ≤ length buffer.old) }
    ensures size { result ≡ to - from }
    ensures moved { buffer.new ≡ fronted buffer.old from (to - from) }
{
    buffer.copy_within(from..to, 0);
    to - from
}

// Whether what begins at a position is a whole record.
pub fn is_whole(next: Found) -> bool
    ensures { result ≡ is_whole next }
{
    matches!(next, Found::Whole(_, _))
}

// Whether nothing after what begins at a position counts: a record of no kind ends the journal, and a short one or none where there are no more bytes.
fn is_end(next: Found, last: bool) -> bool
    ensures { result ≡ is_end next last }
{
    match next {
        Found::Unknown(_) => true,
        Found::Whole(_, _) => false,
        Found::Nothing | Found::Short => last,
    }
}

// Plays the whole records at the front of the bytes that were read, and adds their lines. A count past 64 bits, which no run reaches, ends the journal.
pub fn play(
    input: &[u8],
    is_last: bool,
    done: u64,
    waiting: usize,
    places: &mut [u32],
    objects: &mut [u32],
    out: &mut [u8],
) -> Progress
    requires sound_before { sound (tables places.old objects.old) ≡ true }
    requires waits { Waits out.old waiting }
    ensures inside { Inside result input.now out.new }
    ensures turn { Turn input.now is_last (tables places.old objects.old) done out.old waiting
        (tables places.new objects.new) out.new result }
    ensures sound_after { sound (tables places.new objects.new) ≡ true }
{
    if u64::MAX - done < input.len() as u64 {
        return Progress {
            filled: input.len(),
            at: 0,
            next: playback::record_at(input, 0),
            done,
            waiting,
            is_last,
            is_over: true,
        };
    }
    let played = playback::play_records(input, done, places, objects, out, waiting);
    let next = played.next;
    Progress {
        filled: input.len(),
        at: played.at,
        next,
        done: played.index,
        waiting: played.written,
        is_last,
        is_over: is_end(next, is_last),
    }
}
