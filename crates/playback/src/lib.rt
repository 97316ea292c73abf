// A journal on the kernel: its records found in a slice of bytes, played one by one with their lines, and replayed as a whole from boot on.
#![tactic(auto)]

ghost use Rattle.std.specs.Prelude.{◌+◌, ◌*◌, ◌^◌, ◌≤◌, ◌<◌, ◌≡◌, true, [], ◌∷◌, ◌++◌, length, take, drop};
ghost use Rattle.interface.specs.Places.{tables};
ghost use Rattle.interface.specs.Damage.{sound};
ghost use Rattle.interface.specs.Journal.{ended, spelled_lines};
ghost use Rattle.texts.specs.Texts.{Wrote};
ghost use Rattle.journal_lines.specs.Lines.{line_bytes};
ghost use Rattle.playback.specs.Playing.{found_in, stop_of, Plays, Stops, ReplayedAs};

use journal_lines::Line;

// What begins at a position of a journal: nothing, a kind that is none, a record that is short, or a whole one with its kind and the bytes of its body.
// Four outcomes and no `Result`: a whole record also ends the playing, where the buffer has no room for its line, and is then told as the others are.
#[derive(Clone, Copy)]
pub enum Found {
    Nothing,
    Unknown(u8),
    Short,
    // Its size and not its bytes, so that what was found lends nothing of the buffer.
    Whole(u8, usize),
}

// How far some bytes were played.
#[derive(Clone, Copy)]
pub struct Played {
    // The bytes of the records that were done, and what begins after them.
    pub at: usize,
    pub next: Found,
    // The index of the next record.
    pub index: u64,
    // Where the lines in the buffer end.
    pub written: usize,
}

// What was replayed of a journal: so many of its records, and the bytes of the lines written.
#[derive(Clone, Copy)]
pub struct Replayed {
    pub records: u64,
    pub bytes: usize,
}

// Why a journal is not replayed with all its lines: the buffer had room for no more than these, or the tables lent have other lengths.
#[derive(Clone, Copy)]
pub enum Unfinished {
    TooShort(Replayed),
    OtherLengths,
}

// What begins at a position of a journal.
pub fn record_at(journal: &[u8], at: usize) -> Found
    ensures { result ≡ found_in (drop at journal.now) }
{
    if journal.len() <= at {
        return Found::Nothing;
    }
    let kind = journal[at];
    let size = journal_records::body_bytes(kind);
    if size == 0 {
        return Found::Unknown(kind);
    }
    if journal.len() - at <= size {
        return Found::Short;
    }
    Found::Whole(kind, size)
}

// Plays the whole records at the front of some bytes, from an index on, and writes their lines into a buffer from a place on, as long as it has room for the longest line. Each record
// begins where the one before it ends, which no range counts.
pub fn play_records(
    input: &[u8],
    mut index: u64,
    places: &mut [u32],
    objects: &mut [u32],
    out: &mut [u8],
    mut written: usize,
) -> Played
    requires sound_before { sound (tables places.old objects.old) ≡ true }
    requires written_inside { written ≤ length out.old }
    requires count_fits { index + length input.now < 2 ^ 64 }
    ensures plays { Plays (take result.at input.now) (tables places.old objects.old) index out.old written
        (tables places.new objects.new) result.index out.new result.written }
    ensures stops { Stops input.now out.new result }
    ensures sound_after { sound (tables places.new objects.new) ≡ true }
{
    let mut at: usize = 0;
    let mut next = record_at(input, 0);
    while let Found::Whole(kind, size) = next {
        if out.len() - written < journal_lines::LINE_BYTES {
            break;
        }
        let start = at + 1;
        let end = start + size;
        written = recorded_calls::play_record(
            index,
            kind,
            &input[start..end],
            places,
            objects,
            out,
            written,
        );
        at = end;
        index += 1;
        next = record_at(input, at);
    }
    Played {
        at,
        next,
        index,
        written,
    }
}

// Writes the line of what stops the reading into a buffer at a place: none at the end of the bytes. Answers where it ends.
fn add_stop_line(next: Found, out: &mut [u8], at: usize) -> usize
    requires { at + line_bytes ≤ length out.old }
    ensures wrote { Wrote out.old at (spelled_lines (stop_of next)) out.new result }
    ensures upper_bound { result ≤ at + line_bytes }
{
    match next {
        Found::Short => recorded_calls::add_line(Line::Cut, out, at),
        Found::Unknown(kind) => recorded_calls::add_line(Line::Bad(kind), out, at),
        Found::Nothing | Found::Whole(_, _) => at,
    }
}

// Writes the last lines into a buffer at a place: that of what stops the reading, and the number of records done. Answers where they end.
pub fn add_last_lines(next: Found, records: u64, out: &mut [u8], at: usize) -> usize
    requires { at + 2 * line_bytes ≤ length out.old }
    ensures wrote { Wrote out.old at (spelled_lines (stop_of next ++ (ended records ∷ []))) out.new result }
    ensures upper_bound { result ≤ length out.new }
{
    let end = add_stop_line(next, out, at);
    recorded_calls::add_line(Line::End(records), out, end)
}

// Replays a whole journal from boot on: plays its whole records in turn, up to the first that is short or of no kind, and writes its lines at the front of a buffer.
pub fn replay(
    journal: &[u8],
    places: &mut [u32],
    objects: &mut [u32],
    text: &mut [u8],
) -> Result<Replayed, Unfinished>
    ensures { ReplayedAs (tables places.old objects.old) journal.now text.old result
        (tables places.new objects.new) text.new }
{
    if kernel::boot(places, objects).is_err() {
        return Err(Unfinished::OtherLengths);
    }
    let played = play_records(journal, 0, places, objects, text, 0);
    let next = played.next;
    let records = played.index;
    let written = played.written;
    if text.len() - written < 2 * journal_lines::LINE_BYTES {
        return Err(Unfinished::TooShort(Replayed {
            records,
            bytes: written,
        }));
    }
    let bytes = add_last_lines(next, records, text, written);
    Ok(Replayed { records, bytes })
}
