// One record of a journal: its hypercall played on sound tables, and a line written into a buffer.
#![tactic(auto)]

ghost use Rattle.std.specs.Prelude.{◌+◌, ◌≤◌, ◌≡◌, true, length};
ghost use Rattle.interface.specs.Places.{tables};
ghost use Rattle.interface.specs.Damage.{sound};
ghost use Rattle.interface.specs.Outcomes.{answered};
ghost use Rattle.interface.specs.Journal.{recorded_call, spelled};
ghost use Rattle.texts.specs.Texts.{Wrote};
ghost use Rattle.journal_lines.specs.Lines.{line_of, line_bytes};
ghost use Rattle.recorded_calls.specs.OneRecord.{PlaysRecord};

use interface::numbers;
use journal_lines::Line;
use journal_records::body_word;
use reply::Reply;
use service::CallWords;
use words::sizes;

// Plays a record: its hypercall on two tables that are known to be sound, and stay so. A CALL's blocks are the record's.
pub fn play(kind: u8, body: &[u8], places: &mut [u32], objects: &mut [u32]) -> Reply
    requires { sound (tables places.old objects.old) ≡ true }
    ensures answers { record { reply = result; tables = tables places.new objects.new } ≡
        answered (tables places.old objects.old) (recorded_call kind body.now) }
    ensures sound_after { sound (tables places.new objects.new) ≡ true }
{
    let caller = body_word(body, 0);
    let words = CallWords {
        first: body_word(body, 1),
        second: body_word(body, 2),
        third: body_word(body, 3),
        fourth: body_word(body, 4),
        fifth: body_word(body, 5),
        sixth: body_word(body, 6),
    };
    if kind as u32 == numbers::CALL {
        let mut source = [0u32; sizes::BLOCK_WORDS];
        let mut target = [0u32; sizes::BLOCK_WORDS];
        journal_records::source(body, &mut source);
        journal_records::target(body, &mut target);
        return service::serve(
            kind as u32,
            caller,
            words,
            places,
            objects,
            &source,
            &mut target,
        );
    }
    // A call of its own, and not the one above over empty parts of the two arrays, which would then be cleared for every record.
    let source = [0u32; 0];
    let mut target = [0u32; 0];
    service::serve(
        kind as u32,
        caller,
        words,
        places,
        objects,
        &source,
        &mut target,
    )
}

// Writes a line into a buffer at a place. Answers where it ends.
pub fn add_line(line: Line, out: &mut [u8], at: usize) -> usize
    requires { at + line_bytes ≤ length out.old }
    ensures wrote { Wrote out.old at (spelled (line_of line)) out.new result }
    ensures upper_bound { result ≤ at + line_bytes }
{
    let end = at + journal_lines::LINE_BYTES;
    at + journal_lines::spell(line, &mut out[at..end])
}

// Plays a record, and writes its line into a buffer at a place. Answers where the line ends.
pub fn play_record(
    index: u64,
    kind: u8,
    body: &[u8],
    places: &mut [u32],
    objects: &mut [u32],
    out: &mut [u8],
    at: usize,
) -> usize
    requires sound_before { sound (tables places.old objects.old) ≡ true }
    requires room { at + line_bytes ≤ length out.old }
    ensures { PlaysRecord (recorded_call kind body.now) (tables places.old objects.old) index out.old at
        (tables places.new objects.new) out.new result }
{
    let reply = play(kind, body, places, objects);
    let line = Line::Done {
        index,
        kind,
        status: reply::status(reply),
        answer: reply::answer(reply),
    };
    add_line(line, out, at)
}
