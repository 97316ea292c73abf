// The lines that replaying a journal writes, as text in ASCII.
#![tactic(auto)]

ghost use Rattle.std.specs.Prelude.{◌≤◌, ◌≡◌, [], ◌∷◌, ◌++◌, length};
ghost use Rattle.io.specs.Counts.{IsPrefixLen};
ghost use Rattle.endian.specs.Parts.{written};
ghost use Rattle.interface.specs.Journal.{done, spelled, decimal, newline};
ghost use Rattle.texts.specs.Texts.{Wrote};
ghost use Rattle.journal_lines.specs.Lines.{line_bytes, fitting};

// A line: of a record that was done, of one that is short, of a kind that is none, and the last one with the number of records done.
#[derive(Clone, Copy)]
pub enum Line {
    Done {
        index: u64,
        kind: u8,
        status: u32,
        answer: u32,
    },
    Cut,
    Bad(u8),
    End(u64),
}

// The bytes of the longest line: numbers of 20, 3, 10 and 10 digits, three blanks and the line end.
pub const LINE_BYTES: usize = 47;

const BLANK: u8 = b' ';

const NEWLINE: u8 = b'\n';

// Writes the line of a record that was done. Answers its length.
fn put_done(out: &mut [u8], index: u64, kind: u8, status: u32, answer: u32) -> usize
    requires { line_bytes ≤ length out.old }
    ensures { Wrote out.old 0 (spelled (done index kind status answer)) out.new result }
{
    let kind_at = texts::put_number(out, 0, index, BLANK);
    let status_at = texts::put_number(out, kind_at, kind as u64, BLANK);
    let answer_at = texts::put_number(out, status_at, status as u64, BLANK);
    texts::put_number(out, answer_at, answer as u64, NEWLINE)
}

// Writes a line of a word of four bytes and a number. Answers its length.
fn put_named(out: &mut [u8], name: &[u8; 4], number: u64) -> usize
    requires { line_bytes ≤ length out.old }
    ensures { Wrote out.old 0 (name.now ++ decimal number ++ (newline ∷ [])) out.new result }
{
    let number_at = texts::put(out, 0, name);
    texts::put_number(out, number_at, number, NEWLINE)
}

// Writes the text of a line at the start of a buffer, and answers how many bytes that is: none where the buffer is shorter than the longest line.
pub fn spell(line: Line, out: &mut [u8]) -> usize
    ensures writes { out.new ≡ written out.old 0 (fitting out.old line) }
    ensures size { result ≡ length (fitting out.old line) }
    ensures fits { IsPrefixLen result out.new }
{
    if out.len() < LINE_BYTES {
        return 0;
    }
    match line {
        Line::Done {
            index,
            kind,
            status,
            answer,
        } => put_done(out, index, kind, status, answer),
        Line::Cut => texts::put(out, 0, b"cut\n"),
        Line::Bad(kind) => put_named(out, b"bad ", kind as u64),
        Line::End(count) => put_named(out, b"end ", count),
    }
}
