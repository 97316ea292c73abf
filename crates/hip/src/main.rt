// Prints information pages as text: those that the arguments name, one after the other, or the one on standard input.
#![tactic(auto)]

ghost use Rattle.std.specs.Prelude.{◌≡◌, ◌≤◌, length, IfOk, OnErr};
ghost use Rattle.hip_text.specs.PageText.{line_bytes};

use command_line::{Job, fail, print};
use std::io;
use std::io::{Eprint, Print, Read};

// The size of each buffer: the longest page, and the lines that wait.
const BUFFER_BYTES: usize = 65536;

// Reads a page to its end, or as much of it as the buffer takes. Answers how many bytes that is. Each turn goes on by what a read gave, which no range counts.
fn read_page(source: &mut impl Read, page: &mut [u8]) -> io::Result<usize>
    ensures ok { IfOk result (λ filled. filled ≤ length page.new) }
    ensures err { OnErr result (length page.new ≡ length page.old) }
{
    let mut filled: usize = 0;
    while filled < page.len() {
        let more = source.read(&mut page[filled..])?;
        if more == 0 {
            return Ok(filled);
        }
        filled += more;
    }
    Ok(filled)
}

// Prints the lines of a page, as many at a time as the buffer takes. Each turn goes on by what was spelled, which no range counts.
fn print_page(rt: &(impl Print + Eprint), page: &[u8], out: &mut [u8])
    requires { line_bytes ≤ length out.old }
{
    let mut spelled = hip_text::spell(page, 0, out);
    while spelled.next < spelled.lines {
        print(rt, &out[..spelled.count]);
        spelled = hip_text::spell(page, spelled.next, out);
    }
    print(rt, &out[..spelled.count]);
}

// The buffers that pages are printed with: a page's bytes, and the lines that wait.
#[derive(Drop)]
struct Printer {
    page: [u8; BUFFER_BYTES],
    out: [u8; BUFFER_BYTES],
}

impl Job for Printer {
    // Prints the page that a source gives; one that cannot be read is named on standard error.
    fn run(&mut self, rt: &(impl Print + Eprint), source: &mut impl Read, name: &str) {
        match read_page(source, &mut self.page) {
            Ok(filled) => print_page(rt, &self.page[..filled], &mut self.out),
            Err(error) => fail(rt, name, error),
        }
    }
}

fn main(rt: HostRuntime) {
    let mut printer = Printer {
        page: [0u8; BUFFER_BYTES],
        out: [0u8; BUFFER_BYTES],
    };
    command_line::run(&rt, &mut printer);
}
