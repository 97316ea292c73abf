// An information page as text: a table of its CPUs and one of its memory, below the fields of its header.
#![tactic(auto)]

ghost use Rattle.std.specs.Prelude.{ℕ, List, ◌+◌, ◌*◌, ◌^◌, ◌≤◌, ◌<◌, ◌≡◌, true, [], length, get_or, Ok};
ghost use Rattle.endian.specs.Runs.{spaced};
ghost use Rattle.interface.specs.Journal.{decimal};
ghost use Rattle.hip_format.specs.Format.{type_allowed};
ghost use Rattle.hip_format.specs.Reader.{cpu_at, memory_at, types_allowed, judged, reading};
ghost use Rattle.texts.specs.Texts.{Wrote};
ghost use Rattle.hip_text.specs.PageText.{column, hex, hex_column, refusal_line, title_line, bits_line, number_line, frequency_line, header_lines, table, cpu_row, cpu_lines, type_end, memory_row, memory_lines, page_lines, count_of, line_bytes, Spells};

use endian::Number;
use hip_format::{
    CHECKSUM, CPU_SIZE, Cpu, HEADER_SIZE, Header, MEMORY_SIZE, Memory, Refusal, Summary,
};

// What was written of a page's text: the number of the next line, how many bytes, and how many lines the page has.
#[derive(Clone, Copy)]
pub struct Spelled {
    pub next: usize,
    pub count: usize,
    pub lines: usize,
}

// The bytes of the longest line.
pub const LINE_BYTES: usize = 87;

// The lines of the header's fields, and those above the rows of a table: an empty one and the heads.
const FIELDS: usize = 10;

const ABOVE_ROWS: usize = 2;

// Writes a number of 32 bits in decimal. Answers where it ends, at most ten bytes on.
fn put_short(out: &mut [u8], at: usize, number: u32) -> usize
    requires { at + 10 ≤ length out.old }
    ensures wrote { Wrote out.old at (decimal number) out.new result }
    ensures upper_bound { result ≤ at + 10 }
{
    texts::put_decimal(out, at, number as u64)
}

// Writes a number in decimal at the right end of a column that has room for it. Answers where the column ends.
fn put_column(out: &mut [u8], at: usize, width: usize, number: u64) -> usize
    requires width_in_bounds { at + width ≤ length out.old }
    requires width_nonzero { 0 < width }
    requires number_bound { number < 10 ^ width }
    ensures wrote { Wrote out.old at (column width number) out.new result }
    ensures value { result ≡ at + width }
{
    texts::put_right(out, at, width, number)
}

// Writes `0x` and so many hexadecimal digits of a number. Answers where they end.
fn put_hex(out: &mut [u8], at: usize, count: usize, number: u64) -> usize
    requires { at + (2 + count) ≤ length out.old }
    ensures wrote { Wrote out.old at (hex count number) out.new result }
    ensures value { result ≡ at + (2 + count) }
{
    texts::put_hex(out, at, number, count)
}

// Writes two blanks, `0x` and so many hexadecimal digits of a number. Answers where they end.
fn put_hex_column(out: &mut [u8], at: usize, count: usize, number: u64) -> usize
    requires { at + (4 + count) ≤ length out.old }
    ensures wrote { Wrote out.old at (hex_column count number) out.new result }
    ensures value { result ≡ at + (4 + count) }
{
    let hex_at = texts::put(out, at, b"  ");
    put_hex(out, hex_at, count, number)
}

// Writes the line of a page that is refused. Answers where it ends.
fn put_refusal(out: &mut [u8], at: usize, refusal: Refusal) -> usize
    requires { at + line_bytes ≤ length out.old }
    ensures { Wrote out.old at (refusal_line refusal) out.new result }
{
    match refusal {
        Refusal::Short => texts::put(out, at, b"refused: short\n"),
        Refusal::Signature => texts::put(out, at, b"refused: signature\n"),
        Refusal::Length => texts::put(out, at, b"refused: length\n"),
        Refusal::Layout => texts::put(out, at, b"refused: layout\n"),
        Refusal::Checksum => texts::put(out, at, b"refused: checksum\n"),
        Refusal::Type => texts::put(out, at, b"refused: type\n"),
    }
}

// Writes the first line of a page. Answers where it ends.
fn put_title(out: &mut [u8], at: usize, bytes: u32, checksum: u16) -> usize
    requires { at + line_bytes ≤ length out.old }
    ensures { Wrote out.old at (title_line bytes checksum) out.new result }
{
    let bytes_at = texts::put(out, at, b"information page of ");
    let text_at = put_short(out, bytes_at, bytes);
    let checksum_at = texts::put(out, text_at, b" bytes, checksum ");
    let end = put_short(out, checksum_at, checksum as u32);
    texts::put(out, end, b"\n")
}

// Writes the line of a field of bits. Answers where it ends.
fn put_bits(out: &mut [u8], at: usize, name: &[u8; 15], value: u32) -> usize
    requires { at + line_bytes ≤ length out.old }
    ensures { Wrote out.old at (bits_line name.now value) out.new result }
{
    let value_at = texts::put(out, at, name);
    let end = put_hex(out, value_at, 8, value as u64);
    texts::put(out, end, b"\n")
}

// Writes the line of a field that is a number. Answers where it ends.
fn put_number(out: &mut [u8], at: usize, name: &[u8; 15], value: u32) -> usize
    requires { at + line_bytes ≤ length out.old }
    ensures { Wrote out.old at (number_line name.now value) out.new result }
{
    let value_at = texts::put(out, at, name);
    let end = put_short(out, value_at, value);
    texts::put(out, end, b"\n")
}

// Writes the line of a field that is a frequency. Answers where it ends.
fn put_frequency(out: &mut [u8], at: usize, name: &[u8; 15], value: u32) -> usize
    requires { at + line_bytes ≤ length out.old }
    ensures { Wrote out.old at (frequency_line name.now value) out.new result }
{
    let value_at = texts::put(out, at, name);
    let unit_at = put_short(out, value_at, value);
    let end = texts::put(out, unit_at, b" kHz");
    texts::put(out, end, b"\n")
}

// Writes the line of the field of an index. Answers where it ends. A line is asked for by its number, so a number chooses the field: a name for each would need these ten arms to be
// made from it.
fn put_field(out: &mut [u8], at: usize, header: Header, index: usize) -> usize
    requires line_bytes_in_bounds { at + line_bytes ≤ length out.old }
    requires index_bound { index < 10 }
    ensures { Wrote out.old at (get_or (header_lines header) index []) out.new result }
{
    match index {
        0 => put_bits(out, at, b"features       ", header.features),
        1 => put_number(out, at, b"API version    ", header.version),
        2 => put_number(out, at, b"SEL            ", header.sel),
        3 => put_number(out, at, b"EXC            ", header.exc),
        4 => put_number(out, at, b"VMI            ", header.vmi),
        5 => put_number(out, at, b"GSI            ", header.gsi),
        6 => put_bits(out, at, b"page sizes     ", header.pages),
        7 => put_bits(out, at, b"UTCB sizes     ", header.utcbs),
        8 => put_frequency(out, at, b"TSC frequency  ", header.tsc),
        _ => put_frequency(out, at, b"bus frequency  ", header.bus),
    }
}

// Writes the row of a CPU. Answers where it ends.
fn put_cpu(out: &mut [u8], at: usize, index: usize, cpu: Cpu) -> usize
    requires line_bytes_in_bounds { at + line_bytes ≤ length out.old }
    requires index_bound { index < 10 ^ 5 }
    ensures { Wrote out.old at (cpu_row index cpu) out.new result }
{
    let package_at = put_column(out, at, 5, index as u64);
    let core_at = put_column(out, package_at, 9, cpu.package as u64);
    let thread_at = put_column(out, core_at, 6, cpu.core as u64);
    let flags_at = put_column(out, thread_at, 8, cpu.thread as u64);
    let end = put_column(out, flags_at, 7, cpu.flags as u64);
    texts::put(out, end, b"\n")
}

// Writes the end of a range's row: its type. Answers where that ends. Types stand in a page as numbers and are told apart only here: names for them would need these arms too.
fn put_type(out: &mut [u8], at: usize, kind: i32) -> usize
    requires at_in_bounds { at + 28 ≤ length out.old }
    requires kind_value { type_allowed kind ≡ true }
    ensures { Wrote out.old at (type_end kind) out.new result }
{
    match kind {
        -2 => texts::put(out, at, b"    -2  multiboot module\n"),
        -1 => texts::put(out, at, b"    -1  microhypervisor\n"),
        1 => texts::put(out, at, b"     1  available memory\n"),
        2 => texts::put(out, at, b"     2  reserved memory\n"),
        3 => texts::put(out, at, b"     3  ACPI reclaim memory\n"),
        _ => texts::put(out, at, b"     4  ACPI NVS memory\n"),
    }
}

// Writes the row of a range of memory. Answers where it ends.
fn put_memory(out: &mut [u8], at: usize, index: usize, memory: Memory) -> usize
    requires line_bytes_in_bounds { at + line_bytes ≤ length out.old }
    requires index_bound { index < 10 ^ 5 }
    requires kind_value { type_allowed memory.kind ≡ true }
    ensures { Wrote out.old at (memory_row index memory) out.new result }
{
    let address_at = put_column(out, at, 5, index as u64);
    let size_at = put_hex_column(out, address_at, 16, memory.address);
    let auxiliary_at = put_column(out, size_at, 22, memory.size);
    let type_at = put_hex_column(out, auxiliary_at, 8, memory.auxiliary as u64);
    put_type(out, type_at, memory.kind)
}

// Writes a line above the rows of a table: an empty one, or the heads, in whose place it is said where there is no row. Answers where it ends.
fn put_above(
    out: &mut [u8],
    at: usize,
    index: usize,
    count: usize,
    none: &[u8],
    heads: &[u8],
) -> usize
    requires index_bound { index < 2 }
    requires none_bound { length none.now ≤ line_bytes }
    requires heads_bound { length heads.now ≤ line_bytes }
    requires line_bytes_in_bounds { at + line_bytes ≤ length out.old }
    ensures { (rows : List (List ℕ)) → length rows ≡ count → Wrote out.old at (get_or (table none.now heads.now rows) index []) out.new result }
{
    if index == 0 {
        return texts::put(out, at, b"\n");
    }
    if count == 0 {
        return texts::put(out, at, none);
    }
    texts::put(out, at, heads)
}

// Writes a line of the table of CPUs. Answers where it ends.
fn put_cpu_line(bytes: &[u8], count: usize, index: usize, out: &mut [u8], at: usize) -> usize
    requires count_in_bounds { 56 + 4 * count ≤ length bytes.now }
    requires bytes_len_bound { length bytes.now < 10 ^ 5 }
    requires index_bound { index < 2 + count }
    requires line_bytes_in_bounds { at + line_bytes ≤ length out.old }
    ensures { Wrote out.old at (get_or (cpu_lines (spaced (cpu_at bytes.now) 56 4 count)) index []) out.new result }
{
    if index < ABOVE_ROWS {
        let heads = b"  CPU  package  core  thread  flags\n";
        return put_above(out, at, index, count, b"no CPU\n", heads);
    }
    let row = index - ABOVE_ROWS;
    let cpu = hip_reader::cpu_at(bytes, HEADER_SIZE + CPU_SIZE * row);
    put_cpu(out, at, row, cpu)
}

// Writes a line of the table of memory, whose descriptors begin at a place. Answers where it ends.
fn put_memory_line(
    bytes: &[u8],
    start: usize,
    count: usize,
    index: usize,
    out: &mut [u8],
    at: usize,
) -> usize
    requires count_in_bounds { start + 24 * count ≤ length bytes.now }
    requires bytes_len_bound { length bytes.now < 10 ^ 5 }
    requires count_value { types_allowed (spaced (memory_at bytes.now) start 24 count) ≡ true }
    requires index_bound { index < 2 + count }
    requires line_bytes_in_bounds { at + line_bytes ≤ length out.old }
    ensures { Wrote out.old at (get_or (memory_lines (spaced (memory_at bytes.now) start 24 count)) index []) out.new result }
{
    if index < ABOVE_ROWS {
        let heads = b"range             address                  size   auxiliary  type\n";
        return put_above(out, at, index, count, b"no memory\n", heads);
    }
    let row = index - ABOVE_ROWS;
    let memory = hip_reader::memory_at(bytes, start + MEMORY_SIZE * row);
    put_memory(out, at, row, memory)
}

// Writes a line of a page that reads as a summary. Answers where it ends.
fn put_page_line(bytes: &[u8], summary: Summary, index: usize, out: &mut [u8], at: usize) -> usize
    requires summary_value { Ok summary ≡ reading (judged bytes.now) }
    requires index_bound { index < count_of (Ok summary) }
    requires line_bytes_in_bounds { at + line_bytes ≤ length out.old }
    ensures { Wrote out.old at (get_or (page_lines bytes.now) index []) out.new result }
{
    if index == 0 {
        return put_title(out, at, bytes.len() as u32, u16::get(bytes, CHECKSUM));
    }
    if index <= FIELDS {
        let header = summary.header;
        return put_field(out, at, header, index - 1);
    }
    let below = index - 1 - FIELDS;
    let cpu_lines = ABOVE_ROWS + summary.cpus;
    if below < cpu_lines {
        return put_cpu_line(bytes, summary.cpus, below, out, at);
    }
    let start = HEADER_SIZE + CPU_SIZE * summary.cpus;
    put_memory_line(bytes, start, summary.memories, below - cpu_lines, out, at)
}

// Writes a line of a page that reads as is given. Answers where it ends.
fn put_line(
    bytes: &[u8],
    read_as: Result<Summary, Refusal>,
    index: usize,
    out: &mut [u8],
    at: usize,
) -> usize
    requires read_as_value { read_as ≡ reading (judged bytes.now) }
    requires index_bound { index < count_of read_as }
    requires line_bytes_in_bounds { at + line_bytes ≤ length out.old }
    ensures { Wrote out.old at (get_or (page_lines bytes.now) index []) out.new result }
{
    match read_as {
        Err(refusal) => put_refusal(out, at, refusal),
        Ok(summary) => put_page_line(bytes, summary, index, out, at),
    }
}

// How many lines a page has that reads as is given.
fn line_count(bytes: &[u8], read_as: Result<Summary, Refusal>) -> usize
    requires { read_as ≡ reading (judged bytes.now) }
    ensures value { result ≡ length (page_lines bytes.now) }
    ensures value_2 { result ≡ count_of read_as }
{
    match read_as {
        Err(_) => 1,
        Ok(summary) => { 1 + FIELDS + ABOVE_ROWS + summary.cpus + ABOVE_ROWS + summary.memories }
    }
}

// Writes the text of a page, or that of its refusal, from a line on: as many whole lines as fit at the start of the buffer. The next line is part of the answer, also where `from` is
// past the last one, so it is counted beside the loop and not by it.
pub fn spell(bytes: &[u8], from: usize, out: &mut [u8]) -> Spelled
    ensures { Spells (page_lines bytes.now) from out.old out.new result }
{
    let read_as = hip_reader::read(bytes);
    let lines = line_count(bytes, read_as);
    let mut next = from;
    let mut count: usize = 0;
    while next < lines && LINE_BYTES <= out.len() - count {
        count = put_line(bytes, read_as, next, out, count);
        next += 1;
    }
    Spelled { next, count, lines }
}
