// Reading an information page from bytes of any length and content.
#![tactic(auto)]

ghost use Rattle.std.specs.Prelude.{◌+◌, ◌*◌, ◌≤◌, ◌≡◌, length, take};
ghost use Rattle.endian.specs.Runs.{spaced};
ghost use Rattle.hip_format.specs.Format.{signature, header_size, cpu_size, memory_size};
ghost use Rattle.hip_format.specs.Reader.{header_at, cpu_at, memory_at, same_bytes, layout_good, types_allowed, judged, reading, cpu_of, memory_of};

use endian::Number;
use hip_format::{
    CPU_OFFSET, CPU_SIZE, CPU_SIZE_FIELD, Cpu, HEADER_SIZE, Header, LENGTH, MEMORY_OFFSET,
    MEMORY_SIZE, MEMORY_SIZE_FIELD, Memory, Refusal, SIGNATURE, Summary,
};

// Where a memory descriptor has its type.
const TYPE: usize = 16;

// Whether bytes begin with the signature.
fn is_signed(bytes: &[u8]) -> bool
    requires { header_size ≤ length bytes.now }
    ensures { result ≡ same_bytes (take 4 bytes.now) signature }
{
    bytes.starts_with(&SIGNATURE)
}

// Whether the offsets and sizes are those of a page, and both parts are whole.
fn is_laid_out(bytes: &[u8]) -> bool
    requires { header_size ≤ length bytes.now }
    ensures { result ≡ layout_good bytes.now }
{
    let start = u16::get(bytes, MEMORY_OFFSET) as usize;
    if start < HEADER_SIZE {
        return false;
    }
    if bytes.len() < start {
        return false;
    }
    let cpu_part = u16::get(bytes, CPU_OFFSET) as usize == HEADER_SIZE;
    let cpu_size = u16::get(bytes, CPU_SIZE_FIELD) as usize == CPU_SIZE;
    let memory_size = u16::get(bytes, MEMORY_SIZE_FIELD) as usize == MEMORY_SIZE;
    let whole_cpus = (start - HEADER_SIZE) % CPU_SIZE == 0;
    let whole_memories = (bytes.len() - start) % MEMORY_SIZE == 0;
    cpu_part & cpu_size & memory_size & whole_cpus & whole_memories
}

// Whether each of the memory descriptors from a place on has a type that is allowed. (The writer's types are numbers of a list, and not bytes of a page.)
fn are_allowed(bytes: &[u8], start: usize, count: usize) -> bool
    requires { start + memory_size * count ≤ length bytes.now }
    ensures { result ≡ types_allowed (spaced (memory_at bytes.now) start memory_size count) }
{
    (0..count).all(|i| { hip_format::is_allowed(u32::get(bytes, start + MEMORY_SIZE * i + TYPE)) })
}

// The ten fields of a page's header.
fn header_at(bytes: &[u8]) -> Header
    requires { header_size ≤ length bytes.now }
    ensures { result ≡ header_at bytes.now }
{
    Header {
        features: u32::get(bytes, 16),
        version: u32::get(bytes, 20),
        sel: u32::get(bytes, 24),
        exc: u32::get(bytes, 28),
        vmi: u32::get(bytes, 32),
        gsi: u32::get(bytes, 36),
        pages: u32::get(bytes, 40),
        utcbs: u32::get(bytes, 44),
        tsc: u32::get(bytes, 48),
        bus: u32::get(bytes, 52),
    }
}

// The CPU descriptor that begins at a place.
pub fn cpu_at(bytes: &[u8], at: usize) -> Cpu
    requires { at + cpu_size ≤ length bytes.now }
    ensures { result ≡ cpu_at bytes.now at }
{
    Cpu {
        flags: bytes[at],
        thread: bytes[at + 1],
        core: bytes[at + 2],
        package: bytes[at + 3],
    }
}

// The memory descriptor that begins at a place.
pub fn memory_at(bytes: &[u8], at: usize) -> Memory
    requires { at + memory_size ≤ length bytes.now }
    ensures { result ≡ memory_at bytes.now at }
{
    Memory {
        address: u64::get(bytes, at),
        size: u64::get(bytes, at + 8),
        kind: u32::get(bytes, at + TYPE).cast_signed(),
        auxiliary: u32::get(bytes, at + 20),
    }
}

// Reads a page: its header and how many descriptors it has, or why it is refused.
pub fn read(bytes: &[u8]) -> Result<Summary, Refusal>
    ensures { result ≡ reading (judged bytes.now) }
{
    if bytes.len() < HEADER_SIZE {
        return Err(Refusal::Short);
    }
    if !is_signed(bytes) {
        return Err(Refusal::Signature);
    }
    if u16::get(bytes, LENGTH) as usize != bytes.len() {
        return Err(Refusal::Length);
    }
    if !is_laid_out(bytes) {
        return Err(Refusal::Layout);
    }
    if hip_format::word_sum(bytes) != 0 {
        return Err(Refusal::Checksum);
    }
    let start = u16::get(bytes, MEMORY_OFFSET) as usize;
    let memories = (bytes.len() - start) / MEMORY_SIZE;
    if !are_allowed(bytes, start, memories) {
        return Err(Refusal::Type);
    }
    Ok(Summary {
        header: header_at(bytes),
        cpus: (start - HEADER_SIZE) / CPU_SIZE,
        memories,
    })
}

// The CPU descriptor of an index: none where the page is refused or has fewer.
pub fn cpu(bytes: &[u8], index: usize) -> Option<Cpu>
    ensures { result ≡ cpu_of (judged bytes.now) index }
{
    let summary = read(bytes).ok()?;
    if summary.cpus <= index {
        return None;
    }
    Some(cpu_at(bytes, HEADER_SIZE + CPU_SIZE * index))
}

// The memory descriptor of an index: none where the page is refused or has fewer. It differs from a CPU descriptor in its type, count, place and size: one function for both would
// be no shorter.
pub fn memory(bytes: &[u8], index: usize) -> Option<Memory>
    ensures { result ≡ memory_of (judged bytes.now) index }
{
    let summary = read(bytes).ok()?;
    if summary.memories <= index {
        return None;
    }
    let start = u16::get(bytes, MEMORY_OFFSET) as usize;
    Some(memory_at(bytes, start + MEMORY_SIZE * index))
}
