// Writing an information page into a lent buffer.
#![tactic(auto)]

ghost use Rattle.std.specs.Prelude.{ℕ, ◌+◌, ◌*◌, ◌/◌, ◌≤◌, ◌≡◌, List, [], ◌∷◌, ◌++◌, length, take, FitsSigned};
ghost use Rattle.std.specs.Int.{w32};
ghost use Rattle.endian.specs.Parts.{written};
ghost use Rattle.endian.specs.Numbers.{bytes_of};
ghost use Rattle.endian.specs.Runs.{bytes_of_each, spaced};
ghost use Rattle.hip_format.specs.Format.{signature, header_size, cpu_size, memory_size, greatest_length, fields, memory_bytes, word_sum, complement, page};
ghost use Rattle.hip_format.specs.Reader.{types_allowed};
ghost use Rattle.hip_format.specs.Writer.{memory_given, shortest, given, writing};

use endian::{Number, put_all, put_bytes};
use hip_format::{
    CHECKSUM, CPU_SIZE, FIELDS, GREATEST_LENGTH, HEADER_SIZE, Header, MEMORY_SIZE, Memory,
    SIGNATURE, WriteRefusal,
};

// More descriptors than these make a page that is too long, whatever else it holds.
const MOST_CPUS: usize = (GREATEST_LENGTH - HEADER_SIZE) / CPU_SIZE;

const MOST_MEMORIES: usize = (GREATEST_LENGTH - HEADER_SIZE) / MEMORY_SIZE;

// How many memory descriptors four lists have: `rudozhev_hip_write` is passed them so, each as a pointer and a length.
fn count_of(addresses: &[u64], sizes: &[u64], kinds: &[i32], auxiliaries: &[u32]) -> usize
    ensures { result ≡ shortest addresses.now sizes.now kinds.now auxiliaries.now }
{
    addresses
        .len()
        .min(sizes.len())
        .min(kinds.len().min(auxiliaries.len()))
}

// Whether each of the first types is allowed, whatever the other numbers of the descriptors are.
fn are_allowed(kinds: &[i32], count: usize) -> bool
    requires { count ≤ length kinds.now }
    ensures { (addresses sizes auxiliaries : List ℕ) → result ≡ types_allowed (spaced (memory_given addresses sizes kinds.now auxiliaries) 0 1 count) }
{
    kinds[..count]
        .iter()
        .all(|kind| hip_format::is_allowed(kind.cast_unsigned()))
}

// Writes the header of a page with checksum 0.
fn put_header(buffer: &mut [u8], header: Header, size: u16, start: u16)
    requires { header_size ≤ length buffer.old }
    ensures { buffer.new ≡
        written buffer.old 0
        (signature ++ bytes_of_each (bytes_of 2) (0 ∷ size ∷ header_size ∷ cpu_size ∷ start ∷ memory_size ∷ []) ++ bytes_of_each (bytes_of 4) (fields header)) }
{
    put_bytes(buffer, 0, &SIGNATURE);
    let short_fields = [
        0u16,
        size,
        HEADER_SIZE as u16,
        CPU_SIZE as u16,
        start,
        MEMORY_SIZE as u16,
    ];
    put_all(buffer, CHECKSUM, &short_fields);
    let long_fields = header.fields();
    put_all(buffer, FIELDS, &long_fields);
}

// Writes a memory descriptor at a place.
fn put_memory(buffer: &mut [u8], at: usize, memory: Memory)
    requires room { at + memory_size ≤ length buffer.old }
    requires kind_fits { FitsSigned w32 memory.kind }
    ensures { buffer.new ≡ written buffer.old at (memory_bytes memory) }
{
    memory.address.put(buffer, at);
    memory.size.put(buffer, at + 8);
    memory.kind.cast_unsigned().put(buffer, at + 16);
    memory.auxiliary.put(buffer, at + 20);
}

// Writes the memory descriptors of four lists from a place on.
fn put_memories(
    buffer: &mut [u8],
    at: usize,
    addresses: &[u64],
    sizes: &[u64],
    kinds: &[i32],
    auxiliaries: &[u32],
    count: usize,
)
    requires count_in_bounds { at + memory_size * count ≤ length buffer.old }
    requires count_bound { count ≤ shortest addresses.now sizes.now kinds.now auxiliaries.now }
    ensures { buffer.new ≡
        written buffer.old at
        (bytes_of_each memory_bytes (spaced (memory_given addresses.now sizes.now kinds.now auxiliaries.now) 0 1 count)) }
{
    for i in 0..count {
        let memory = Memory {
            address: addresses[i],
            size: sizes[i],
            kind: kinds[i],
            auxiliary: auxiliaries[i],
        };
        put_memory(buffer, at + MEMORY_SIZE * i, memory);
    }
}

// Sets the checksum of a page that stands at the start of a buffer with checksum 0.
fn put_checksum(buffer: &mut [u8], size: usize)
    requires { (header_size ≤ size) × (size ≤ length buffer.old) }
    ensures { buffer.new ≡ written buffer.old 4 (bytes_of 2 (complement (word_sum (take size buffer.old)))) }
{
    let sum = hip_format::word_sum(&buffer[..size]);
    sum.wrapping_neg().put(buffer, CHECKSUM);
}

// Writes a page at the start of a buffer that has room for it.
fn put_page(
    buffer: &mut [u8],
    header: Header,
    cpus: &[u8],
    addresses: &[u64],
    sizes: &[u64],
    kinds: &[i32],
    auxiliaries: &[u32],
    start: usize,
    count: usize,
) -> usize
    requires start_value { start ≡ header_size + cpu_size * (length cpus.now / cpu_size) }
    requires count_value { count ≡ shortest addresses.now sizes.now kinds.now auxiliaries.now }
    requires count_bound { (start + memory_size * count ≤ greatest_length) × (start + memory_size * count ≤ length buffer.old) }
    ensures value { result ≡ start + memory_size * count }
    ensures buffer_after { buffer.new ≡
        written buffer.old 0
        (page (given header cpus.now addresses.now sizes.now kinds.now auxiliaries.now)) }
{
    let size = start + MEMORY_SIZE * count;
    put_header(buffer, header, size as u16, start as u16);
    let cpu_bytes = start - HEADER_SIZE;
    put_bytes(buffer, HEADER_SIZE, &cpus[..cpu_bytes]);
    put_memories(buffer, start, addresses, sizes, kinds, auxiliaries, count);
    put_checksum(buffer, size);
    size
}

// Writes a page: the header, CPU descriptors of four bytes each, and memory descriptors of four lists, of which the shortest says how many there are. Where it is refused
// the buffer stays as it was, and so do the bytes past the page.
pub fn write(
    header: Header,
    cpus: &[u8],
    addresses: &[u64],
    sizes: &[u64],
    kinds: &[i32],
    auxiliaries: &[u32],
    buffer: &mut [u8],
) -> Result<usize, WriteRefusal>
    ensures { record { answer = result; buffer = buffer.new } ≡
        writing (given header cpus.now addresses.now sizes.now kinds.now auxiliaries.now) buffer.old }
{
    let memories = count_of(addresses, sizes, kinds, auxiliaries);
    if !are_allowed(kinds, memories) {
        return Err(WriteRefusal::Type);
    }
    let whole_cpus = cpus.len() / CPU_SIZE;
    if MOST_CPUS < whole_cpus {
        return Err(WriteRefusal::Large);
    }
    if MOST_MEMORIES < memories {
        return Err(WriteRefusal::Large);
    }
    let start = HEADER_SIZE + CPU_SIZE * whole_cpus;
    let size = start + MEMORY_SIZE * memories;
    if GREATEST_LENGTH < size {
        return Err(WriteRefusal::Large);
    }
    if buffer.len() < size {
        return Err(WriteRefusal::Room);
    }
    let done = put_page(
        buffer,
        header,
        cpus,
        addresses,
        sizes,
        kinds,
        auxiliaries,
        start,
        memories,
    );
    Ok(done)
}
