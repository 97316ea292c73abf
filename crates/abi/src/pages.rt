// The functions of the information page that programs in other languages link.
ghost use Rattle.std.specs.Prelude.{◌≡◌};
ghost use Rattle.hip_format.specs.Reader.{judged, cpu_of, memory_of};
ghost use Rattle.hip_format.specs.Writer.{given, writing};
ghost use Rattle.abi.specs.PagePacking.{page_read, packed_cpu, memory_read, header_of, packed_written, page_written};

use crate::join;
use hip_format::{Header, WriteRefusal};

// Reads an information page. The high 32 bits are the refusal's number, 0 where the page is accepted; the low ones then the number of memory descriptors times 65,536 plus that
// of CPU descriptors, and the ten fields are those of the header.
#[unsafe(no_mangle)]
pub extern "C" fn rudozhev_hip_read(page: &[u8], fields: &mut [u32; 10]) -> u64
    ensures { record { word = result; fields = fields.new } ≡ page_read (judged page.now) fields.old }
{
    match hip_reader::read(page) {
        Err(refusal) => join(u32::from(refusal), 0),
        Ok(summary) => {
            *fields = summary.header.fields();
            let memories = summary.memories as u64;
            let cpus = summary.cpus as u64;
            memories * 65536 + cpus
        }
    }
}

// A CPU descriptor of an information page: 1 in the high 32 bits and its four bytes in the low ones, flags lowest; 0 where the page is refused or has none of that index.
#[unsafe(no_mangle)]
pub extern "C" fn rudozhev_hip_cpu(page: &[u8], index: u32) -> u64
    ensures { result ≡ packed_cpu (cpu_of (judged page.now) index) }
{
    match hip_reader::cpu(page, index as usize) {
        None => 0,
        Some(cpu) => join(
            1,
            u32::from_le_bytes([cpu.flags, cpu.thread, cpu.core, cpu.package]),
        ),
    }
}

// A memory descriptor of an information page: its type, with its address, size and auxiliary number; 0, which is no type, where the page is refused or has none of that index,
// and the numbers then stay.
#[unsafe(no_mangle)]
pub extern "C" fn rudozhev_hip_memory(page: &[u8], index: u32, numbers: &mut [u64; 3]) -> i32
    ensures { record { kind = result; numbers = numbers.new } ≡ memory_read (memory_of (judged page.now) index) numbers.old }
{
    match hip_reader::memory(page, index as usize) {
        None => 0,
        Some(memory) => {
            *numbers = [memory.address, memory.size, memory.auxiliary as u64];
            memory.kind
        }
    }
}

// The header of ten fields in their order.
fn header_of(fields: &[u32; 10]) -> Header
    ensures { result ≡ header_of fields.now }
{
    Header {
        features: fields[0],
        version: fields[1],
        sel: fields[2],
        exc: fields[3],
        vmi: fields[4],
        gsi: fields[5],
        pages: fields[6],
        utcbs: fields[7],
        tsc: fields[8],
        bus: fields[9],
    }
}

// A refusal's number in the high 32 bits, or the length of what was written.
fn pack_written(done: Result<usize, WriteRefusal>) -> u64
    ensures { result ≡ packed_written done }
{
    match done {
        Ok(bytes) => bytes as u64,
        Err(refusal) => join(u32::from(refusal), 0),
    }
}

// Writes an information page into a buffer. The high 32 bits are the refusal's number, 0 where the page is written, and the low ones then its length.
#[unsafe(no_mangle)]
pub extern "C" fn rudozhev_hip_write(
    fields: &[u32; 10],
    cpus: &[u8],
    addresses: &[u64],
    sizes: &[u64],
    kinds: &[i32],
    auxiliaries: &[u32],
    buffer: &mut [u8],
) -> u64
    ensures { record { word = result; buffer = buffer.new } ≡
        page_written
        (writing
        (given (header_of fields.now) cpus.now addresses.now sizes.now kinds.now auxiliaries.now)
        buffer.old) }
{
    let done = hip_writer::write(
        header_of(fields),
        cpus,
        addresses,
        sizes,
        kinds,
        auxiliaries,
        buffer,
    );
    pack_written(done)
}
