// The information page: its sizes, what it holds, why a page is refused, which types are allowed, and the sum of its words.
#![tactic(auto)]

ghost use Rattle.std.specs.Prelude.{◌%◌, ◌≡◌};
ghost use Rattle.std.specs.Int.{w32};
ghost use Rattle.std.proofs.Common.{to_z};
ghost use Rattle.hip_format.specs.Format.{type_allowed, fields, word_sum};
ghost use Rattle.hip_format.specs.Reader.{refusal_number};
ghost use Rattle.hip_format.specs.Writer.{write_refusal_number, written_number};

pub mod theorems;

// The four bytes that every page begins with.
pub const SIGNATURE: [u8; 4] = *b"NOVA";

// The bytes of the header, of a CPU descriptor and of a memory descriptor, and of the longest page.
pub const HEADER_SIZE: usize = 56;

pub const CPU_SIZE: usize = 4;

pub const MEMORY_SIZE: usize = 24;

pub const GREATEST_LENGTH: usize = 65535;

// Where the header has the checksum, the length, the offset and the size of each part, and the fields of 32 bits.
pub const CHECKSUM: usize = 4;

pub const LENGTH: usize = 6;

pub const CPU_OFFSET: usize = 8;

pub const CPU_SIZE_FIELD: usize = 10;

pub const MEMORY_OFFSET: usize = 12;

pub const MEMORY_SIZE_FIELD: usize = 14;

pub const FIELDS: usize = 16;

// The ten fields of 32 bits: feature flags, API version, SEL, EXC, VMI and GSI, the sizes of pages and of UTCBs as a bit for each power of 2, and the frequencies of the time
// stamp counter and of the bus in kHz.
#[derive(Clone, Copy)]
pub struct Header {
    pub features: u32,
    pub version: u32,
    pub sel: u32,
    pub exc: u32,
    pub vmi: u32,
    pub gsi: u32,
    pub pages: u32,
    pub utcbs: u32,
    pub tsc: u32,
    pub bus: u32,
}

impl Header {
    // The fields in their order.
    pub fn fields(self) -> [u32; 10]
        ensures { result ≡ fields self }
    {
        [
            self.features,
            self.version,
            self.sel,
            self.exc,
            self.vmi,
            self.gsi,
            self.pages,
            self.utcbs,
            self.tsc,
            self.bus,
        ]
    }
}

// A CPU descriptor.
#[derive(Clone, Copy)]
pub struct Cpu {
    pub flags: u8,
    pub thread: u8,
    pub core: u8,
    pub package: u8,
}

// A memory descriptor.
#[derive(Clone, Copy)]
pub struct Memory {
    pub address: u64,
    pub size: u64,
    pub kind: i32,
    pub auxiliary: u32,
}

// Why bytes are no page, in the order of the tests.
#[derive(Clone, Copy)]
pub enum Refusal {
    Short,
    Signature,
    Length,
    Layout,
    Checksum,
    Type,
}

impl From<Refusal> for u32 {
    ghost from_gives = { λ refusal number. number ≡ refusal_number refusal };

    // The number of a refusal.
    fn from(refusal: Refusal) -> u32 {
        match refusal {
            Refusal::Short => 1,
            Refusal::Signature => 2,
            Refusal::Length => 3,
            Refusal::Layout => 4,
            Refusal::Checksum => 5,
            Refusal::Type => 6,
        }
    }
}

// What is read of a page beside its descriptors: the header, and how many there are.
#[derive(Clone, Copy)]
pub struct Summary {
    pub header: Header,
    pub cpus: usize,
    pub memories: usize,
}

// Why a page is not written, in the order of the tests.
#[derive(Clone, Copy)]
pub enum WriteRefusal {
    Type,
    Large,
    Room,
}

impl From<WriteRefusal> for u32 {
    ghost from_gives = { λ refusal number. number ≡ write_refusal_number refusal };

    // The number of a refusal to write.
    fn from(refusal: WriteRefusal) -> u32 {
        match refusal {
            WriteRefusal::Type => 6,
            WriteRefusal::Large => 7,
            WriteRefusal::Room => 8,
        }
    }
}

// The number of what writing a page comes to: 0 where it is written, and otherwise the refusal's.
pub fn written_number(done: Result<usize, WriteRefusal>) -> u32
    ensures { result ≡ written_number done }
{
    match done {
        Ok(_) => 0,
        Err(refusal) => u32::from(refusal),
    }
}

// Whether the bits of a type are those of one that is allowed.
pub fn is_allowed(bits: u32) -> bool
    ensures { result ≡ type_allowed (to_z w32 bits) }
{
    ((0 < bits) & (bits <= 4)) | (4294967294 <= bits)
}

// The sum of the words of 16 bits in some bytes, modulo 65,536.
pub fn word_sum(bytes: &[u8]) -> u16
    ensures { result ≡ word_sum bytes.now % 65536 }
{
    let mut sum: u16 = 0;
    for &[low, high] in bytes.as_chunks::<2>().0 {
        sum = sum.wrapping_add(u16::from_le_bytes([low, high]));
    }
    sum
}
