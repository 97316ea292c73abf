// Little-endian numbers in byte slices: what stands at a place, and what is written there.
#![tactic(auto)]

pub mod theorems;

ghost use Rattle.std.specs.Prelude.{ℕ, ◌+◌, ◌*◌, ◌≤◌, ◌≡◌, List, length};
ghost use Rattle.endian.specs.Parts.{part, written};
ghost use Rattle.endian.specs.Numbers.{bytes_of, length_bytes, number_at};
ghost use Rattle.endian.specs.Runs.{bytes_of_each, spaced};

// A number of so many bytes, the lowest byte first: its own bytes, and the number that stands at a place of others.
pub trait Number: Copy {
    ghost SIZE: { ℕ };

    ghost own_bytes: { Self → List ℕ };

    ghost standing: { List ℕ → ℕ → Self };

    const SIZE: usize;

    // The number at a place.
    fn get(bytes: &[u8], at: usize) -> Self
        requires { at + SIZE ≤ length bytes.now }
        ensures { result ≡ standing bytes.now at };

    // Writes the number at a place.
    fn put(self, buffer: &mut [u8], at: usize)
        requires { at + SIZE ≤ length buffer.old }
        ensures { buffer.new ≡ written buffer.old at (own_bytes self) };

    ghost so_many: { (number : Self) → length (own_bytes number) ≡ SIZE };
}

// An impl for each width: the library's `from_le_bytes` and `to_le_bytes` are each type's own, and of no trait.
impl Number for u16 {
    ghost SIZE = { 2 };

    ghost own_bytes = { bytes_of 2 };

    ghost standing = { λ bytes at. number_at bytes at 2 };

    ghost so_many = { length_bytes 2 };

    const SIZE: usize = 2;

    fn get(bytes: &[u8], at: usize) -> u16 {
        u16::from_le_bytes(array(bytes, at))
    }

    fn put(self, buffer: &mut [u8], at: usize) {
        put_bytes(buffer, at, &u16::to_le_bytes(self));
    }
}

impl Number for u32 {
    ghost SIZE = { 4 };

    ghost own_bytes = { bytes_of 4 };

    ghost standing = { λ bytes at. number_at bytes at 4 };

    ghost so_many = { length_bytes 4 };

    const SIZE: usize = 4;

    fn get(bytes: &[u8], at: usize) -> u32 {
        u32::from_le_bytes(array(bytes, at))
    }

    fn put(self, buffer: &mut [u8], at: usize) {
        put_bytes(buffer, at, &u32::to_le_bytes(self));
    }
}

impl Number for u64 {
    ghost SIZE = { 8 };

    ghost own_bytes = { bytes_of 8 };

    ghost standing = { λ bytes at. number_at bytes at 8 };

    ghost so_many = { length_bytes 8 };

    const SIZE: usize = 8;

    fn get(bytes: &[u8], at: usize) -> u64 {
        u64::from_le_bytes(array(bytes, at))
    }

    fn put(self, buffer: &mut [u8], at: usize) {
        put_bytes(buffer, at, &u64::to_le_bytes(self));
    }
}

// As many bytes from a place on as the array takes.
fn array<const N: usize>(bytes: &[u8], at: usize) -> [u8; N]
    requires { at + N ≤ length bytes.now }
    ensures { result ≡ part bytes.now at N }
{
    *bytes[at..at + N].first_chunk().unwrap()
}

// Copies bytes into a buffer from a place on. By a loop: for a length that is not known the library's `copy_from_slice` calls `memmove`, and the archive may need no outside symbol.
pub fn put_bytes(buffer: &mut [u8], at: usize, bytes: &[u8])
    requires { at + length bytes.now ≤ length buffer.old }
    ensures { buffer.new ≡ written buffer.old at bytes.now }
{
    for i in 0..bytes.len() {
        buffer[at + i] = bytes[i];
    }
}

// Reads numbers that stand one after the other from a place on, as many as the list takes.
pub fn get_all<N: Number>(bytes: &[u8], at: usize, numbers: &mut [N])
    requires { at + N.SIZE * length numbers.old ≤ length bytes.now }
    ensures { numbers.new ≡ spaced (N.standing bytes.now) at N.SIZE (length numbers.old) }
{
    for i in 0..numbers.len() {
        numbers[i] = N::get(bytes, at + N::SIZE * i);
    }
}

// Writes numbers one after the other.
pub fn put_all<N: Number>(buffer: &mut [u8], at: usize, numbers: &[N])
    requires { at + N.SIZE * length numbers.now ≤ length buffer.old }
    ensures { buffer.new ≡ written buffer.old at (bytes_of_each N.own_bytes numbers.now) }
{
    for i in 0..numbers.len() {
        numbers[i].put(buffer, at + N::SIZE * i);
    }
}
