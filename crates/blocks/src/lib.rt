// The message block: its counts, its untyped part, and copying the untyped words.
#![tactic(auto)]

ghost use Rattle.std.specs.Prelude.{◌+◌, ◌≤◌, ◌≡◌, length, drop};
ghost use Rattle.std.proofs.Math.Seq.{paste};
ghost use Rattle.interface.specs.Message.{head_words, untyped_count, typed_count, payload_fits, untyped_part, untyped_copied};
ghost use Rattle.blocks.specs.Fitting.{Blocks};

use words::sizes;

// The words before the payload, and those of the payload.
pub const HEAD_WORDS: usize = 4;

const PAYLOAD_WORDS: u32 = (sizes::BLOCK_WORDS - HEAD_WORDS) as u32;

// How many untyped words word 0 says.
pub fn untyped_count(word0: u32) -> u32
    ensures { result ≡ untyped_count word0 }
{
    word0 % 65536
}

// How many typed items word 0 says.
pub fn typed_count(word0: u32) -> u32
    ensures { result ≡ typed_count word0 }
{
    word0 >> 16
}

// Whether the untyped words and the typed items that word 0 says fit the payload.
pub fn payload_fits(word0: u32) -> bool
    ensures { result ≡ payload_fits word0 }
{
    untyped_count(word0) + 2 * typed_count(word0) <= PAYLOAD_WORDS
}

// The untyped part of a block: empty for a block of another length or whose counts do not fit.
pub fn untyped(block: &[u32]) -> &[u32]
    ensures { result.now ≡ untyped_part block.now }
{
    if block.len() != sizes::BLOCK_WORDS {
        return &block[0..0];
    }
    let word0 = block[0];
    if !payload_fits(word0) {
        return &block[0..0];
    }
    let end = HEAD_WORDS + (untyped_count(word0) as usize);
    &block[HEAD_WORDS..end]
}

// Copies word 0 and the untyped words.
pub fn copy_untyped(source: &[u32], target: &mut [u32])
    requires { Blocks source.now target.old }
    ensures { target.new ≡ untyped_copied source.now target.old }
{
    let word0 = source[0];
    target[0] = word0;
    let end = HEAD_WORDS + (untyped_count(word0) as usize);
    // The archive for other languages needs no outside symbol, and `copy_from_slice` is `memmove` there.
    for i in HEAD_WORDS..end {
        target[i] = source[i];
    }
}
