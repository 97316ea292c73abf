// A record of the journal: a kind byte, which is the hypercall's number, and a body of little-endian words.
#![tactic(auto)]

ghost use Rattle.std.specs.Prelude.{◌+◌, ◌*◌, ◌≤◌, ◌≡◌, length};
ghost use Rattle.words.specs.Sizes.{block_words};
ghost use Rattle.interface.specs.Basics.{listed, word};
ghost use Rattle.interface.specs.Verdicts.{CALL};
ghost use Rattle.interface.specs.Journal.{body_bytes, body_word, recorded_call};

use endian::Number;
use interface::numbers;
use words::sizes;

// The bytes of a word.
const WORD_BYTES: usize = 4;

// Where the two blocks of a CALL begin in its body: after the caller and the portal selector, and after the first block.
const SOURCE_START: usize = 2;

const TARGET_START: usize = SOURCE_START + sizes::BLOCK_WORDS;

// The bytes of a CALL's body, which its second block ends.
const CALL_BYTES: usize = WORD_BYTES * (TARGET_START + sizes::BLOCK_WORDS);

// How many bytes follow a kind byte: none for a kind that is none of these. That is 0 and no `Option`, since `body_bytes` of `Journal.antt`, which the contract cites, has 0 there.
pub fn body_bytes(kind: u8) -> usize
    ensures { result ≡ body_bytes kind }
{
    match kind as u32 {
        numbers::CALL => CALL_BYTES,
        numbers::CREATE_PD => 16,
        numbers::CREATE_EC => 20,
        numbers::CREATE_SC => 20,
        numbers::CREATE_PT => 28,
        numbers::CREATE_SM => 16,
        numbers::REVOKE => 12,
        numbers::LOOKUP => 8,
        numbers::SM_CTRL => 12,
        _ => 0,
    }
}

// A byte of a body, 0 past its end.
fn byte(bytes: &[u8], at: usize) -> u8
    ensures { result ≡ word bytes.now at }
{
    bytes.get(at).copied().unwrap_or(0)
}

// The first word of some bytes.
fn first_word(bytes: &[u8]) -> u32
    ensures { result ≡ body_word bytes.now 0 }
{
    if bytes.len() < WORD_BYTES {
        return u32::from_le_bytes([
            byte(bytes, 0),
            byte(bytes, 1),
            byte(bytes, 2),
            byte(bytes, 3),
        ]);
    }
    u32::get(bytes, 0)
}

// A word of a body: bytes past the body's end are 0.
pub fn body_word(body: &[u8], index: usize) -> u32
    ensures { result ≡ body_word body.now index }
{
    if body.len() / WORD_BYTES < index {
        return 0;
    }
    let start = WORD_BYTES * index;
    first_word(&body[start..])
}

// Fills a block with the words of a body from one on, where the body has them all. `short_block` fills it too, but tests each word: for all blocks, that makes the replay of a journal of
// mixed calls a quarter longer in instructions.
fn whole_block(body: &[u8], from: usize, block: &mut [u32])
    requires { (from ≤ 2 + block_words) × (4 * (from + block_words) ≤ length body.now) × (length block.old ≡ block_words) }
    ensures { block.new ≡ listed block_words (λ i. body_word body.now (from + i)) }
{
    for i in 0..sizes::BLOCK_WORDS {
        let at = WORD_BYTES * (from + i);
        block[i] = u32::get(body, at);
    }
}

// Fills a block with the words of a body from one on, where the body may end before them.
fn short_block(body: &[u8], from: usize, block: &mut [u32])
    requires { (from ≤ 2 + block_words) × (length block.old ≡ block_words) }
    ensures { block.new ≡ listed block_words (λ i. body_word body.now (from + i)) }
{
    for i in 0..sizes::BLOCK_WORDS {
        block[i] = body_word(body, from + i);
    }
}

// Fills a block with the words of a body from one on.
fn block_from(body: &[u8], from: usize, block: &mut [u32])
    requires { (from ≤ 2 + block_words) × (length block.old ≡ block_words) }
    ensures { block.new ≡ listed block_words (λ i. body_word body.now (from + i)) }
{
    if WORD_BYTES * (from + sizes::BLOCK_WORDS) <= body.len() {
        whole_block(body, from, block);
    } else {
        short_block(body, from, block);
    }
}

// Fills the caller's block of a CALL from its record's body. Over `block_from`, this and `target` are a line each: their contracts name each block of the recorded call.
pub fn source(body: &[u8], block: &mut [u32; sizes::BLOCK_WORDS])
    ensures { block.new ≡ (recorded_call CALL body.now).source }
{
    block_from(body, SOURCE_START, block);
}

// Fills the callee's block of a CALL from its record's body.
pub fn target(body: &[u8], block: &mut [u32; sizes::BLOCK_WORDS])
    ensures { block.new ≡ (recorded_call CALL body.now).target }
{
    block_from(body, TARGET_START, block);
}
