//! RIPEMD-160 of a whole message (Dobbertin, Bosselaers and Preneel, 1996, appendix A).

ghost use Rattle.std.specs.Prelude.{◌≡◌, ℕ, ◌<◌, ◌≤◌, ◌+◌, ◌*◌, ◌/◌, ◌^◌, List, length, slice_index, take, drop};
ghost use Rattle.def_hash.specs.Ripemd.{padded_message, word_at, block_words, hash_after, digest_bytes, ripemd160};

use crate::rounds::compress;
use crate::state::State;

// The initial hash value.
const INITIAL_HASH: State = State {
    a: 0x6745_2301,
    b: 0xefcd_ab89,
    c: 0x98ba_dcfe,
    d: 0x1032_5476,
    e: 0xc3d2_e1f0,
};

// How many blocks the padded message of `count` bytes has.
fn block_count(count: usize) -> usize
    requires { count < 2 ^ 63 }
    ensures { (m : List ℕ) → length m ≡ count → result ≡ length (padded_message m) / 64 }
{
    (count + 8) / 64 + 1
}

// Byte `i` of the padded message, which is never built.
fn padded_byte(message: &[u8], i: usize) -> u8
    requires { i < length (padded_message message.now) }
    ensures { result ≡ slice_index (padded_message message.now) i }
{
    let count = message.len();
    if i < count {
        return message[i];
    }
    let zeros = (119 - count % 64) % 64;
    let past = i - count;
    if past == 0 {
        return 0x80;
    }
    if past <= zeros {
        return 0;
    }
    let bits = (count as u64).wrapping_mul(8).to_le_bytes();
    bits[past - zeros - 1]
}

// The word at byte `i` of the padded message, low byte first. One that lies whole in the message is
// read at once.
fn word_at(message: &[u8], i: usize) -> u32
    requires { i + 4 ≤ length (padded_message message.now) }
    ensures { result ≡ word_at (padded_message message.now) i }
{
    if message.len() >= 4 && i <= message.len() - 4 {
        return u32::from_le_bytes([message[i], message[i + 1], message[i + 2], message[i + 3]]);
    }
    u32::from_le_bytes([
        padded_byte(message, i),
        padded_byte(message, i + 1),
        padded_byte(message, i + 2),
        padded_byte(message, i + 3),
    ])
}

// The sixteen words of a block of the padded message, whose blocks are numbered from 0.
fn block_words(message: &[u8], block: usize) -> [u32; 16]
    requires { block * 64 + 64 ≤ length (padded_message message.now) }
    ensures { result ≡ block_words (take 64 (drop (block * 64) (padded_message message.now))) 16 }
{
    let mut words = [0; 16];
    'words: for k in 0..16 {
        words[k] = word_at(message, block * 64 + 4 * k);
    }
    words
}

// The hash value of a message.
#[tactic(auto, unfolding(def_hash::specs::Ripemd::hash_after))]
fn hash_value(message: &[u8]) -> State
    ensures { result ≡ hash_after (padded_message message.now) (length (padded_message message.now) / 64) }
{
    let mut h = INITIAL_HASH;
    'blocks: for block in 0..block_count(message.len()) {
        let next = compress(&block_words(message, block), h);
        h = next;
    }
    h
}

// The words of a hash value, low byte first.
#[tactic(auto, unfolding(def_hash::specs::Ripemd::digest_bytes))]
fn digest_bytes(h: State) -> [u8; 20]
    ensures { result ≡ digest_bytes h 5 }
{
    let mut bytes = [0; 20];
    bytes[0..4].copy_from_slice(&h.a.to_le_bytes());
    bytes[4..8].copy_from_slice(&h.b.to_le_bytes());
    bytes[8..12].copy_from_slice(&h.c.to_le_bytes());
    bytes[12..16].copy_from_slice(&h.d.to_le_bytes());
    bytes[16..20].copy_from_slice(&h.e.to_le_bytes());
    bytes
}

/// RIPEMD-160 of a message of any length (Dobbertin, Bosselaers and Preneel, 1996; Bitcoin Core: `OP_RIPEMD160`).
/// Takes no memory and never refuses.
#[tactic(auto, unfolding(def_hash::specs::Ripemd::ripemd160))]
pub fn ripemd160(message: &[u8]) -> [u8; 20]
    ensures { result ≡ ripemd160 message.now }
{
    digest_bytes(hash_value(message))
}
