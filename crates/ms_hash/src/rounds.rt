//! The compression function of RIPEMD-160 (Dobbertin, Bosselaers and Preneel, 1996, appendix A): two
//! lines of five rounds of 16 steps, over a block of sixteen words.

ghost use Rattle.std.specs.Prelude.{◌≡◌, ℕ, ◌+◌, ◌<◌, ◌≤◌, List};
ghost use Rattle.def_hash.specs.Ripemd.{step_function, step, left_step, right_step, left_line, right_line, combined, compress};

use crate::state::State;

// The constant that each round adds.
const LEFT_CONSTANTS: [u32; 5] = [
    0x0000_0000,
    0x5a82_7999,
    0x6ed9_eba1,
    0x8f1b_bcdc,
    0xa953_fd4e,
];

// The same of the right line.
const RIGHT_CONSTANTS: [u32; 5] = [
    0x50a2_8be6,
    0x5c4d_d124,
    0x6d70_3ef3,
    0x7a6d_76e9,
    0x0000_0000,
];

// Which word of the block each step reads.
const LEFT_WORDS: [usize; 80] = [
    // Round 1.
    0, 1, 2, 3, 4, 5, 6, 7, 8, 9, 10, 11, 12, 13, 14, 15,
    // Round 2.
    7, 4, 13, 1, 10, 6, 15, 3, 12, 0, 9, 5, 2, 14, 11, 8,
    // Round 3.
    3, 10, 14, 4, 9, 15, 8, 1, 2, 7, 0, 6, 13, 11, 5, 12,
    // Round 4.
    1, 9, 11, 10, 0, 8, 12, 4, 13, 3, 7, 15, 14, 5, 6, 2,
    // Round 5.
    4, 0, 5, 9, 7, 12, 2, 10, 14, 1, 3, 8, 11, 6, 15, 13,
];

// The same of the right line.
const RIGHT_WORDS: [usize; 80] = [
    // Round 1.
    5, 14, 7, 0, 9, 2, 11, 4, 13, 6, 15, 8, 1, 10, 3, 12,
    // Round 2.
    6, 11, 3, 7, 0, 13, 5, 10, 14, 15, 8, 12, 4, 9, 1, 2,
    // Round 3.
    15, 5, 1, 3, 7, 14, 6, 9, 11, 8, 12, 2, 10, 0, 4, 13,
    // Round 4.
    8, 6, 4, 1, 3, 11, 15, 0, 5, 12, 2, 13, 9, 7, 10, 14,
    // Round 5.
    12, 15, 10, 4, 1, 5, 8, 7, 6, 2, 13, 14, 0, 3, 9, 11,
];

// By how many bits each step rotates.
const LEFT_SHIFTS: [u32; 80] = [
    // Round 1.
    11, 14, 15, 12, 5, 8, 7, 9, 11, 13, 14, 15, 6, 7, 9, 8,
    // Round 2.
    7, 6, 8, 13, 11, 9, 7, 15, 7, 12, 15, 9, 11, 7, 13, 12,
    // Round 3.
    11, 13, 6, 7, 14, 9, 13, 15, 14, 8, 13, 6, 5, 12, 7, 5,
    // Round 4.
    11, 12, 14, 15, 14, 15, 9, 8, 9, 14, 5, 6, 8, 6, 5, 12,
    // Round 5.
    9, 15, 5, 11, 6, 8, 13, 12, 5, 12, 13, 14, 11, 8, 5, 6,
];

// The same of the right line.
const RIGHT_SHIFTS: [u32; 80] = [
    // Round 1.
    8, 9, 9, 11, 13, 15, 15, 5, 7, 7, 8, 11, 14, 14, 12, 6,
    // Round 2.
    9, 13, 15, 7, 12, 8, 9, 11, 7, 7, 12, 7, 6, 15, 13, 11,
    // Round 3.
    9, 7, 15, 11, 8, 6, 6, 14, 12, 13, 5, 14, 13, 13, 7, 5,
    // Round 4.
    15, 5, 8, 11, 14, 14, 6, 14, 6, 9, 12, 9, 12, 5, 15, 8,
    // Round 5.
    8, 5, 12, 9, 12, 5, 14, 6, 8, 13, 6, 5, 15, 13, 11, 11,
];

// The function of step `j`, which changes with the round of 16 steps.
#[inline(always)]
fn step_function(j: usize, x: u32, y: u32, z: u32) -> u32
    ensures { result ≡ step_function j x y z }
{
    if j < 16 {
        x ^ y ^ z
    } else if j < 32 {
        (x & y) | (!x & z)
    } else if j < 48 {
        (x | !y) ^ z
    } else if j < 64 {
        (x & z) | (y & !z)
    } else {
        x ^ (y | !z)
    }
}

// A step with the function of step `j` of the left line, and what the step adds and rotates by.
#[inline(always)]
#[tactic(auto, unfolding(def_hash::specs::Ripemd::step))]
fn step(j: usize, word: u32, constant: u32, shift: u32, v: State) -> State
    ensures { result ≡ step (step_function j) word constant shift v }
{
    let sum = v
        .a
        .wrapping_add(step_function(j, v.b, v.c, v.d))
        .wrapping_add(word)
        .wrapping_add(constant);
    State {
        a: v.e,
        b: sum.rotate_left(shift).wrapping_add(v.e),
        c: v.b,
        d: v.c.rotate_left(10),
        e: v.d,
    }
}

// Step `j` of the left line, with the block's words `w`.
#[inline(always)]
fn left_step(w: &[u32; 16], j: usize, v: State) -> State
    requires { j < 80 }
    ensures { result ≡ left_step w.now j v }
{
    step(
        j,
        w[LEFT_WORDS[j]],
        LEFT_CONSTANTS[j / 16],
        LEFT_SHIFTS[j],
        v,
    )
}

// Step `j` of the right line, which takes the functions from the last to the first.
#[inline(always)]
fn right_step(w: &[u32; 16], j: usize, v: State) -> State
    requires { j < 80 }
    ensures { result ≡ right_step w.now j v }
{
    step(
        79 - j,
        w[RIGHT_WORDS[j]],
        RIGHT_CONSTANTS[j / 16],
        RIGHT_SHIFTS[j],
        v,
    )
}

// The eight steps of the left line from step `from` on: few enough for the compiler to write them out.
#[inline(always)]
fn left_eight(w: &[u32; 16], from: usize, mut v: State) -> State
    requires { from ≤ 72 }
    ensures { (h : List ℕ) → v ≡ left_line w.now h from → result ≡ left_line w.now h (from + 8) }
{
    'steps: for j in from..from + 8 {
        let next = left_step(w, j, v);
        v = next;
    }
    v
}

// The 16 steps of a round of the left line, the first of which is step `from`.
#[inline(always)]
fn left_round(w: &[u32; 16], from: usize, v: State) -> State
    requires { from ≤ 64 }
    ensures { (h : List ℕ) → v ≡ left_line w.now h from → result ≡ left_line w.now h (from + 16) }
{
    let half = left_eight(w, from, v);
    left_eight(w, from + 8, half)
}

// The variables of the left line after its 80 steps, from the hash value `h`. The rounds are written
// out, so that the compiler knows the function of each.
fn left_line(w: &[u32; 16], h: State) -> State
    ensures { result ≡ left_line w.now h 80 }
{
    let v = left_round(w, 0, h);
    let v = left_round(w, 16, v);
    let v = left_round(w, 32, v);
    let v = left_round(w, 48, v);
    left_round(w, 64, v)
}

// The eight steps of the right line from step `from` on: few enough for the compiler to write them out.
#[inline(always)]
fn right_eight(w: &[u32; 16], from: usize, mut v: State) -> State
    requires { from ≤ 72 }
    ensures { (h : List ℕ) → v ≡ right_line w.now h from → result ≡ right_line w.now h (from + 8) }
{
    'steps: for j in from..from + 8 {
        let next = right_step(w, j, v);
        v = next;
    }
    v
}

// The 16 steps of a round of the right line, the first of which is step `from`.
#[inline(always)]
fn right_round(w: &[u32; 16], from: usize, v: State) -> State
    requires { from ≤ 64 }
    ensures { (h : List ℕ) → v ≡ right_line w.now h from → result ≡ right_line w.now h (from + 16) }
{
    let half = right_eight(w, from, v);
    right_eight(w, from + 8, half)
}

// The same of the right line.
fn right_line(w: &[u32; 16], h: State) -> State
    ensures { result ≡ right_line w.now h 80 }
{
    let v = right_round(w, 0, h);
    let v = right_round(w, 16, v);
    let v = right_round(w, 32, v);
    let v = right_round(w, 48, v);
    right_round(w, 64, v)
}

/// The hash value after a block with the words `w`.
#[tactic(auto, unfolding(def_hash::specs::Ripemd::combined, def_hash::specs::Ripemd::compress))]
pub fn compress(w: &[u32; 16], h: State) -> State
    ensures { result ≡ compress w.now h }
{
    let left = left_line(w, h);
    let right = right_line(w, h);
    State {
        a: h.b.wrapping_add(left.c).wrapping_add(right.d),
        b: h.c.wrapping_add(left.d).wrapping_add(right.e),
        c: h.d.wrapping_add(left.e).wrapping_add(right.a),
        d: h.e.wrapping_add(left.a).wrapping_add(right.b),
        e: h.a.wrapping_add(left.b).wrapping_add(right.c),
    }
}
