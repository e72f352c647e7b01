//! Hash values by SHA instructions, of one message, and of two side by side. The blocks that lie in one piece of a message
//! are taken in one call.
ghost use Rattle.std.specs.Prelude.{◌≡◌, ℕ, ◌+◌, ◌*◌, ◌<◌, ◌≤◌, ◌++◌, length};
ghost use Rattle.sha2.specs.Sha256 as S256;
ghost use Rattle.sha_lanes.specs.Lanes.{message_of, row};

use crate::rows::rest_in;
use crate::words32::padding::{block_count, padded_row};
use sha_instructions::sha_256::{take_blocks, take_blocks_of_two};

/// The hash value of one message, which is in three pieces, from an initial hash value.
pub(crate) fn hash_one(initial: &[u32; 8], first: &[u8], second: &[u8], third: &[u8]) -> [u32; 8]
    ensures { result ≡ S256.final_hash initial.now (first.now ++ second.now ++ third.now) }
{
    let mut state = *initial;
    let n = first.len() as u128 + second.len() as u128 + third.len() as u128;
    let blocks = block_count(n);
    let mut k = 0;
    while k < blocks {
        let at = k as u128 * 64;
        match rest_in(first, second, third, at, 64) {
            Some(rest) => {
                let count = rest.len() / 64;
                take_blocks(&mut state, rest, count);
                k += count;
            }
            None => {
                take_blocks(&mut state, &padded_row::<64>(first, second, third, at), 1);
                k += 1;
            }
        }
    }
    state
}

/// The hash values of two messages, from an initial hash value. Each is `before`, then a part of its own, both of one
/// length, then `after`.
fn hash_two(
    initial: &[u32; 8],
    before: &[u8],
    part1: &[u8],
    part2: &[u8],
    after: &[u8],
) -> ([u32; 8], [u32; 8])
    requires { length part1.now ≡ length part2.now }
    ensures of_first { result.0 ≡ S256.final_hash initial.now (before.now ++ part1.now ++ after.now) }
    ensures of_second { result.1 ≡ S256.final_hash initial.now (before.now ++ part2.now ++ after.now) }
{
    let mut state1 = *initial;
    let mut state2 = *initial;
    let n = before.len() as u128 + part1.len() as u128 + after.len() as u128;
    let blocks = block_count(n);
    let mut k = 0;
    while k < blocks {
        let at = k as u128 * 64;
        match (
            rest_in(before, part1, after, at, 64),
            rest_in(before, part2, after, at, 64),
        ) {
            (Some(rest1), Some(rest2)) => {
                let count = rest1.len().min(rest2.len()) / 64;
                take_blocks_of_two(&mut state1, rest1, &mut state2, rest2, count);
                k += count;
            }
            _ => {
                let row1 = padded_row::<64>(before, part1, after, at);
                let row2 = padded_row::<64>(before, part2, after, at);
                take_blocks_of_two(&mut state1, &row1, &mut state2, &row2, 1);
                k += 1;
            }
        }
    }
    (state1, state2)
}

/// The hash values of `count` messages, one to eight, two by two: of an odd number the last is taken alone.
pub(crate) fn hash_each(
    initial: &[u32; 8],
    before: &[u8],
    parts: &[u8],
    len: usize,
    count: usize,
    after: &[u8],
) -> [[u32; 8]; 8]
    requires whole { length parts.now ≡ count * len }
    requires most { count ≤ 8 }
    ensures { (j : ℕ) → j < count
        → row result j ≡ S256.final_hash initial.now (message_of before.now parts.now len after.now j) }
{
    let mut values = [*initial; 8];
    for pair in 0..count / 2 {
        let from = 2 * pair * len;
        let (first, second) = hash_two(
            initial,
            before,
            &parts[from..from + len],
            &parts[from + len..from + 2 * len],
            after,
        );
        values[2 * pair] = first;
        values[2 * pair + 1] = second;
    }
    if count % 2 > 0 {
        let from = (count - 1) * len;
        values[count - 1] = hash_one(initial, before, &parts[from..from + len], after);
    }
    values
}
