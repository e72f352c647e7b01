//! Hash values by SHA instructions, one message after another. The blocks that lie in one piece of a message are taken in
//! one call.
ghost use Rattle.std.specs.Prelude.{◌≡◌, ℕ, ◌+◌, ◌*◌, ◌<◌, ◌≤◌, ◌++◌, length};
ghost use Rattle.sha2.specs.Sha512 as S512;
ghost use Rattle.sha_lanes.specs.Lanes.{message_of, row};

use crate::rows::rest_in;
use crate::words64::padding::{block_count, padded_row};
use sha_instructions::sha_512::take_blocks;

/// The hash value of one message, which is in three pieces, from an initial hash value.
pub(crate) fn hash_one(initial: &[u64; 8], first: &[u8], second: &[u8], third: &[u8]) -> [u64; 8]
    ensures { result ≡ S512.final_hash initial.now (first.now ++ second.now ++ third.now) }
{
    let mut state = *initial;
    let n = first.len() as u128 + second.len() as u128 + third.len() as u128;
    let blocks = block_count(n);
    let mut k = 0;
    while k < blocks {
        let at = k as u128 * 128;
        match rest_in(first, second, third, at, 128) {
            Some(rest) => {
                let count = rest.len() / 128;
                take_blocks(&mut state, rest, count);
                k += count;
            }
            None => {
                take_blocks(&mut state, &padded_row::<128>(first, second, third, at), 1);
                k += 1;
            }
        }
    }
    state
}

/// The hash values of `count` messages, one to eight, one after another.
pub(crate) fn hash_each(
    initial: &[u64; 8],
    before: &[u8],
    parts: &[u8],
    len: usize,
    count: usize,
    after: &[u8],
) -> [[u64; 8]; 8]
    requires whole { length parts.now ≡ count * len }
    requires most { count ≤ 8 }
    ensures { (j : ℕ) → j < count
        → row result j ≡ S512.final_hash initial.now (message_of before.now parts.now len after.now j) }
{
    let mut values = [*initial; 8];
    for j in 0..count {
        let from = j * len;
        values[j] = hash_one(initial, before, &parts[from..from + len], after);
    }
    values
}
