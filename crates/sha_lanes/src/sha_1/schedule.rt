//! The message schedule (FIPS 180-4, 6.1.2, step 1).
ghost use Rattle.std.specs.Prelude.{◌≡◌, ℕ, ◌<◌, List, slice_index};
ghost use Rattle.std.specs.Int.{w32, rotate_left};
ghost use Rattle.std.specs.Prelude.{bit_xor};
ghost use Rattle.sha1.specs.Sha1 as S1;
ghost use Rattle.sha_lanes.specs.Lanes.{HasLanes, lane};
ghost use Rattle.sha_lanes.specs.Words32.{BeginsSchedule};

use crate::sha_1::functions::rotl;
use std::simd::prelude::*;

/// W t from the words before it: of t - 3, t - 8, t - 14 and t - 16.
#[inline(always)]
fn next_word(w3: u32x8, w8: u32x8, w14: u32x8, w16: u32x8) -> u32x8
    ensures { HasLanes 8 result (λ j. rotate_left w32 (bit_xor (bit_xor (bit_xor (slice_index w3 j) (slice_index w8 j))
        (slice_index w14 j)) (slice_index w16 j)) 1) }
{
    rotl(w3 ^ w8 ^ w14 ^ w16, 1)
}

/// Makes the whole schedule from its first 16 words.
#[inline(always)]
pub(crate) fn schedule(w: &mut [u32x8; 80])
    ensures { (j : ℕ) → j < 8 → (b : List ℕ) → BeginsSchedule w.old j b → lane w.new j ≡ S1.schedule b 64 }
{
    for t in 16..80 {
        w[t] = next_word(w[t - 3], w[t - 8], w[t - 14], w[t - 16]);
    }
}
