//! Rows of data blocks that are hashed together.
ghost use Rattle.std.specs.Prelude.{◌≡◌, ℕ, ◌*◌, ◌<◌, ◌≤◌, [], length, slice_index_or};
ghost use Rattle.std.specs.Fork.{slice_chunk};
ghost use Rattle.verity_plan.specs.Settings.{hash};

use crate::known_zeros::KnownZeros;
use sha_lanes::are_zeros;
use verity_hash::Digest;
use verity_plan::Plan;

/// How many data blocks are hashed side by side at most, each in a row of its own.
pub(crate) const ROWS: usize = 8;

/// How many at least: one or two go one by one. Without SHA instructions that is faster, but for two by SHA-1.
const LEAST_ROWS: usize = 3;

/// How many of their first bytes tell nearly always that rows aren't all zeros.
const FIRST_BYTES: usize = 64;

/// The digests of `count` data blocks, one to eight, which stand one after another in `rows`: side by side, or one or two
/// one by one, or if all are zeros what is known of these. The digests after theirs count for nothing.
pub(crate) fn digest_rows<'a>(
    plan: &'a Plan,
    rows: &[u8],
    count: usize,
    zeros: &mut KnownZeros<'a>,
) -> [Digest; ROWS]
    requires whole { length rows.now ≡ count * plan.now.settings.data_block }
    requires some { 0 < count }
    requires most { count ≤ 8 }
    ensures { (r : ℕ) → r < count
        → slice_index_or result r [] ≡ hash plan.now.settings (slice_chunk rows.now plan.now.settings.data_block r) }
{
    let size = plan.data_block();
    if are_zeros(&rows[..size.min(FIRST_BYTES)]) && are_zeros(rows) {
        return [zeros.digest(plan.settings(), &rows[..size]); ROWS];
    }
    if count >= LEAST_ROWS {
        return plan.settings().hash_rows(rows, size, count);
    }
    let first = plan.settings().hash(&rows[..size]);
    let mut digests = [first; ROWS];
    if count > 1 {
        digests[1] = plan.settings().hash(&rows[size..]);
    }
    digests
}
