//! The open blocks of a tree, one a level, one after another: digests come to them, and they close.
ghost use Rattle.std.specs.Prelude.{◌≡◌, ℕ, ◌+◌, ◌*◌, ◌/◌, ◌%◌, ◌^◌, ◌<◌, ◌≤◌, ◌++◌, ◌-◌, List, length, take, drop};
ghost use Rattle.std.specs.Prelude.{true, false};
ghost use Rattle.verity_plan.specs.PlanCounts.{level_count_of};
ghost use Rattle.verity_plan.specs.Plans.{IsPlan};
ghost use Rattle.verity_plan.specs.Settings.{digest_len, fan, hash};
ghost use Rattle.verity_blocks.specs.Steps.OpenBlocks.{Adds, HasClosed, HasOpenBlocks, IsAsking, IsCarrying, carry_state};
ghost use Rattle.verity_blocks.specs.Steps.OpenBlocks.{level_digest};
ghost use Rattle.verity_blocks.specs.Steps.Batches.{HoldsDataBlocks, IsBatch};
ghost use Rattle.verity_blocks.specs.TreeOnDevice.{tree_block};

use crate::known_zeros::KnownZeros;
use crate::plans::planned;
use crate::side_by_side::digest_rows;
use verity_hash::Digest;
use verity_plan::Plan;

/// Puts a digest into a block, from this byte on; the block's other bytes stay.
fn put_digest(block: &mut [u8], from: usize, digest: &Digest)
    requires { from + length digest.now ≤ length block.old }
    ensures { block.new ≡ take from block.old ++ digest.now ++ drop (from + length digest.now) block.old }
{
    let bytes = digest.as_bytes();
    block[from..from + bytes.len()].copy_from_slice(bytes);
}

/// Adds a digest that has come to a level, above data block `i`, to the level's open block: whether the block has closed,
/// full or with the last data block.
pub fn add_digest(plan: &Plan, opened: &mut [u8], i: u64, level: usize, digest: &Digest) -> bool
    requires room { level * plan.now.settings.hash_block + plan.now.settings.hash_block ≤ length opened.old }
    requires size { length digest.now ≡ digest_len plan.now.settings }
    requires below { i < plan.now.blocks }
    ensures last { i + 1 ≡ plan.now.blocks → result ≡ true }
    ensures room { result ≡ false
        → i / fan plan.now.settings ^ level % fan plan.now.settings + 1 < fan plan.now.settings }
    ensures adds { (blocks : List (List ℕ)) (levels : ℕ) → plan.now.blocks ≡ length blocks → level < levels
        → levels * plan.now.settings.hash_block ≤ length opened.old
        → IsCarrying plan.now.settings blocks (carry_state i level levels) opened.old digest.now
        → Adds result plan.now.settings blocks i level levels opened.new }
{
    let blocks = plan.blocks();
    let size = plan.hash_block();
    let fan = plan.fan();
    let slot = (plan.index_above(i, level) % fan as u64) as usize;
    let from = level * size;
    put_digest(
        &mut opened[from..from + size],
        slot * plan.settings().slot_width(),
        digest,
    );
    slot + 1 >= fan || i + 1 == blocks
}

/// The digest of a level's hash block, which has closed. Zeros are left, for the digests that come next.
fn close_block(plan: &Plan, opened: &mut [u8], level: usize) -> Digest
    requires room { level * plan.now.settings.hash_block + plan.now.settings.hash_block ≤ length opened.old }
    ensures size { length result ≡ digest_len plan.now.settings }
    ensures closes { (blocks : List (List ℕ)) (i levels : ℕ) → level < levels
        → levels * plan.now.settings.hash_block ≤ length opened.old
        → HasClosed plan.now.settings blocks i level levels opened.old
        → IsCarrying plan.now.settings blocks (carry_state i (level + 1) levels) opened.new result }
{
    let size = plan.hash_block();
    let from = level * size;
    let digest = plan.settings().hash(&opened[from..from + size]);
    opened[from..from + size].fill(0);
    digest
}

/// Closes the hash block below a level, and adds its digest to the level's open block, above data block `i`: whether that
/// one has closed, full or with the last data block.
pub fn carry_up(plan: &Plan, opened: &mut [u8], i: u64, level: usize) -> bool
    requires above { 0 < level }
    requires room { level * plan.now.settings.hash_block + plan.now.settings.hash_block ≤ length opened.old }
    requires below { i < plan.now.blocks }
    ensures last { i + 1 ≡ plan.now.blocks → result ≡ true }
    ensures room { result ≡ false
        → i / fan plan.now.settings ^ level % fan plan.now.settings + 1 < fan plan.now.settings }
    ensures adds { (blocks : List (List ℕ)) (levels : ℕ) → plan.now.blocks ≡ length blocks → level < levels
        → levels * plan.now.settings.hash_block ≤ length opened.old
        → HasClosed plan.now.settings blocks i (level - 1) levels opened.old
        → Adds result plan.now.settings blocks i level levels opened.new }
{
    let digest = close_block(plan, opened, level - 1);
    add_digest(plan, opened, i, level, &digest)
}

/// The digest of a level's open block above the last data block, with the digest that comes to it. The open block is left
/// as it was before data block `first`, which is below the same hash block of level 0 as the last one.
pub(crate) fn digest_with(
    plan: &Plan,
    opened: &mut [u8],
    first: u64,
    last: u64,
    level: usize,
    digest: &Digest,
) -> Digest
    requires room { level * plan.now.settings.hash_block + plan.now.settings.hash_block ≤ length opened.old }
    requires size { length digest.now ≡ digest_len plan.now.settings }
    requires last { last + 1 ≡ plan.now.blocks }
    requires order { first ≤ last }
    requires beside { first / fan plan.now.settings ≡ last / fan plan.now.settings }
    ensures size { length result ≡ digest_len plan.now.settings }
    ensures asks { (blocks : List (List ℕ)) (levels : ℕ) → plan.now.blocks ≡ length blocks → level < levels
        → levels * plan.now.settings.hash_block ≤ length opened.old
        → IsAsking plan.now.settings blocks first (carry_state last level levels) opened.old digest.now
        → IsAsking plan.now.settings blocks first (carry_state last (level + 1) levels) opened.new result }
{
    let size = plan.hash_block();
    let fan = plan.fan() as u64;
    let width = plan.settings().slot_width();
    let slot = (plan.index_above(last, level) % fan) as usize;
    let clear = (plan.index_above(first, level) % fan) as usize;
    let block = &mut opened[level * size..level * size + size];
    put_digest(block, slot * width, digest);
    let above = plan.settings().hash(block);
    block[clear * width..].fill(0);
    above
}

/// Writes a level's hash block above the last data block into `block`: the open block with the digest that comes to it. The
/// open block is left as `digest_with` leaves it.
pub(crate) fn block_with(
    plan: &Plan,
    opened: &mut [u8],
    first: u64,
    last: u64,
    level: usize,
    digest: &Digest,
    block: &mut [u8],
)
    requires room { level * plan.now.settings.hash_block + plan.now.settings.hash_block ≤ length opened.old }
    requires size { length digest.now ≡ digest_len plan.now.settings }
    requires block { length block.old ≡ plan.now.settings.hash_block }
    requires last { last + 1 ≡ plan.now.blocks }
    requires order { first ≤ last }
    requires beside { first / fan plan.now.settings ≡ last / fan plan.now.settings }
    ensures block { (blocks : List (List ℕ)) (levels : ℕ) → plan.now.blocks ≡ length blocks → level < levels
        → levels * plan.now.settings.hash_block ≤ length opened.old
        → IsAsking plan.now.settings blocks first (carry_state last level levels) opened.old digest.now
        → block.new ≡ tree_block plan.now.settings blocks level (last / fan plan.now.settings ^ (level + 1)) }
    ensures asks { (blocks : List (List ℕ)) (levels : ℕ) → plan.now.blocks ≡ length blocks → level < levels
        → levels * plan.now.settings.hash_block ≤ length opened.old
        → IsAsking plan.now.settings blocks first (carry_state last level levels) opened.old digest.now
        → IsAsking plan.now.settings blocks first (carry_state last (level + 1) levels) opened.new
        (hash plan.now.settings block.new) }
{
    let size = plan.hash_block();
    let fan = plan.fan() as u64;
    let width = plan.settings().slot_width();
    let slot = (plan.index_above(last, level) % fan) as usize;
    let clear = (plan.index_above(first, level) % fan) as usize;
    let own = &mut opened[level * size..level * size + size];
    put_digest(own, slot * width, digest);
    block.copy_from_slice(own);
    own[clear * width..].fill(0);
}

/// Adds the digests of a batch of data blocks from `i` on, which stand one after another in `rows`, to the open block of
/// level 0, but that of the last one, which is the result. No hash block closes with those that are added.
pub(crate) fn add_batch<'a>(
    plan: &'a Plan,
    opened: &mut [u8],
    i: u64,
    rows: &[u8],
    count: usize,
    zeros: &mut KnownZeros<'a>,
) -> Digest
    requires planned { IsPlan plan.now }
    requires room { level_count_of plan.now * plan.now.settings.hash_block ≤ length opened.old }
    requires batch { IsBatch plan.now i count }
    requires rows { length rows.now ≡ count * plan.now.settings.data_block }
    ensures size { length result ≡ digest_len plan.now.settings }
    ensures adds { (blocks : List (List ℕ)) (levels : ℕ) → plan.now.blocks ≡ length blocks → level_count_of plan.now ≤ levels
        → levels * plan.now.settings.hash_block ≤ length opened.old
        → HoldsDataBlocks plan.now.settings blocks i count rows.now
        → HasOpenBlocks plan.now.settings blocks 0 levels i opened.old
        → HasOpenBlocks plan.now.settings blocks 0 levels (i + count - 1) opened.new
        × (result ≡ level_digest plan.now.settings blocks (i + count - 1) 0) }
{
    let digests = digest_rows(plan, rows, count, zeros);
    for row in 0..count - 1 {
        let digest = digests[row];
        add_digest(plan, opened, i + row as u64, 0, &digest);
    }
    digests[count - 1]
}
