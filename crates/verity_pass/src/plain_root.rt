//! The root hash by whole lists, level by level: the plain body that the passes are tested beside.
ghost use Rattle.std.specs.Prelude.{◌≡◌, ◌<◌, length, map, vec_len, IfOk};
ghost use Rattle.std.specs.Int.{div_ceil};
ghost use Rattle.verity_blocks.specs.Levels.{cut, hash_block_of, pack, root, data_blocks};
ghost use Rattle.verity_blocks.specs.Steps.PlainRoots.{root_of_digests};
ghost use Rattle.verity_plan.specs.Settings.{hash};

use std::alloc::{AllocError, Global};
use verity_hash::Digest;
use verity_plan::{Plan, TreeSettings};

/// The hash block of some digests: their slots in order, and zeros.
fn hash_block_of(
    alloc: Global,
    settings: &TreeSettings,
    digests: &[Digest],
) -> Result<Vec<u8>, AllocError>
    ensures { IfOk result (λ block. block.items ≡ hash_block_of settings.now digests.now) }
{
    let width = settings.slot_width();
    let mut block = Vec::new(alloc);
    for digest in digests {
        let bytes = digest.as_bytes();
        block.extend_from_slice(bytes)?;
        block.extend_from_slice(&[0; 128][..width.saturating_sub(bytes.len())])?;
    }
    let size = settings.hash_block() as usize;
    let size = size.max(block.len());
    block.resize(size, 0)?;
    Ok(block)
}

/// The digests of the hash blocks one level above these digests.
fn level_up(
    alloc: Global,
    settings: &TreeSettings,
    digests: &[Digest],
) -> Result<Vec<Digest>, AllocError>
    ensures { IfOk result (λ above. above.items ≡ map (hash settings.now) (pack settings.now digests.now)) }
{
    let fan = settings.fan();
    let mut above = Vec::new(alloc);
    for j in 0..digests.len().div_ceil(fan) {
        let from = j * fan;
        let count = fan.min(digests.len() - from);
        let block = hash_block_of(alloc, settings, &digests[from..from + count])?;
        above.push(settings.hash(&block))?;
    }
    Ok(above)
}

/// The root above these digests.
fn root_of_digests(
    alloc: Global,
    settings: &TreeSettings,
    digests: Vec<Digest>,
) -> Result<Digest, AllocError>
    requires { 0 < vec_len digests }
    ensures { IfOk result (λ root. root ≡ root_of_digests settings.now digests.items) }
{
    // Called for the proof: its contract says that the fan-out is at least 2.
    let _fan = settings.fan();
    let mut level = digests;
    'levels: while level.len() > 1 {
        level = level_up(alloc, settings, &level)?;
    }
    Ok(level[0])
}

/// The digests of the data blocks.
fn digests_of(
    alloc: Global,
    settings: &TreeSettings,
    bytes: &[u8],
) -> Result<Vec<Digest>, AllocError>
    ensures { IfOk result (λ digests. digests.items ≡ map (hash settings.now)
        (cut settings.now (div_ceil (length bytes.now) settings.now.data_block) (length bytes.now) bytes.now)) }
{
    let size = settings.data_block() as usize;
    let mut digests = Vec::new(alloc);
    for i in 0..bytes.len().div_ceil(size) {
        let from = i * size;
        let count = size.min(bytes.len() - from);
        let mut block = Vec::from_slice(alloc, &bytes[from..from + count])?;
        block.resize(size, 0)?;
        digests.push(settings.hash(&block))?;
    }
    Ok(digests)
}

/// The root hash of all data of a plan, by the levels as whole lists (Linux kernel, dm-verity page, "Hash Tree"). The
/// error is out of memory. It holds the digests of a level at a time.
pub fn root_by_levels(alloc: Global, plan: &Plan, bytes: &[u8]) -> Result<Digest, AllocError>
    requires { length bytes.now ≡ plan.now.wanted }
    ensures { IfOk result (λ digest. digest ≡ root plan.now.settings (data_blocks plan.now bytes.now)) }
{
    // Called for the proof: its contract says that the plan has data.
    let _wanted = plan.wanted();
    let settings = plan.settings();
    let digests = digests_of(alloc, settings, bytes)?;
    root_of_digests(alloc, settings, digests)
}
