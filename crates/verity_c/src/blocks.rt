//! Checking a data block by the hash blocks above it.
ghost use Rattle.std.specs.Prelude.{◌≡◌, ◌==◌, length, Some, None, if◌then◌else◌};
ghost use Rattle.verity_plan.specs.Settings.{digest_len};
ghost use Rattle.verity_c_api.specs.Answers.{AnswersBlock, with_root};
ghost use Rattle.verity_c_api.specs.Parameters.{fsverity_plan_of, plan_of};

use crate::plans::{fsverity_plan_of, plan_of};
use verity_c_api::{Fault, FsverityParams, VerityParams, path_status};
use verity_hash::Digest;
use verity_pass::{PathFault, check_block};
use verity_plan::{Plan, TreeSettings};

/// Checks data block `index`, counted from 0, by its path: the hash blocks above it, one after another, level 0 first.
///
/// The status is 0, or that of the first fault of the parameters, or of `Root`, `Index`, `Length`, `Differs`. For
/// `Differs`, `level` becomes the lowest level at which the hash of the block below isn't the digest in its slot, or the
/// number of levels if the hash of the top block isn't the root hash. Otherwise it stays as it was.
#[unsafe(no_mangle)]
pub extern "C" fn verity_check_block(
    params: &VerityParams,
    index: u64,
    block: &[u8],
    path: &[u8],
    root: &[u8],
    level: &mut usize,
) -> i32
    ensures { AnswersBlock (with_root (plan_of params.now) root.now) index block.now path.now root.now result level.old
        level.new }
{
    check_block_in(plan_of(params), index, block, path, root, level)
}

/// The same in a file's fs-verity tree. The last data block counts with the zeros that fill it.
#[unsafe(no_mangle)]
pub extern "C" fn fsverity_check_block(
    params: &FsverityParams,
    index: u64,
    block: &[u8],
    path: &[u8],
    root: &[u8],
    level: &mut usize,
) -> i32
    ensures { AnswersBlock (with_root (fsverity_plan_of params.now) root.now) index block.now path.now root.now result
        level.old level.new }
{
    check_block_in(fsverity_plan_of(params), index, block, path, root, level)
}

fn check_block_in(
    plan: Result<Plan, Fault>,
    index: u64,
    block: &[u8],
    path: &[u8],
    root: &[u8],
    level: &mut usize,
) -> i32
    ensures { AnswersBlock (with_root plan root.now) index block.now path.now root.now result level.old level.new }
{
    let plan = match plan {
        Ok(plan) => plan,
        Err(fault) => return fault.status(),
    };
    let Some(root) = root_from_bytes(plan.settings(), root) else {
        return Fault::Root.status();
    };
    let answer = check_block(&plan, index, block, path, &root);
    if let Err(PathFault::DiffersAt(lowest)) = answer {
        *level = lowest;
    }
    path_status(answer)
}

/// A root hash, if it is as long as the digests of a tree.
pub(crate) fn root_from_bytes(tree: &TreeSettings, root: &[u8]) -> Option<Digest>
    ensures { result ≡ (if length root.now == digest_len tree.now then Some root.now else None) }
{
    if root.len() == tree.algorithm().digest_len() {
        Digest::from_bytes(root)
    } else {
        None
    }
}
