//! Checking one block by the hash block above it, or by the root hash.
ghost use Rattle.std.specs.Prelude.{◌≡◌};
ghost use Rattle.verity_c_api.specs.Answers.{link_status_in, top_status_in, with_root};
ghost use Rattle.verity_c_api.specs.Parameters.{fsverity_plan_of, plan_of};

use crate::blocks::root_from_bytes;
use crate::plans::{fsverity_plan_of, plan_of};
use verity_c_api::{Fault, FsverityParams, VerityParams, link_status};
use verity_pass::{check_link, check_top};
use verity_plan::Plan;

/// Checks one block by a hash block of a level that is trusted already. Both are above data block `index`, counted from
/// 0: for level 0 `block` is that data block, and for a higher level the hash block one level down.
///
/// The status is 0, or that of the first fault of the parameters, or of `Index`, `Level`, `Length`, `Differs`.
#[unsafe(no_mangle)]
pub extern "C" fn verity_check_link(
    params: &VerityParams,
    index: u64,
    level: usize,
    block: &[u8],
    above: &[u8],
) -> i32
    ensures { result ≡ link_status_in (plan_of params.now) index level block.now above.now }
{
    check_link_in(plan_of(params), index, level, block, above)
}

/// The same in a file's fs-verity tree. The last data block counts with the zeros that fill it.
#[unsafe(no_mangle)]
pub extern "C" fn fsverity_check_link(
    params: &FsverityParams,
    index: u64,
    level: usize,
    block: &[u8],
    above: &[u8],
) -> i32
    ensures { result ≡ link_status_in (fsverity_plan_of params.now) index level block.now above.now }
{
    check_link_in(fsverity_plan_of(params), index, level, block, above)
}

fn check_link_in(
    plan: Result<Plan, Fault>,
    index: u64,
    level: usize,
    block: &[u8],
    above: &[u8],
) -> i32
    ensures { result ≡ link_status_in plan index level block.now above.now }
{
    match plan {
        Ok(plan) => link_status(check_link(&plan, index, level, block, above)),
        Err(fault) => fault.status(),
    }
}

/// Checks the top block by the root hash: the one hash block of the top level, or the data block if it is the only one.
/// Data block `index`, counted from 0, is the one that is checked with it.
///
/// The status is 0, or that of the first fault of the parameters, or of `Root`, `Index`, `Length`, `Differs`.
#[unsafe(no_mangle)]
pub extern "C" fn verity_check_top(
    params: &VerityParams,
    index: u64,
    block: &[u8],
    root: &[u8],
) -> i32
    ensures { result ≡ top_status_in (with_root (plan_of params.now) root.now) index block.now root.now }
{
    check_top_in(plan_of(params), index, block, root)
}

/// The same in a file's fs-verity tree. The last data block counts with the zeros that fill it.
#[unsafe(no_mangle)]
pub extern "C" fn fsverity_check_top(
    params: &FsverityParams,
    index: u64,
    block: &[u8],
    root: &[u8],
) -> i32
    ensures { result ≡ top_status_in (with_root (fsverity_plan_of params.now) root.now) index block.now root.now }
{
    check_top_in(fsverity_plan_of(params), index, block, root)
}

fn check_top_in(plan: Result<Plan, Fault>, index: u64, block: &[u8], root: &[u8]) -> i32
    ensures { result ≡ top_status_in (with_root plan root.now) index block.now root.now }
{
    let plan = match plan {
        Ok(plan) => plan,
        Err(fault) => return fault.status(),
    };
    match root_from_bytes(plan.settings(), root) {
        Some(root) => link_status(check_top(&plan, index, block, &root)),
        None => Fault::Root.status(),
    }
}
