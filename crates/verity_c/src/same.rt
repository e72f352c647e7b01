//! Whether parameters are those that are trusted.
ghost use Rattle.std.specs.Prelude.{◌≡◌, ◌↔◌, true};
ghost use Rattle.verity_c_api.specs.Parameters.{plan_of};
ghost use Rattle.verity_c_api.specs.Same.{AnswersSame};

use crate::plans::plan_of;
use verity_c_api::{DONE, Fault, VerityParams};
use verity_plan::TreeSettings;

/// Whether parameters, as those that were read of a superblock that an attacker may have written, are the trusted ones
/// in all that a root hash needs to stand for the data: hash function, hash type, block sizes, number of data blocks,
/// and the bytes of the salt that count (Linux kernel, dm-verity page, "Construction Parameters"). Hash offset, whether
/// there is a superblock, and UUID aren't compared: blocks from elsewhere don't pass the checks.
///
/// The status is 0 if they are, or that of the first fault of the parameters, of the first fault of the trusted ones,
/// or of `Differs`.
#[unsafe(no_mangle)]
pub extern "C" fn verity_same_params(params: &VerityParams, trusted: &VerityParams) -> i32
    ensures { AnswersSame (plan_of params.now) (plan_of trusted.now) result }
{
    let plan = match plan_of(params) {
        Ok(plan) => plan,
        Err(fault) => return fault.status(),
    };
    let trusted = match plan_of(trusted) {
        Ok(trusted) => trusted,
        Err(fault) => return fault.status(),
    };
    if plan.blocks() != trusted.blocks() {
        return Fault::Differs.status();
    }
    if is_same(plan.settings(), trusted.settings()) {
        DONE
    } else {
        Fault::Differs.status()
    }
}

/// Whether settings are equal.
fn is_same(tree: &TreeSettings, trusted: &TreeSettings) -> bool
    ensures { (result ≡ true) ↔ (tree.now ≡ trusted.now) }
{
    tree.algorithm() == trusted.algorithm()
        && tree.rule() == trusted.rule()
        && tree.salt() == trusted.salt()
        && tree.data_block() == trusted.data_block()
        && tree.hash_block() == trusted.hash_block()
}
