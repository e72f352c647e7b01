//! What a stored tree is compared by.
ghost use Rattle.std.specs.Prelude.{◌≡◌, IfErr, IfOk};
ghost use Rattle.veritysetup.specs.Options.Settings.{read_root};
ghost use Rattle.veritysetup.specs.Runs.OnlyRead.{IsOnlyRead};
ghost use Rattle.veritysetup.specs.Runs.Verify.{IsInputFault};
ghost use Rattle.veritysetup.specs.Runs.VerifySteps.{IsAskedFor, IsStoredTree, IsTrustedTree};

use crate::fault::Fault;
use crate::options::option_fault::OptionFault;
use crate::options::root_hash::read_root;
use crate::runs::stored_superblock::stored_superblock;
use crate::runs::verify_input::VerifyInput;
use verity_hash::Digest;
use verity_io::Device;
use verity_plan::{Plan, plan_at};

/// What a stored tree is compared by.
#[derive(Clone, Copy)]
pub struct TrustedTree {
    /// Where each hash block stands.
    pub plan: Plan,
    /// The root hash that was given.
    pub root: Digest,
}

/// What the tree of a hash device is compared by, for this input.
pub fn read_trusted_tree<D: Device>(
    device: &mut D,
    input: &VerifyInput,
) -> Result<TrustedTree, Fault<'static>>
    ensures only_read { IsOnlyRead D.tells D.content D.failures device.old device.new result }
    ensures asked { IfOk result (λ tree. IsAskedFor input.now tree.plan tree.root) }
    ensures trusted { D.tells device.old → IsTrustedTree input.now (D.content device.old) result }
    ensures possible { IfErr result IsInputFault }
{
    match *input {
        VerifyInput::Stored { offset, root } => read_stored_tree(device, offset, root),
        VerifyInput::Given(settings) => match settings.root() {
            Some(root) => Ok(TrustedTree {
                plan: *settings.plan(),
                root,
            }),
            None => Err(Fault::Option(OptionFault::BadRoot)),
        },
    }
}

/// Reads the superblock at an offset of a hash device, plans its tree, and reads the text of the root hash.
fn read_stored_tree<D: Device>(
    device: &mut D,
    offset: u64,
    root: &str,
) -> Result<TrustedTree, Fault<'static>>
    ensures only_read { IsOnlyRead D.tells D.content D.failures device.old device.new result }
    ensures asked { IfOk result (λ tree. read_root tree.plan.settings.algorithm root.now ≡ Some tree.root) }
    ensures trusted { D.tells device.old → IsStoredTree offset root.now (D.content device.old) result }
    ensures possible { IfErr result IsInputFault }
{
    let superblock = match stored_superblock(device, offset) {
        Ok(superblock) => superblock,
        Err(fault) => return Err(fault),
    };
    let tree = superblock.tree();
    let plan = match plan_at(tree, superblock.blocks(), offset, true) {
        Ok(plan) => plan,
        Err(_) => return Err(Fault::HashAreaTooLarge),
    };
    match read_root(tree.algorithm(), root) {
        Some(root) => Ok(TrustedTree { plan, root }),
        None => Err(Fault::Option(OptionFault::BadRoot)),
    }
}
