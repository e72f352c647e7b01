//! Building a file's fs-verity tree as pieces of the file come, whose length isn't known before.
ghost use Rattle.std.specs.Prelude.{◌≡◌, ◌≢◌, ◌+◌, ℕ, List, [], ◌++◌, length, Err, IfErr, IfOk, Ok};
ghost use Rattle.verity_hash.specs.declared.salting.SaltRule.TheVariants.{PaddedBefore};
ghost use Rattle.verity_plan.specs.Settings.{digest_len};
ghost use Rattle.verity_c_api.specs.Answers.{value_or};
ghost use Rattle.verity_c_api.specs.Building.{IsFedFileTo, digest_of_fed, file_memory_length_in, file_memory_length_of};
ghost use Rattle.verity_c_api.specs.Building.{file_root_in, with_file_end, with_file_memory, with_file_piece};
ghost use Rattle.verity_c_api.specs.FileTrees.{with_tree_end};
ghost use Rattle.verity_c_api.specs.Parameters.{fsverity_settings_of, fsverity_tree_of};
ghost use Rattle.verity_c_api.specs.Statuses.{done, status_of};
ghost use Rattle.verity_c_api.specs.declared.build.VerityBuild.{VerityBuild};

use crate::files::set_root_and_digest;
use crate::plans::{fsverity_settings_of, fsverity_tree_of};
use verity_builders::FileBuilder;
use verity_c_api::{DONE, Fault, FsverityParams};
use verity_plan::{SettingFault, TreeSettings};

/// The length of the memory that a file's tree is built in, in bytes: a block for each level that the tree of the
/// largest file has (Linux kernel, fs-verity page, "Merkle tree"), and a window of up to eight data blocks. The size in
/// the parameters isn't looked at.
///
/// The status is 0, or that of the first of `Algorithm`, `DataBlockSize`, `SaltSize`. Then the length stays as it was.
#[unsafe(no_mangle)]
pub extern "C" fn fsverity_build_memory(params: &FsverityParams, length: &mut usize) -> i32
    ensures status { result ≡ status_of (file_memory_length_in (fsverity_tree_of params.now)) }
    ensures length { length.new ≡ value_or length.old (file_memory_length_in (fsverity_tree_of params.now)) }
{
    match fsverity_tree_of(params) {
        Ok(tree) => {
            *length = FileBuilder::memory_length(&tree);
            DONE
        }
        Err(fault) => fault.status(),
    }
}

/// Begins to build: nothing was fed yet. The size in the parameters becomes 0: it counts the bytes that were fed, so
/// that the parameters are always those of the file so far. What stood in the memory doesn't count. The memory is as
/// long as `fsverity_build_memory` says, here and in each call below.
///
/// The status is 0, or that of the first of `Algorithm`, `DataBlockSize`, `SaltSize`, `Length`. Then parameters and
/// memory stay as they were.
#[unsafe(no_mangle)]
pub extern "C" fn fsverity_build_begin(params: &mut FsverityParams, memory: &mut [u8]) -> i32
    ensures status { result ≡ status_of (with_file_memory (fsverity_tree_of params.old) (length memory.old)) }
    ensures refused { result ≢ done → (params.new ≡ params.old) × (memory.new ≡ memory.old) }
    ensures size { result ≡ done → params.new ≡ record params.old { size = 0 } }
    ensures fed { result ≡ done → IsFedFileTo params.new memory.new [] }
{
    let made = fsverity_settings_of(params);
    let tree = match tree_in(&made, params, memory.len()) {
        Ok(tree) => tree,
        Err(fault) => return fault.status(),
    };
    params.size = FileBuilder::begin(tree, memory).fed;
    DONE
}

/// Feeds the next piece of the file, of any length. The size in the parameters grows by its length.
///
/// The status is 0, or that of the first of `Algorithm`, `DataBlockSize`, `SaltSize`, `Length` (the memory's),
/// `TooLarge` (so many bytes are too many for a tree). Then parameters and memory stay as they were. The answer is right
/// where parameters and memory are as the call before left them; others have an answer too.
#[unsafe(no_mangle)]
pub extern "C" fn fsverity_build_feed(
    params: &mut FsverityParams,
    memory: &mut [u8],
    piece: &[u8],
) -> i32
    ensures status { result ≡ status_of (with_file_piece (with_file_memory (fsverity_tree_of params.old)
        (length memory.old)) params.old.size (length piece.now)) }
    ensures refused { result ≢ done → (params.new ≡ params.old) × (memory.new ≡ memory.old) }
    ensures size { result ≡ done → params.new ≡ record params.old { size = params.old.size + length piece.now } }
    ensures fed { (fed : List ℕ) → IsFedFileTo params.old memory.old fed → result ≡ done
        → IsFedFileTo params.new memory.new (fed ++ piece.now) }
{
    let made = fsverity_settings_of(params);
    let tree = match tree_in(&made, params, memory.len()) {
        Ok(tree) => tree,
        Err(fault) => return fault.status(),
    };
    let mut builder = FileBuilder {
        settings: *tree,
        fed: params.size,
    };
    match builder.feed(memory, piece) {
        Ok(()) => {
            params.size = builder.fed;
            DONE
        }
        Err(fault) => Fault::of_feed(fault).status(),
    }
}

/// The root hash of all bytes that were fed, and the digest of the file that they are (Linux kernel, fs-verity page,
/// "Merkle tree" and "File digest computation"). The root hash of no bytes is zeros. Each buffer is as long as the hash
/// function's digests. Both can be asked for at any time, as often as one likes: the memory stays that of the same
/// bytes, and feeding goes on.
///
/// The status is 0, or that of the first of `Algorithm`, `DataBlockSize`, `SaltSize`, `Length` (the memory's), `Root`
/// (the buffer for the root hash is shorter or longer), `Length` (the file digest's), `TooLarge` (the bytes are too
/// many for a tree, which no call before leaves). Then memory and buffers stay as they were. The answer is right where
/// parameters and memory are as the call before left them.
#[unsafe(no_mangle)]
pub extern "C" fn fsverity_build_end(
    params: &FsverityParams,
    memory: &mut [u8],
    root: &mut [u8],
    digest: &mut [u8],
) -> i32
    ensures status { result ≡ status_of (with_file_end (with_file_memory (fsverity_tree_of params.now)
        (length memory.old)) params.now.size (length root.old) (length digest.old)) }
    ensures refused { result ≢ done
        → (memory.new ≡ memory.old) × (root.new ≡ root.old) × (digest.new ≡ digest.old) }
    ensures root { (fed : List ℕ) → IsFedFileTo params.now memory.old fed → result ≡ done
        → root.new ≡ value_or root.old (file_root_in (fsverity_tree_of params.now) fed) }
    ensures digest { (fed : List ℕ) → IsFedFileTo params.now memory.old fed → result ≡ done
        → digest.new ≡ value_or digest.old (digest_of_fed (fsverity_tree_of params.now) fed) }
    ensures stays { (fed : List ℕ) → IsFedFileTo params.now memory.old fed → IsFedFileTo params.now memory.new fed }
{
    let made = fsverity_settings_of(params);
    let tree = match tree_at_end(&made, params, memory.len(), root.len(), digest.len()) {
        Ok(tree) => tree,
        Err(fault) => return fault.status(),
    };
    let builder = FileBuilder {
        settings: *tree,
        fed: params.size,
    };
    match builder.end(memory) {
        Ok(hash) => {
            set_root_and_digest(tree, params.size, &hash, root, digest);
            DONE
        }
        Err(fault) => Fault::of_feed(fault).status(),
    }
}

/// The settings that parameters have made, if there can be as many bytes of the salt as are to count, and the memory is as
/// long as their builder wants; or the first fault: that of the settings, `SaltSize`, `Length`. They aren't moved, which
/// would take as long as a short piece takes otherwise.
#[inline(always)]
pub(crate) fn tree_in<'a>(
    made: &'a Result<TreeSettings, SettingFault>,
    params: &FsverityParams,
    room: usize,
) -> Result<&'a TreeSettings, Fault>
    requires { made.now ≡ fsverity_settings_of params.now }
    ensures value { IfOk result (λ tree. with_file_memory (fsverity_tree_of params.now) room ≡ Ok tree.now) }
    ensures made { IfOk result (λ tree. fsverity_tree_of params.now ≡ Ok tree.now) }
    ensures memory { IfOk result (λ tree. room ≡ file_memory_length_of tree.now) }
    ensures fault { IfErr result (λ fault. with_file_memory (fsverity_tree_of params.now) room ≡ Err fault) }
{
    match made {
        Ok(_) if params.salt_size as usize > params.salt.len() => Err(Fault::SaltSize),
        Ok(tree) if room == FileBuilder::memory_length(tree) => Ok(tree),
        Ok(_) => Err(Fault::Length),
        Err(fault) => Err(Fault::of_setting(*fault)),
    }
}

/// The same, if there is room for just a root hash and a file digest, too; or the first fault: one of `tree_in`, `Root`,
/// `Length` (the file digest's).
pub(crate) fn tree_at_end<'a>(
    made: &'a Result<TreeSettings, SettingFault>,
    params: &FsverityParams,
    room: usize,
    root_room: usize,
    digest_room: usize,
) -> Result<&'a TreeSettings, Fault>
    requires { made.now ≡ fsverity_settings_of params.now }
    ensures value { IfOk result (λ tree. with_file_memory (fsverity_tree_of params.now) room ≡ Ok tree.now) }
    ensures made { IfOk result (λ tree. fsverity_tree_of params.now ≡ Ok tree.now) }
    ensures memory { IfOk result (λ tree. room ≡ file_memory_length_of tree.now) }
    ensures root { IfOk result (λ tree. root_room ≡ digest_len tree.now) }
    ensures digest { IfOk result (λ tree. digest_room ≡ digest_len tree.now) }
    ensures rule { IfOk result (λ tree. tree.now.rule ≡ PaddedBefore) }
    ensures fault { IfErr result (λ fault. (size : ℕ)
        → with_file_end (with_file_memory (fsverity_tree_of params.now) room) size root_room digest_room ≡ Err fault) }
    ensures tree_fault { IfErr result (λ fault. (build : VerityBuild)
        → with_tree_end (with_file_memory (fsverity_tree_of params.now) room) build root_room digest_room
        ≡ Err fault) }
{
    let tree = tree_in(made, params, room)?;
    let digest_len = tree.algorithm().digest_len();
    if root_room != digest_len {
        return Err(Fault::Root);
    }
    if digest_room != digest_len {
        return Err(Fault::Length);
    }
    Ok(tree)
}
