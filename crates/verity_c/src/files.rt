//! The descriptor and the file digest of fs-verity.
ghost use Rattle.std.specs.Prelude.{◌≡◌, length};
ghost use Rattle.verity_format.specs.Descriptors.{IsDescribed, digest_of_file};
ghost use Rattle.verity_plan.specs.Settings.{digest_len};
ghost use Rattle.verity_c_api.specs.Answers.{descriptor_bytes_in, descriptor_in, file_digest_in, value_or};
ghost use Rattle.verity_c_api.specs.Parameters.{fsverity_tree_of};
ghost use Rattle.verity_c_api.specs.Statuses.{status_of};

use crate::blocks::root_from_bytes;
use crate::plans::fsverity_tree_of;
use verity_c_api::{DONE, Fault, FsverityParams};
use verity_format::{Descriptor, file_digest, write_descriptor};
use verity_hash::Digest;
use verity_plan::TreeSettings;

/// The digest of the file with these parameters and this root hash: the hash of its descriptor (Linux kernel, fs-verity
/// page, "File digest computation"). The buffer for it is as long as the hash function's digests. An empty file has a root
/// hash of zeros. Every size has a descriptor, also one that is too large for a tree.
///
/// The status is 0, or that of the first of `Algorithm`, `DataBlockSize`, `SaltSize`, `Root`, `Length`. Then the buffer
/// stays as it was.
#[unsafe(no_mangle)]
pub extern "C" fn fsverity_file_digest(
    params: &FsverityParams,
    root: &[u8],
    digest: &mut [u8],
) -> i32
    ensures status { result
        ≡ status_of (file_digest_in (fsverity_tree_of params.now) params.now.size root.now (length digest.old)) }
    ensures digest { digest.new
        ≡ value_or digest.old
        (file_digest_in (fsverity_tree_of params.now) params.now.size root.now (length digest.old)) }
{
    let descriptor = match descriptor_of(params, root) {
        Ok(descriptor) => descriptor,
        Err(fault) => return fault.status(),
    };
    if digest.len() != descriptor.algorithm().digest_len() {
        return Fault::Length.status();
    }
    set_file_digest(&descriptor, digest);
    DONE
}

/// The 256 bytes of the descriptor of the file with these parameters and this root hash (Linux kernel, fs-verity page,
/// "fs-verity descriptor"), which the file digest is the hash of. An empty file has a root hash of zeros. Every size has
/// a descriptor, also one that is too large for a tree.
///
/// The status is 0, or that of the first of `Algorithm`, `DataBlockSize`, `SaltSize`, `Root`, `Length`. Then the buffer
/// stays as it was.
#[unsafe(no_mangle)]
pub extern "C" fn fsverity_descriptor(
    params: &FsverityParams,
    root: &[u8],
    descriptor: &mut [u8],
) -> i32
    ensures status { result ≡ status_of (descriptor_bytes_in
        (descriptor_in (fsverity_tree_of params.now) params.now.size root.now) (length descriptor.old)) }
    ensures descriptor { descriptor.new ≡ value_or descriptor.old (descriptor_bytes_in
        (descriptor_in (fsverity_tree_of params.now) params.now.size root.now) (length descriptor.old)) }
{
    let bytes = match descriptor_of(params, root) {
        Ok(of_file) => write_descriptor(&of_file),
        Err(fault) => return fault.status(),
    };
    if descriptor.len() == bytes.len() {
        descriptor.copy_from_slice(&bytes);
        DONE
    } else {
        Fault::Length.status()
    }
}

/// The descriptor of the file with these parameters and this root hash, or the first fault: that of the settings,
/// `Root`.
fn descriptor_of(params: &FsverityParams, root: &[u8]) -> Result<Descriptor, Fault>
    ensures { result ≡ descriptor_in (fsverity_tree_of params.now) params.now.size root.now }
{
    let tree = fsverity_tree_of(params)?;
    let Some(root) = root_from_bytes(&tree, root) else {
        return Err(Fault::Root);
    };
    match Descriptor::of(&tree, params.size, &root) {
        Some(descriptor) => Ok(descriptor),
        // Settings of fs-verity and a root hash of their length have a descriptor, so this is never answered.
        None => Err(Fault::Algorithm),
    }
}

/// Copies the root hash of a file into a buffer, and the file digest that it makes with these settings and this size into
/// another.
pub(crate) fn set_root_and_digest(
    tree: &TreeSettings,
    size: u64,
    hash: &Digest,
    root: &mut [u8],
    digest: &mut [u8],
)
    requires described { IsDescribed tree.now hash.now }
    requires root { length root.old ≡ digest_len tree.now }
    requires digest { length digest.old ≡ digest_len tree.now }
    ensures root { root.new ≡ hash.now }
    ensures digest { digest.new ≡ digest_of_file (record { tree = tree.now; size = size; root = hash.now }) }
{
    set_digest(hash, root);
    // Such settings and a root hash of their length have a descriptor.
    if let Some(descriptor) = Descriptor::of(tree, size, hash) {
        set_file_digest(&descriptor, digest);
    }
}

/// Copies the digest of a file into a buffer of its length.
fn set_file_digest(descriptor: &Descriptor, buffer: &mut [u8])
    requires { length buffer.old ≡ digest_len descriptor.now.tree }
    ensures { buffer.new ≡ digest_of_file descriptor.now }
{
    set_digest(&file_digest(descriptor), buffer);
}

/// Copies a digest into a buffer of its length.
pub(crate) fn set_digest(digest: &Digest, buffer: &mut [u8])
    requires { length digest.now ≡ length buffer.old }
    ensures { buffer.new ≡ digest.now }
{
    buffer.copy_from_slice(digest.as_bytes());
}
