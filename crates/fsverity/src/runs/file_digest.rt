//! The digest of a file.
ghost use Rattle.std.specs.Prelude.{◌≡◌, ◌↔◌, ◌<◌, length, false, IsTrue, IsOk, IfOk, IfErr};
ghost use Rattle.verity_hash.specs.declared.salting.SaltRule.TheVariants.{PaddedBefore};
ghost use Rattle.verity_plan.specs.Settings.{digest_len};
ghost use Rattle.verity_io.specs.Counting.{Counts, TheDevice, TheSource, failed_at};
ghost use Rattle.fsverity.specs.Runs.FileDigest.{GivesDigest, ComesBeforeReading, IsDigestOfSource, IsDigestOfRoot};
ghost use Rattle.fsverity.specs.Runs.FileDigest.{Stands, side_of};
ghost use Rattle.fsverity.specs.Runs.Digested.{is_too_large};
ghost use Rattle.fsverity.specs.Runs.DigestSteps.{GivesRoot};
ghost use Rattle.fsverity.specs.declared.runs.digest_fault.DigestFault.TheVariants.{TooLarge};

use crate::DigestFault;
use std::alloc::Global;
use verity_format::{Descriptor, file_digest, write_descriptor};
use verity_hash::Digest;
use verity_io::{Device, Nowhere, Source};
use verity_pass::{BuildFault, Store, build};
use verity_plan::{Plan, TreeSettings};

/// The digest of a file, and the descriptor that it is the hash of.
#[derive(Clone, Copy, Debug, PartialEq, Eq)]
pub struct FileDigest {
    /// The file digest.
    pub digest: Digest,
    /// The descriptor of 256 bytes (Linux kernel, fs-verity page, "fs-verity descriptor").
    pub descriptor: [u8; 256],
}

/// The digest of the first `size` bytes of a source, which are read once: the hash of the file's descriptor (Linux
/// kernel, fs-verity page, "File digest computation").
///
/// The error is `TooLarge` if there is data and no plan for it; this and out of memory come before any read. It is
/// `SourceShort` if the source holds fewer bytes, `SourceFailed` if a read fails, and never `DeviceFailed`. An empty
/// file needs no memory and isn't read.
pub fn digest_file<S: Source>(
    alloc: Global,
    settings: &TreeSettings,
    size: u64,
    source: &mut S,
) -> Result<FileDigest, DigestFault>
    requires { settings.now.rule ≡ PaddedBefore }
    ensures told { S.tells source.old → S.tells source.new }
    ensures too_large { (result ≡ Err TooLarge) ↔ IsTrue (is_too_large settings.now size) }
    ensures unread { IfErr result (λ fault. ComesBeforeReading fault → source.new ≡ source.old) }
    ensures empty { size ≡ 0 → IsOk result × (source.new ≡ source.old) }
    ensures described { IfOk result
        (IsDigestOfSource settings.now size (S.tells source.old) (S.remaining source.old)) }
    ensures length { IfOk result (λ made. length made.digest ≡ digest_len settings.now) }
    ensures count { Counts (failed_at side_of TheSource result) (S.failures source.old) (S.failures source.new) }
    ensures no_device { failed_at side_of TheDevice result ≡ false }
    ensures bytes { S.tells source.old
        → GivesDigest settings.now size result (S.remaining source.old) (S.remaining source.new) }
{
    digest_file_with_tree(alloc, settings, size, source, &mut Nowhere)
}

/// The digest of the first `size` bytes of a source, as `digest_file` makes it. The hash blocks of the file's tree are
/// written to a device in closing order, each at its place, the top level first at the device's start; an empty file
/// has none (Linux kernel, fs-verity page, "Merkle tree").
///
/// The error is one of those of `digest_file`, or `DeviceFailed` if a hash block can't be written: what its own range
/// then holds is unknown. After a fault the hash blocks that closed before it are on the device.
pub fn digest_file_with_tree<S: Source, D: Device>(
    alloc: Global,
    settings: &TreeSettings,
    size: u64,
    source: &mut S,
    tree: &mut D,
) -> Result<FileDigest, DigestFault>
    requires { settings.now.rule ≡ PaddedBefore }
    ensures source_told { S.tells source.old → S.tells source.new }
    ensures tree_told { D.tells tree.old → D.tells tree.new }
    ensures too_large { (result ≡ Err TooLarge) ↔ IsTrue (is_too_large settings.now size) }
    ensures unread { IfErr result (λ fault.
        ComesBeforeReading fault → (source.new ≡ source.old) × (tree.new ≡ tree.old)) }
    ensures empty { size ≡ 0 → IsOk result × (source.new ≡ source.old) × (tree.new ≡ tree.old) }
    ensures described { IfOk result
        (IsDigestOfSource settings.now size (S.tells source.old) (S.remaining source.old)) }
    ensures length { IfOk result (λ made. length made.digest ≡ digest_len settings.now) }
    ensures source_count { Counts (failed_at side_of TheSource result) (S.failures source.old) (S.failures source.new) }
    ensures tree_count { Counts (failed_at side_of TheDevice result) (D.failures tree.old) (D.failures tree.new) }
    ensures bytes { S.tells source.old
        → GivesDigest settings.now size result (S.remaining source.old) (S.remaining source.new) }
    ensures stands { S.tells source.old → D.tells tree.old → Stands settings.now size (S.remaining source.old) result
        (D.content tree.old) (D.content tree.new) }
{
    let root = if size == 0 {
        Digest::zeros(settings.algorithm())
    } else {
        root_of_source(alloc, settings, size, source, tree)?
    };
    Ok(digest_of_root(settings, size, &root))
}

/// The root hash of the first `size` bytes of a source, whose tree is written to a device.
fn root_of_source<S: Source, D: Device>(
    alloc: Global,
    settings: &TreeSettings,
    size: u64,
    source: &mut S,
    tree: &mut D,
) -> Result<Digest, DigestFault>
    requires { 0 < size }
    ensures source_told { S.tells source.old → S.tells source.new }
    ensures tree_told { D.tells tree.old → D.tells tree.new }
    ensures too_large { (result ≡ Err TooLarge) ↔ IsTrue (is_too_large settings.now size) }
    ensures unread { IfErr result (λ fault.
        ComesBeforeReading fault → (source.new ≡ source.old) × (tree.new ≡ tree.old)) }
    ensures length { IfOk result (λ root. length root ≡ digest_len settings.now) }
    ensures source_count { Counts (failed_at side_of TheSource result) (S.failures source.old) (S.failures source.new) }
    ensures tree_count { Counts (failed_at side_of TheDevice result) (D.failures tree.old) (D.failures tree.new) }
    ensures bytes { S.tells source.old
        → GivesRoot settings.now size result (S.remaining source.old) (S.remaining source.new) }
    ensures stands { S.tells source.old → D.tells tree.old → Stands settings.now size (S.remaining source.old) result
        (D.content tree.old) (D.content tree.new) }
{
    let plan = match Plan::for_bytes(settings, size, 0) {
        Ok(plan) => plan,
        Err(_) => return Err(DigestFault::TooLarge),
    };
    let mut store = match Store::new(alloc, &plan) {
        Ok(store) => store,
        Err(_) => return Err(DigestFault::Memory),
    };
    match build(&plan, &mut store, source, tree) {
        Ok(root) => Ok(root),
        Err(BuildFault::SourceShort(block)) => Err(DigestFault::SourceShort(block)),
        Err(BuildFault::SourceFailed(block)) => Err(DigestFault::SourceFailed(block)),
        Err(BuildFault::DeviceFailed { level, block }) => {
            Err(DigestFault::DeviceFailed { level, block })
        }
    }
}

/// The file digest of a root hash, with its descriptor.
fn digest_of_root(settings: &TreeSettings, size: u64, root: &Digest) -> FileDigest
    requires settings { settings.now.rule ≡ PaddedBefore }
    requires length { length root.now ≡ digest_len settings.now }
    ensures value { IsDigestOfRoot settings.now size root.now result }
    ensures length { length result.digest ≡ digest_len settings.now }
{
    let descriptor = Descriptor::of(settings, size, root).unwrap();
    FileDigest {
        digest: file_digest(&descriptor),
        descriptor: write_descriptor(&descriptor),
    }
}
