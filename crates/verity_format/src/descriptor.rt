//! The fs-verity descriptor and the file digest.
ghost use Rattle.std.specs.Prelude.{◌≡◌, ◌≤◌, ◌<◌, SomeIff};
ghost use Rattle.verity_format.specs.Descriptors.{IsDescribed, IsValidDescriptor, algorithm_number, descriptor_bytes};
ghost use Rattle.verity_format.specs.Descriptors.{digest_of_file};
ghost use Rattle.verity_plan.specs.Settings.{log2};

use crate::field_writer::FieldWriter;
use std::marker::Model;
use verity_hash::{Algorithm, Digest, SaltRule, salted};
use verity_plan::TreeSettings;

/// What fs-verity records of a file, version 1: how its tree was made, its size and its root hash (Linux kernel,
/// fs-verity page, "fs-verity descriptor"). Valid by its type.
#[derive(Clone, Copy, Debug, PartialEq, Eq)]
pub struct Descriptor {
    tree: TreeSettings,
    size: u64,
    root: Digest,
}

impl Model for Descriptor {
    ghost use Rattle.verity_format.specs.Descriptors.{DescriptorFields, IsValidDescriptor};

    ghost Value = { DescriptorFields };

    ghost view = { λ d. record { tree = d.tree; size = d.size; root = d.root } };

    ghost invariant = { λ d. IsValidDescriptor (record { tree = d.tree; size = d.size; root = d.root }) };

    ghost inverse = { λ v. record { tree = v.tree; size = v.size; root = v.root } };
}

impl Descriptor {
    /// The descriptor of a file of `size` bytes with this root hash. `None` if the settings are not fs-verity's or the
    /// root hash is not as long as the algorithm's digests.
    pub fn of(tree: &TreeSettings, size: u64, root: &Digest) -> Option<Descriptor>
        ensures { SomeIff result (IsDescribed tree.now root.now)
            (record { tree = tree.now; size = size; root = root.now }) }
    {
        // Called for the proof: its contract says that the settings are valid.
        let _valid = tree.data_block();
        match tree.rule() {
            SaltRule::PaddedBefore if root.as_bytes().len() == tree.algorithm().digest_len() => {
                Some(Descriptor {
                    tree: *tree,
                    size,
                    root: *root,
                })
            }
            _ => None,
        }
    }

    /// The hash function of the tree and of the file digest.
    pub fn algorithm(&self) -> Algorithm
        ensures { result ≡ self.now.tree.algorithm }
    {
        self.tree.algorithm()
    }
}

/// The number of an algorithm (Linux kernel, `FS_VERITY_HASH_ALG_*`), 0 if it has none.
pub(crate) fn algorithm_number(algorithm: Algorithm) -> u8
    ensures { result ≡ algorithm_number algorithm }
{
    match algorithm {
        Algorithm::Sha256 => 1,
        Algorithm::Sha512 => 2,
        Algorithm::Sha1 | Algorithm::Sha224 | Algorithm::Sha384 => 0,
    }
}

/// The binary logarithm of a block size.
fn log2(size: u32) -> u8
    requires { 0 < size }
    ensures { result ≡ log2 size }
{
    size.ilog2() as u8
}

/// The 256 bytes of a descriptor (Linux kernel, fs-verity page, struct fsverity_descriptor): numbers are little-endian,
/// the salt stands as it was given, and what no field covers is zero.
pub fn write_descriptor(descriptor: &Descriptor) -> [u8; 256]
    ensures { result ≡ descriptor_bytes descriptor.now }
{
    let tree = &descriptor.tree;
    let salt = tree.salt();
    let mut fields = FieldWriter::new();
    fields.append(&[
        1,
        algorithm_number(tree.algorithm()),
        log2(tree.data_block()),
        salt.len() as u8,
    ]);
    fields.append_zeros(4);
    fields.append_u64(descriptor.size);
    fields.append_with_zeros(64, descriptor.root.as_bytes());
    fields.append(salt);
    fields.finish()
}

/// The digest of a file: the hash of its descriptor's bytes, without a salt (Linux kernel, fs-verity page, "File digest
/// computation").
pub fn file_digest(descriptor: &Descriptor) -> Digest
    ensures { result ≡ digest_of_file descriptor.now }
{
    let bytes = write_descriptor(descriptor);
    salted(descriptor.algorithm(), SaltRule::Before, &[], &bytes)
}
