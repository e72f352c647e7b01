//! Laws of superblocks and descriptors, on the bytes that are written and on what bytes say, for authors of other tools
//! for the formats.
ghost use Rattle.std.specs.Prelude.{◌≡◌, ◌↔◌, ℕ, List, None, Ok};
ghost use Rattle.verity_format.specs.Descriptors.{DescriptorFields, IsValidDescriptor, descriptor_bytes};
ghost use Rattle.verity_format.specs.Pads.{AgreeOutsidePads};
ghost use Rattle.verity_format.specs.Superblocks.{SuperblockFields, IsValidSuperblock, IsSuperblock, superblock_bytes};
ghost use Rattle.verity_format.specs.CheckedSuperblocks.{superblock_fault};

use crate::{SuperFault, Superblock, read_superblock, write_superblock};

/// The bytes of a superblock say that superblock.
pub fn text_says_its_superblock()
    ensures { (v : SuperblockFields) → IsValidSuperblock v → IsSuperblock (superblock_bytes v) v }
{}

/// Bytes say at most one superblock.
pub fn bytes_say_one_superblock()
    ensures { (s : List ℕ) (v w : SuperblockFields) → IsSuperblock s v → IsSuperblock s w → v ≡ w }
{}

/// Bytes say a superblock exactly if they pass every test.
pub fn bytes_say_a_superblock_or_fail_a_test()
    ensures { (s : List ℕ) → ((v : SuperblockFields) × IsSuperblock s v) ↔ (superblock_fault s ≡ None) }
{}

/// A pad may hold anything: superblocks that are the same outside the pads and the unused bytes of name and salt say
/// the same, or fail the same test first.
pub fn pads_may_hold_anything()
    ensures said { (s t : List ℕ) (v : SuperblockFields) → AgreeOutsidePads s t
        → IsSuperblock s v ↔ IsSuperblock t v }
    ensures fault { (s t : List ℕ) → AgreeOutsidePads s t → superblock_fault s ≡ superblock_fault t }
{}

/// The bytes of a descriptor say one descriptor.
pub fn descriptor_bytes_say_one_descriptor()
    ensures { (v w : DescriptorFields) → IsValidDescriptor v → IsValidDescriptor w
        → descriptor_bytes v ≡ descriptor_bytes w → v ≡ w }
{}

/// Reading the bytes that are written for a superblock gives that superblock back.
pub fn through_bytes(superblock: &Superblock) -> Result<Superblock, SuperFault>
    ensures { result ≡ Ok superblock.now }
{
    // Called for the proof: its contract says that the superblock is valid.
    let _tree = superblock.tree();
    text_says_its_superblock();
    bytes_say_one_superblock();
    bytes_say_a_superblock_or_fail_a_test();
    let bytes = write_superblock(superblock);
    read_superblock(&bytes)
}
