//! Superblocks, descriptors, formatted digests and whole writes.
use crate::examples::expected_digest;
use fixtures::{
    ALGORITHM_AT, DATA_BLOCK_SIZE_AT, DATA_BLOCKS_AT, Field, HASH_BLOCK_SIZE_AT, HASH_TYPE_AT,
    LimitedWriter, SALT_AT, SALT_SIZE_AT, SIGNATURE_AT, SUPERBLOCK_SIZE, UUID, UUID_AT, VERSION_AT,
    block, descriptor, lay, one_block, same,
};
use sha2::{Digest as Hasher, Sha512};
use std::test::Fail;
use verity_format::{
    Descriptor, PutFault, SuperFault, Superblock, file_digest, formatted_digest, put_all,
    read_superblock, write_descriptor, write_superblock,
};
use verity_hash::{Algorithm, Digest};
use verity_plan::{HashType, TreeSettings};

#[test]
fn a_superblock_is_written_and_read() -> Result<(), Fail> {
    let salt = b"\xab\xcd\xef";
    let tree = TreeSettings::verity(Algorithm::Sha512, HashType::Current, salt, 512, 1024)?;
    let superblock = Superblock::new(&tree, UUID, 0x0001_0203_0405_0607).ok_or("many blocks")?;
    let expected: [u8; SUPERBLOCK_SIZE] = block(&[
        (SIGNATURE_AT, b"verity"),
        (VERSION_AT, &[1]),
        (HASH_TYPE_AT, &[1]),
        (UUID_AT, &UUID),
        (ALGORITHM_AT, b"sha512"),
        (DATA_BLOCK_SIZE_AT, &[0x00, 0x02]),
        (HASH_BLOCK_SIZE_AT, &[0x00, 0x04]),
        (DATA_BLOCKS_AT, &[7, 6, 5, 4, 3, 2, 1]),
        (SALT_SIZE_AT, &[3]),
        (SALT_AT, salt),
    ]);
    let found = (write_superblock(&superblock), read_superblock(&expected));
    same("a superblock", found, (expected, Ok(superblock)))
}

/// What differs from the superblock of one block, and the first fault.
const REFUSED: [(&[Field<'static>], SuperFault); 2] = [
    (
        &[
            (VERSION_AT, &[2]),
            (HASH_TYPE_AT, &[2]),
            (DATA_BLOCK_SIZE_AT, &[0x00, 0x03]),
        ],
        SuperFault::Version(2),
    ),
    (
        &[
            (DATA_BLOCK_SIZE_AT, &[0x00, 0x02]),
            (DATA_BLOCKS_AT, &[0, 0, 0, 0, 0, 0, 0x40, 0]),
        ],
        SuperFault::TooLarge,
    ),
];

#[test]
fn superblocks_are_refused() -> Result<(), Fail> {
    for (changes, fault) in &REFUSED {
        let mut bytes = one_block();
        lay(&mut bytes[..], changes);
        same(
            format_args!("{fault:?}"),
            read_superblock(&bytes),
            Err(*fault),
        )?;
    }
    Ok(())
}

#[test]
fn a_short_superblock_is_refused() -> Result<(), Fail> {
    let bytes = one_block();
    let short = bytes.get(..SUPERBLOCK_SIZE - 1).ok_or("511 bytes")?;
    same("511 bytes", read_superblock(short), Err(SuperFault::Short))
}

/// Descriptors: the hash function, the salt, the size of a block, that of the file, and the first four bytes.
const DESCRIPTORS: [(Algorithm, &[u8], u32, u64, [u8; 4]); 2] = [
    (Algorithm::Sha256, b"", 4096, 524_289, [1, 1, 12, 0]),
    (Algorithm::Sha512, b"\xab\xcd", 128, 384, [1, 2, 7, 2]),
];

/// Compares the bytes of a descriptor, and the file digest, with those expected.
fn compare_descriptor(
    tree: &TreeSettings,
    size: u64,
    root: &[u8],
    expected: (&[u8], &[u8]),
) -> Result<(), Fail> {
    let root = Digest::from_bytes(root).ok_or("a digest")?;
    let descriptor = Descriptor::of(tree, size, &root).ok_or("a descriptor")?;
    let (written, digest) = (write_descriptor(&descriptor), file_digest(&descriptor));
    same(size, (written.as_slice(), digest.as_bytes()), expected)
}

#[test]
fn descriptors_are_written_and_hashed(rt: HostRuntime) -> Result<(), Fail> {
    let alloc = rt.alloc();
    for &(algorithm, salt, block, size, head) in &DESCRIPTORS {
        let tree = TreeSettings::fsverity(algorithm, salt, block)?;
        let root = expected_digest(alloc, algorithm, (b"", b"root", b""))?;
        let expected = descriptor(alloc, &head, size, root.as_slice(), salt)?;
        let digest = expected_digest(alloc, algorithm, (b"", expected.as_slice(), b""))?;
        let expected = (expected.as_slice(), digest.as_slice());
        compare_descriptor(&tree, size, root.as_slice(), expected)?;
    }
    Ok(())
}

#[test]
fn a_digest_is_formatted() -> Result<(), Fail> {
    let bytes = Sha512::digest(b"abc".as_slice());
    let digest = Digest::from_bytes(&bytes).ok_or("64 bytes")?;
    let formatted = formatted_digest(Algorithm::Sha512, &digest).ok_or("formatted")?;
    let expected: [u8; 76] = block(&[(0, b"FSVerity\x02\0\x40"), (12, &bytes)]);
    same("a digest", formatted.as_bytes(), expected.as_slice())
}

#[test]
fn texts_are_put_one_after_another(rt: HostRuntime) -> Result<(), Fail> {
    let mut out = Vec::new(rt.alloc());
    let results = [
        put_all(&mut out, b"root "),
        put_all(&mut out, b""),
        put_all(&mut out, b"hash"),
    ];
    let found = (results, out.as_slice());
    same("texts", found, ([Ok(()); 3], b"root hash".as_slice()))
}

#[test]
fn a_text_is_put_as_far_as_there_is_room(rt: HostRuntime) -> Result<(), Fail> {
    for &(room, result) in &[(8, Ok(())), (7, Err(PutFault(7))), (0, Err(PutFault(0)))] {
        let mut limited = LimitedWriter::new(Vec::new(rt.alloc()), room, 3);
        let found = put_all(&mut limited, b"8 bytes.");
        let found = (found, Some(limited.bytes.as_slice()));
        same(room, found, (result, b"8 bytes.".get(..room)))?;
    }
    Ok(())
}

/// A slice takes nothing once it is full.
#[test]
fn a_slice_is_filled() -> Result<(), Fail> {
    let mut place = [0; 5];
    let result = put_all(&mut place.as_mut_slice(), b"8 bytes.");
    same("a slice", (result, place), (Err(PutFault(5)), *b"8 byt"))
}
