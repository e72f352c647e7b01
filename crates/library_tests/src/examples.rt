//! What the tests of hashing share: the hash functions, lengths of salts, digests by `sha1` and `sha2`, and published
//! examples.
use fixtures::Shape;
use std::alloc::{AllocError, Global};
use verity_hash::Algorithm;

pub const FUNCTIONS: [Algorithm; 5] = [
    Algorithm::Sha1,
    Algorithm::Sha224,
    Algorithm::Sha256,
    Algorithm::Sha384,
    Algorithm::Sha512,
];

/// Lengths of what is hashed before and after a block.
pub const SALTS: [usize; 6] = [0, 1, 32, 64, 255, 256];

/// A message in three pieces.
pub type Message<'a> = (&'a [u8], &'a [u8], &'a [u8]);

/// The digest of a message by `sha1` or `sha2`.
pub fn expected_digest(
    alloc: Global,
    function: Algorithm,
    (first, second, third): Message<'_>,
) -> Result<Vec<u8>, AllocError> {
    let mut shape = Shape::new(alloc, function, (0, 0), (0, 0));
    shape.before.extend_from_slice(first)?;
    shape.after.extend_from_slice(third)?;
    shape.digest(alloc, second)
}

/// A function, a message and its digest: the examples of one and of two blocks on NIST's page on FIPS 180-4, and the
/// empty message.
pub struct Example {
    pub function: Algorithm,
    pub message: &'static [u8],
    pub digits: &'static str,
}

pub const EXAMPLES: [Example; 15] = [
    Example {
        function: Algorithm::Sha1,
        message: b"",
        digits: "da39a3ee5e6b4b0d3255bfef95601890afd80709",
    },
    Example {
        function: Algorithm::Sha1,
        message: b"abc",
        digits: "a9993e364706816aba3e25717850c26c9cd0d89d",
    },
    Example {
        function: Algorithm::Sha1,
        message: b"abcdbcdecdefdefgefghfghighijhijkijkljklmklmnlmnomnopnopq",
        digits: "84983e441c3bd26ebaae4aa1f95129e5e54670f1",
    },
    Example {
        function: Algorithm::Sha224,
        message: b"",
        digits: "d14a028c2a3a2bc9476102bb288234c415a2b01f828ea62ac5b3e42f",
    },
    Example {
        function: Algorithm::Sha224,
        message: b"abc",
        digits: "23097d223405d8228642a477bda255b32aadbce4bda0b3f7e36c9da7",
    },
    Example {
        function: Algorithm::Sha224,
        message: b"abcdbcdecdefdefgefghfghighijhijkijkljklmklmnlmnomnopnopq",
        digits: "75388b16512776cc5dba5da1fd890150b0c6455cb4f58b1952522525",
    },
    Example {
        function: Algorithm::Sha256,
        message: b"",
        digits: "e3b0c44298fc1c149afbf4c8996fb92427ae41e4649b934ca495991b7852b855",
    },
    Example {
        function: Algorithm::Sha256,
        message: b"abc",
        digits: "ba7816bf8f01cfea414140de5dae2223b00361a396177a9cb410ff61f20015ad",
    },
    Example {
        function: Algorithm::Sha256,
        message: b"abcdbcdecdefdefgefghfghighijhijkijkljklmklmnlmnomnopnopq",
        digits: "248d6a61d20638b8e5c026930c3e6039a33ce45964ff2167f6ecedd419db06c1",
    },
    Example {
        function: Algorithm::Sha384,
        message: b"",
        digits: "38b060a751ac96384cd9327eb1b1e36a21fdb71114be07434c0cc7bf63f6e1da274edebfe76f65fbd51ad2f14898b95b",
    },
    Example {
        function: Algorithm::Sha384,
        message: b"abc",
        digits: "cb00753f45a35e8bb5a03d699ac65007272c32ab0eded1631a8b605a43ff5bed8086072ba1e7cc2358baeca134c825a7",
    },
    Example {
        function: Algorithm::Sha384,
        message: b"abcdefghbcdefghicdefghijdefghijkefghijklfghijklmghijklmnhijklmnoijklmnopjklmnopqklmnopqrlmnopqrsmnopqrstnopqrstu",
        digits: "09330c33f71147e83d192fc782cd1b4753111b173b3b05d22fa08086e3b0f712fcc7c71a557e2db966c3e9fa91746039",
    },
    Example {
        function: Algorithm::Sha512,
        message: b"",
        digits: "cf83e1357eefb8bdf1542850d66d8007d620e4050b5715dc83f4a921d36ce9ce47d0d13c5d85f2b0ff8318d2877eec2f63b931bd47417a81a538327af927da3e",
    },
    Example {
        function: Algorithm::Sha512,
        message: b"abc",
        digits: "ddaf35a193617abacc417349ae20413112e6fa4e89a97ea20a9eeee64b55d39a2192992a274fc1a836ba3c23a3feebbd454d4423643ce80e2a9ac94fa54ca49f",
    },
    Example {
        function: Algorithm::Sha512,
        message: b"abcdefghbcdefghicdefghijdefghijkefghijklfghijklmghijklmnhijklmnoijklmnopjklmnopqklmnopqrlmnopqrsmnopqrstnopqrstu",
        digits: "8e959b75dae313da8cf4f72814fc143f8f7779c6eb9f7fa17299aeadb6889018501d289e4900f7e4331b99dec4b5433ac7d329eeb6dd26545e96e55b874be909",
    },
];
