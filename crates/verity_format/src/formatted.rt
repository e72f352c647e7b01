//! The form in which a file digest is signed.
ghost use Rattle.std.specs.Prelude.{◌≡◌, ◌<◌, ◌≤◌, length, SomeIff};
ghost use Rattle.verity_hash.specs.Hashing.{digest_len_of};
ghost use Rattle.verity_format.specs.Descriptors.{algorithm_number, formatted_digest};

use crate::descriptor::algorithm_number;
use crate::field_writer::FieldWriter;
use std::marker::Model;
use verity_hash::{Algorithm, Digest, ShortBytes};

/// A file digest in the form that built-in signatures sign (Linux kernel, fs-verity page, struct
/// fsverity_formatted_digest). Contracts see its bytes, 44 or 76.
#[derive(Clone, Copy, Debug, PartialEq, Eq)]
pub struct Formatted {
    bytes: ShortBytes<76>,
}

impl Model for Formatted {
    ghost use Rattle.std.specs.Prelude.{ℕ, List};

    ghost Value = { List ℕ };

    ghost view = { λ digest. digest.bytes };

    ghost inverse = { λ bytes. record { bytes = bytes } };
}

impl Formatted {
    /// The bytes.
    pub fn as_bytes(&self) -> &[u8]
        ensures { result.now ≡ self.now }
    {
        self.bytes.as_bytes()
    }
}

/// The formatted digest, or `None` if fs-verity has no number for the algorithm or the digest is not as long as the
/// algorithm's digests.
pub fn formatted_digest(algorithm: Algorithm, digest: &Digest) -> Option<Formatted>
    ensures { SomeIff result ((0 < algorithm_number algorithm) × (length digest.now ≡ digest_len_of algorithm))
        (formatted_digest algorithm digest.now) }
{
    let digest = digest.as_bytes();
    let number = algorithm_number(algorithm);
    if number == 0 || digest.len() != algorithm.digest_len() {
        return None;
    }
    let mut fields = FieldWriter::<76>::new();
    fields.append(b"FSVerity");
    fields.append_u16(u16::from(number));
    fields.append_u16(digest.len() as u16);
    fields.append(digest);
    Some(Formatted {
        bytes: ShortBytes::from_bytes(fields.as_bytes()).unwrap(),
    })
}
