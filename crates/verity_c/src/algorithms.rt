//! Hash functions by their numbers in verity.h: their names, the length of their digests, and the form in which a file
//! digest is signed.
ghost use Rattle.std.specs.Prelude.{◌≡◌, length};
ghost use Rattle.verity_hash.specs.Hashing.{algorithm_named};
ghost use Rattle.verity_c_api.specs.Answers.{value_or};
ghost use Rattle.verity_c_api.specs.Parameters.{algorithm_of};
ghost use Rattle.verity_c_api.specs.Statuses.{status_of};
ghost use Rattle.verity_c_api.specs.Algorithms.{digest_length_in, formatted_in, name_in, name_length_in};
ghost use Rattle.verity_c_api.specs.Algorithms.{number_in_name};

use crate::plans::{algorithm_of, number_of};
use crate::texts::put_text;
use verity_c_api::{DONE, Fault};
use verity_format::formatted_digest;
use verity_hash::{Algorithm, Digest};

/// The length of a hash function's digests, in bytes (FIPS 180-4, figure 1, "Message Digest Size").
///
/// The status is 0, or that of `Algorithm`. Then the length stays as it was.
#[unsafe(no_mangle)]
pub extern "C" fn verity_digest_length(hash_algorithm: u32, length: &mut usize) -> i32
    ensures status { result ≡ status_of (digest_length_in (algorithm_of hash_algorithm)) }
    ensures length { length.new ≡ value_or length.old (digest_length_in (algorithm_of hash_algorithm)) }
{
    match algorithm_of(hash_algorithm) {
        Some(algorithm) => {
            *length = algorithm.digest_len();
            DONE
        }
        None => Fault::Algorithm.status(),
    }
}

/// The name of a hash function, as options and superblocks have it (veritysetup(8), `--hash`; fsverity(1),
/// `--hash-alg`), and a zero after it. The length is that of the name alone, up to 6 bytes.
///
/// The status is 0, or that of the first of `Algorithm`, `Length` (the buffer has no room for name and zero). Then
/// buffer and length stay as they were.
#[unsafe(no_mangle)]
pub extern "C" fn verity_algorithm_name(
    hash_algorithm: u32,
    name: &mut [u8],
    length: &mut usize,
) -> i32
    ensures status { result ≡ status_of (name_in (algorithm_of hash_algorithm) name.old) }
    ensures name { name.new ≡ value_or name.old (name_in (algorithm_of hash_algorithm) name.old) }
    ensures length { length.new ≡ value_or length.old (name_length_in (algorithm_of hash_algorithm) name.old) }
{
    match algorithm_of(hash_algorithm) {
        Some(algorithm) => put_text(algorithm.name(), name, length),
        None => Fault::Algorithm.status(),
    }
}

/// The hash function with exactly this name, in lower case.
///
/// The status is 0, or that of `Algorithm`. Then the number stays as it was.
#[unsafe(no_mangle)]
pub extern "C" fn verity_algorithm_by_name(name: &[u8], hash_algorithm: &mut u32) -> i32
    ensures status { result ≡ status_of (number_in_name (algorithm_named name.now)) }
    ensures number { hash_algorithm.new ≡ value_or hash_algorithm.old (number_in_name (algorithm_named name.now)) }
{
    match Algorithm::from_name(name) {
        Some(algorithm) => {
            *hash_algorithm = number_of(algorithm);
            DONE
        }
        None => Fault::Algorithm.status(),
    }
}

/// The form of a file digest that a built-in signature signs (Linux kernel, fs-verity page, "Built-in signature
/// verification", struct fsverity_formatted_digest): 12 bytes, and the digest. The buffer is as long as that.
///
/// The status is 0, or that of the first of `Algorithm` (fs-verity doesn't have it), `Length` (the digest's), `Length`
/// (the buffer's). Then the buffer stays as it was.
#[unsafe(no_mangle)]
pub extern "C" fn fsverity_formatted_digest(
    hash_algorithm: u32,
    digest: &[u8],
    formatted: &mut [u8],
) -> i32
    ensures status { result
        ≡ status_of (formatted_in (algorithm_of hash_algorithm) digest.now (length formatted.old)) }
    ensures formatted { formatted.new
        ≡ value_or formatted.old (formatted_in (algorithm_of hash_algorithm) digest.now (length formatted.old)) }
{
    let Some(algorithm) = algorithm_of(hash_algorithm) else {
        return Fault::Algorithm.status();
    };
    if algorithm != Algorithm::Sha256 && algorithm != Algorithm::Sha512 {
        return Fault::Algorithm.status();
    }
    let digest_len = algorithm.digest_len();
    if digest.len() != digest_len || formatted.len() != 12 + digest_len {
        return Fault::Length.status();
    }
    let Some(digest) = Digest::from_bytes(digest) else {
        return Fault::Length.status();
    };
    match formatted_digest(algorithm, &digest) {
        Some(bytes) => {
            formatted.copy_from_slice(bytes.as_bytes());
            DONE
        }
        // Functions of fs-verity have numbers, so this is never answered.
        None => Fault::Algorithm.status(),
    }
}
