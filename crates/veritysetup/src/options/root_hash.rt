//! Root hashes as the command line writes them.
ghost use Rattle.std.specs.Prelude.{◌≡◌, option_map};
ghost use Rattle.veritysetup.specs.Options.OptionTexts.{root_if_given};
ghost use Rattle.veritysetup.specs.Options.Settings.{read_root};

use verity_hash::{Algorithm, Digest};

/// The digest of exactly as many hexadecimal digits of either case as the algorithm's digests have, or `None`.
pub fn read_root(algorithm: Algorithm, text: &str) -> Option<Digest>
    ensures { result ≡ read_root algorithm text.now }
{
    let mut bytes = [0; 64];
    let digest = &mut bytes[..algorithm.digest_len()];
    match hex::decode_to_slice(text.as_bytes(), digest) {
        Ok(()) => Digest::from_bytes(digest),
        Err(_) => None,
    }
}

/// The root hash of a text that may be missing, or `None` if the text is no digest of the algorithm.
pub fn root_if_given(algorithm: Algorithm, text: Option<&str>) -> Option<Option<Digest>>
    ensures { result ≡ root_if_given algorithm (option_map (λ t. t.now) text.entry) }
{
    match text {
        Some(text) => match read_root(algorithm, text) {
            Some(root) => Some(Some(root)),
            None => None,
        },
        None => Some(None),
    }
}
