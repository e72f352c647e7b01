//! Salts in the texts of options.
ghost use Rattle.std.specs.Prelude.{◌≡◌};
ghost use Rattle.command_line.specs.Options.{salt_of};

use verity_hash::ShortBytes;

/// The bytes that an even number of hexadecimal digits of either case stands for, none for the empty text
/// (veritysetup(8), `--salt`; fsverity(1), `--salt`). `None` if the text is anything else, or if there are more than
/// `N` bytes.
pub fn read_salt<const N: usize>(text: &str) -> Option<ShortBytes<N>>
    ensures { result ≡ salt_of N text.now }
{
    let digits = text.as_bytes();
    let len = digits.len() / 2;
    if len > N {
        return None;
    }
    let mut bytes = [0; N];
    match hex::decode_to_slice(digits, &mut bytes[..len]) {
        Ok(()) => ShortBytes::from_bytes(&bytes[..len]),
        Err(_) => None,
    }
}
