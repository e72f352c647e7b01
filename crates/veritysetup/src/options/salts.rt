//! Salts as the options give them, and made of random bytes.
ghost use Rattle.std.specs.Prelude.{◌≡◌, option_map};
ghost use Rattle.veritysetup.specs.Options.OptionTexts.{salt_or_random};

use command_line::read_salt;
use verity_hash::ShortBytes;
use verity_plan::MOST_SALT;

/// The salt of a text, in which `-` means no salt; without a text the first 32 random bytes, if there are any.
pub fn salt_or_random(
    text: Option<&str>,
    random: Option<&[u8; 48]>,
) -> Option<ShortBytes<MOST_SALT>>
    ensures { result ≡ salt_or_random (option_map (λ t. t.now) text.entry) (option_map (λ b. b.now) random.entry) }
{
    match text {
        Some("-") => Some(ShortBytes::zeros(0)),
        Some(text) => read_salt(text),
        None => ShortBytes::from_bytes(&random?[..32]),
    }
}
