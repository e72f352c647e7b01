//! UUIDs as the options give them, and made of random bytes.
ghost use Rattle.std.specs.Prelude.{◌≡◌, length, option_map};
ghost use Rattle.uuid.specs.Text.{parsed};
ghost use Rattle.veritysetup.specs.Options.OptionTexts.{superblock_uuid, uuid_or_random};
ghost use Rattle.veritysetup.specs.Options.Uuids.{random_uuid};

use uuid::Uuid;

/// The UUID of a text; without a text that of the last 16 random bytes, or all zeros if there are none.
pub fn uuid_or_random(text: Option<&str>, random: Option<&[u8; 48]>) -> Option<Uuid>
    ensures { result ≡ uuid_or_random (option_map (λ t. t.now) text.entry) (option_map (λ b. b.now) random.entry) }
{
    match (text, random) {
        (Some(text), _) => read_uuid(text),
        (None, Some(random)) => Some(random_uuid(&random[32..])),
        (None, None) => Some(Uuid::nil()),
    }
}

/// The UUID of a hash area with a superblock; all zeros without one.
pub fn superblock_uuid(superblock: bool, uuid: Uuid) -> Uuid
    ensures { result ≡ superblock_uuid superblock uuid }
{
    if superblock { uuid } else { Uuid::nil() }
}

/// The UUID of a text in one of the four forms that `uuid` parses, or `None`.
fn read_uuid(text: &str) -> Option<Uuid>
    ensures { result ≡ parsed text.now }
{
    Uuid::parse_str(text).ok()
}

/// The UUID of version 4 that these 16 random bytes give (RFC 9562, section 5.4).
fn random_uuid(random: &[u8]) -> Uuid
    requires { length random.now ≡ 16 }
    ensures { result ≡ random_uuid random.now }
{
    let mut bytes = [0; 16];
    bytes.copy_from_slice(random);
    bytes[6] = (bytes[6] & 0x0f) | 0x40;
    bytes[8] = (bytes[8] & 0x3f) | 0x80;
    Uuid::from_bytes(bytes)
}
