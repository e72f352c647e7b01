//! The digest of a data block of zeros. Disk images have many of them, so it is computed once.
ghost use Rattle.std.specs.Prelude.{◌≡◌, replicate};
ghost use Rattle.verity_plan.specs.Settings.{hash};

use std::marker::Model;
use verity_hash::Digest;
use verity_plan::TreeSettings;

/// The digest of a data block of zeros, and by which settings, once there was one.
#[derive(Drop)]
pub struct KnownZeros<'a> {
    known: Option<(&'a TreeSettings, Digest)>,
}

impl<'a> Model for KnownZeros<'a> {
    ghost use Rattle.std.specs.Prelude.{◌≡◌, IfSome, replicate, ⊤};
    ghost use Rattle.verity_plan.specs.Settings.{hash};

    // What is known changes no answer.
    ghost Value = { ⊤ };

    ghost view = { λ _. tt };

    ghost invariant = { λ zeros. IfSome zeros.known
        (λ known. known.1 ≡ hash known.0.now (replicate known.0.now.data_block 0)) };
}

impl<'a> KnownZeros<'a> {
    /// Before there was a data block of zeros.
    pub fn none() -> KnownZeros<'a> {
        KnownZeros { known: None }
    }

    /// The digest of `block`, a data block of zeros: the one that is known for these settings, or else computed and kept.
    pub(crate) fn digest(&mut self, settings: &'a TreeSettings, block: &[u8]) -> Digest
        requires { block.now ≡ replicate settings.now.data_block 0 }
        ensures { result ≡ hash settings.now block.now }
    {
        if let Some((known, digest)) = self.known {
            if *known == *settings {
                return digest;
            }
        }
        let digest = settings.hash(block);
        self.known = Some((settings, digest));
        digest
    }
}
