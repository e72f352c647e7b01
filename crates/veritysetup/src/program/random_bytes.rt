//! Random bytes for what is not given.
ghost use Rattle.std.specs.Prelude.{◌≡◌, IfOk};
ghost use Rattle.veritysetup.specs.Program.RandomBytes.{IsDrawnFrom, random_bytes};

use rand::rngs::StdRng;
use rand::{Rng, SeedableRng};
use std::io;
use std::random::RandomSource;

/// Random bytes of a generator that the runtime seeds with 32 bytes.
pub(crate) fn draw_seeded<R: RandomSource>(rt: &R) -> io::Result<[u8; 48]>
    ensures { IfOk result (IsDrawnFrom (λ seed. ⟦<StdRng as Rng>⟧.stream (⟦<StdRng as SeedableRng>⟧.of_seed seed))) }
{
    let mut rng: StdRng = rand::make_rng(rt)?;
    Ok(draw(&mut rng))
}

/// The first six `u64` numbers of the generator's stream, each little-endian: 32 bytes for a salt that is not given,
/// and 16 for a UUID.
pub fn draw<R: Rng>(rng: &mut R) -> [u8; 48]
    ensures { (result, R.stream rng.new) ≡ random_bytes (R.stream rng.old) }
{
    let mut bytes = [0; 48];
    for k in 0..6 {
        bytes[8 * k..8 * k + 8].copy_from_slice(&rng.next_u64().to_le_bytes());
    }
    bytes
}
