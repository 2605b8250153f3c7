ghost use Rattle.std.specs.Prelude.{◌≡◌, IfOk, OnErr, length};
ghost use Rattle.jop_outside.specs.Outside.{HasCause};
ghost use Rattle.jed_sealing.specs.Drawing.{IsMadeOfDrawn, grain_of};

use jop_outside::{Entropy, Failed};

/// The numbers by which a piece is sealed. No two pieces under one key may have the same.
#[derive(Clone, Copy, Debug, PartialEq, Eq)]
pub struct Grain {
    pub iv: [u8; 16],
    pub salt: [u8; 8],
}

/// Draws the numbers of a piece: 16 bytes, and then 8.
pub fn draw_grain<N: Entropy>(entropy: &mut N) -> Result<Grain, Failed>
    ensures drawn { let left = (N.state entropy.old).left in
        IfOk result (λ grain. IsMadeOfDrawn grain_of 24 left grain (N.state entropy.new).left) }
    ensures kept { OnErr result ((N.state entropy.new).left ≡ (N.state entropy.old).left) }
    ensures cause { HasCause (N.state entropy.old).faults result (N.state entropy.new).faults }
{
    let mut bytes = [0u8; 24];
    entropy.fill(&mut bytes)?;
    Ok(grain_of(&bytes))
}

/// The first 16 bytes, and the 8 behind them.
fn grain_of(bytes: &[u8; 24]) -> Grain
    ensures { result ≡ grain_of bytes.now }
{
    let mut iv = [0u8; 16];
    iv.copy_from_slice(&bytes[..16]);
    let mut salt = [0u8; 8];
    salt.copy_from_slice(&bytes[16..]);
    Grain { iv, salt }
}
