ghost use Rattle.std.specs.Prelude.{◌≡◌};
ghost use Rattle.hex.specs.Hex.{encode_lower};
ghost use Rattle.jop_outside.specs.Outside.{HasCause};
ghost use Rattle.client.specs.Drawing.{Draws};

use hex::encode_to_slice;
use jop_base::Id;
use jop_outside::{Entropy, Failed};

/// An id of 16 random bytes, in hexadecimal digits.
pub fn draw_id<N: Entropy>(entropy: &mut N) -> Result<Id, Failed>
    ensures draws { Draws (N.state entropy.old).left result (N.state entropy.new).left }
    ensures cause { HasCause (N.state entropy.old).faults result (N.state entropy.new).faults }
{
    let mut bytes = [0u8; 16];
    entropy.fill(&mut bytes)?;
    Ok(id_of(&bytes))
}

#[tactic(auto, using(crate::proofs::Digits::id_text))]
fn id_of(bytes: &[u8; 16]) -> Id
    ensures { result ≡ encode_lower bytes.now }
{
    let mut digits = [0u8; 32];
    let _ = encode_to_slice(bytes, &mut digits);
    match Id::read(&digits) {
        Some(id) => id,
        None => unreachable!(),
    }
}
