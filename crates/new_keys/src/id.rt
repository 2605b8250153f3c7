ghost use Rattle.std.specs.Prelude.{◌≡◌, length};
ghost use Rattle.hex.specs.Hex.{encode_lower};

use hex::encode_to_slice;
use jop_base::Id;

/// The id of 16 bytes, in hexadecimal digits.
#[tactic(auto, using(client::proofs::Digits::id_text))]
pub(crate) fn id_of(bytes: &[u8]) -> Id
    requires { length bytes.now ≡ 16 }
    ensures { result ≡ encode_lower bytes.now }
{
    let mut digits = [0u8; 32];
    let _ = encode_to_slice(bytes, &mut digits);
    match Id::read(&digits) {
        Some(id) => id,
        None => unreachable!(),
    }
}
