ghost use Rattle.std.specs.Prelude.{◌≡◌, ◌≤◌, ◌-◌, ◌++◌, length, take, drop, replicate};
ghost use Rattle.aes_ccm.specs.Lists.{xored};

/// Adds the bytes of the other list to those from the place on, as many as both have.
pub(crate) fn xor_from(text: &mut [u8], place: usize, other: &[u8])
    requires { place ≤ length text.old }
    ensures { text.new ≡ take place text.old ++ xored (drop place text.old) other.now }
{
    let count = other.len().min(text.len() - place);
    for n in 0..count {
        text[place + n] ^= other[n];
    }
}

/// The bytes, and zeros behind them.
pub(crate) fn filled<const N: usize>(bytes: &[u8]) -> [u8; N]
    requires { length bytes.now ≤ N }
    ensures { result ≡ bytes.now ++ replicate (N - length bytes.now) 0 }
{
    let mut block = [0; N];
    xor_from(&mut block, 0, bytes);
    block
}
