//! What the definitions come to. Each law is a function with nothing to do, whose contract says it.

ghost use Rattle.std.specs.Prelude.{◌≡◌, ◌<◌, ℕ, List};
ghost use Rattle.aes_ccm.specs.Field.{product, inverse};
ghost use Rattle.aes_ccm.specs.Ccm.{ciphered};

/// Every byte but 0 times its inverse is 1.
pub fn inverts_every_byte()
    ensures { (b : ℕ) → 0 < b → b < 256 → product b (inverse b) ≡ 1 }
{}

/// What is sealed and then opened under the same key and nonce is what it was.
pub fn opens_what_is_sealed()
    ensures { (key nonce text : List ℕ) → ciphered key nonce (ciphered key nonce text) ≡ text }
{}
