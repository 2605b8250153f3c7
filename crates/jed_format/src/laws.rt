//! What sealing and opening are to each other. Each law is a function with nothing to do, whose contract says it.

ghost use Rattle.std.specs.Prelude.{◌≡◌, ◌↔◌, ℕ, List, Ok, flat_map};
ghost use Rattle.jed_format.specs.Grammar.{IsJedText};
ghost use Rattle.jed_format.specs.Jed.{jed_in};
ghost use Rattle.jed_format.specs.Opening.{opened_text, blob_in};
ghost use Rattle.jed_format.specs.Sealed.{IsSealedText, IsSealedBlob};
ghost use Rattle.jed_format.specs.declared.jed.Jed.{Jed};

/// A text that was sealed under a password, in pieces of 5,000 units, opens under it.
pub fn opens_a_sealed_text()
    ensures { (password text : List ℕ) (jed : Jed) → IsSealedText password text jed
        → opened_text password jed ≡ Ok text }
{}

/// A blob whose parts were sealed under a password opens under it to the parts, joined.
pub fn opens_a_sealed_blob()
    ensures { (password : List ℕ) (parts : List (List ℕ)) (jed : Jed) → IsSealedBlob password parts jed
        → blob_in password jed ≡ Ok (flat_map (λ part. part) parts) }
{}

/// What is read of a text is what the grammar says of it, and no other text is read.
pub fn reads_the_grammar()
    ensures { (text : List ℕ) (jed : Jed) → (jed_in text ≡ Ok jed) ↔ IsJedText text jed }
{}
