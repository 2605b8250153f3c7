ghost use Rattle.std.specs.Prelude.{◌≡◌};
ghost use Rattle.item_text.specs.Grammar.{pair_of};

use crate::trim::trimmed;

/// The key and the value of a property line.
#[tactic(auto, unfolding(crate::specs::Grammar::pair_of))]
pub(crate) fn pair_in(line: &str) -> (&str, &str)
    ensures key { result.0.now ≡ (pair_of line.now).key }
    ensures value { result.1.now ≡ (pair_of line.now).value }
{
    match line.split_once(':') {
        None => (trimmed(line), ""),
        Some((key, value)) => (trimmed(key), trimmed(value)),
    }
}
