ghost use Rattle.std.specs.Prelude.{◌≡◌, ◌≤◌, ◌+◌, ◌-◌, length, map};
ghost use Rattle.item_text.specs.Lines.{lines};
ghost use Rattle.item_text.specs.Valid.{is_type_value};
ghost use Rattle.item_text.specs.Grammar.{pair_of, type_fault};
ghost use Rattle.item_text.specs.Steps.{lines_of, IsFromType};

use crate::bad_item::{BadItem, BadWhy};
use crate::line::{first_line, line_count};
use crate::pair::pair_in;
use jop_base::are_decimal_digits;

/// Whether the value is one to three decimal digits.
#[tactic(auto, unfolding(crate::specs::Valid::is_type_value))]
pub(crate) fn is_type_value(value: &[u8]) -> bool
    ensures { result ≡ is_type_value value.now }
{
    matches!(value.len(), 1..=3) && are_decimal_digits(value)
}

/// The property lines from the topmost `type_` on. None if there is none.
fn from_type(block: Option<&str>) -> Option<&str>
    ensures { IsFromType (lines_of block.entry) result }
{
    let mut rest = block;
    while let Some(part) = rest {
        let (line, below) = first_line(part);
        if pair_in(line).0 == "type_" {
            return rest;
        }
        rest = below;
    }
    None
}

/// What is wrong with the topmost `type_` of the property lines that stand last in this text. The lines are counted
/// only if something is.
pub(crate) fn type_refusal(text: &str, block: Option<&str>) -> Option<BadItem>
    requires { length (lines_of block) ≤ length (lines text.now) }
    ensures { result
        ≡ type_fault (length (lines text.now) - length (lines_of block.entry) + 1)
        (map pair_of (lines_of block.entry)) }
{
    let Some(rest) = from_type(block) else {
        return Some(BadItem {
            line: 0,
            why: BadWhy::NoType,
        });
    };
    if is_type_value(pair_in(first_line(rest).0).1.as_bytes()) {
        return None;
    }
    Some(BadItem {
        line: line_count(text) - line_count(rest) + 1,
        why: BadWhy::TypeValue,
    })
}
