ghost use Rattle.std.specs.Prelude.{◌≡◌, Bool, IfSome, IfNone};
ghost use Rattle.keeper_columns.specs.Columns.{flag};

/// A flag as a number: 1 if it is set, and else 0.
pub(crate) fn flag(set: bool) -> i64
    ensures { result ≡ flag set }
{
    if set { 1 } else { 0 }
}

/// The flag that a number stands for. None if it is neither 0 nor 1.
pub(crate) fn read_flag(number: i64) -> Option<bool>
    ensures some { IfSome result (λ set. number ≡ flag set) }
    ensures none { IfNone result ((set : Bool) → ¬ (number ≡ flag set)) }
{
    match number {
        0 => Some(false),
        1 => Some(true),
        _ => None,
    }
}
