ghost use Rattle.std.specs.Prelude.{All, IfOk, IfSome, List, None, Option};
ghost use Rattle.sqlite_value.specs.declared.value.Value.{Value};
ghost use Rattle.keeper_sqlite.specs.Answers.{AreTaken, GivesNext};

use crate::columns::FromColumns;
use jop_base::Seq;
use keeper_file::Trouble;
use sqlite::{Alter, Rows};
use std::alloc::Global;

/// An answer that is read one row at a time.
pub(crate) trait Answer {
    /// The rows that are left of it, if it tells.
    ghost left: { Self → Option (List (List Value)) };

    /// What the next row stands for. None if no row is left.
    fn take_next<T: FromColumns>(&mut self, alloc: Global) -> Result<Option<T>, Trouble>
        ensures gives { IfOk result
            (λ value. GivesNext T.stands (left self.old) value (left self.new)) }
        ensures sound { IfOk result (λ value. IfSome value T.is_sound) };
}

fn advance<S: Alter>(rows: &mut Rows<'_, S>) -> Result<(), Trouble> {
    rows.advance()?;
    Ok(())
}

impl<S: Alter> Answer for Rows<'_, S> {
    ghost left = { λ _. None };

    fn take_next<T: FromColumns>(&mut self, alloc: Global) -> Result<Option<T>, Trouble> {
        advance(self)?;
        match self.get() {
            Some(row) => Ok(Some(T::from_columns(alloc, row)?)),
            None => Ok(None),
        }
    }
}

/// What all rows stand for that are left of an answer.
#[tactic(auto, using(crate::proofs::Standing::one_more, crate::proofs::Standing::no_more, crate::proofs::Found::sound_more))]
pub(crate) fn take_all<T: FromColumns, A: Answer>(
    alloc: Global,
    answer: &mut A,
) -> Result<Seq<T>, Trouble>
    ensures taken { IfOk result (λ values. AreTaken T.stands (A.left answer.old) values) }
    ensures sound { IfOk result (λ values. All T.is_sound values) }
{
    let mut values = Seq::new(alloc);
    'each: for _ in 0..u64::MAX {
        match answer.take_next::<T>(alloc)? {
            Some(value) => values.push(value)?,
            None => return Ok(values),
        }
    }
    Err(Trouble::Fault)
}
