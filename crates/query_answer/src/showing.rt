//! How values of a program are shown: in the sense and the scale of the query's goal.
ghost use Rattle.std.specs.Prelude.{◌≡◌, IfOk, option_map, string_bytes, ℤ};
ghost use Rattle.pq_base.specs.Decimal.{decimal_text};
ghost use Rattle.session_proto.specs.Answers.{worth_of};
ghost use Rattle.query_answer.specs.Answers.{own_sense, shown, shown_pair};

use bound_query::BoundGoal;
use pq_base::decimal::print_decimal;
use session_proto::answers::Worth;
use std::alloc::{AllocError, Global};

// The value in the goal's own sense.
fn own_sense(goal: &BoundGoal, value: i64) -> i128
    ensures { result ≡ own_sense goal.now value }
{
    if goal.maximize {
        i128::from(value)
    } else {
        -i128::from(value)
    }
}

fn printed(alloc: Global, goal: &BoundGoal, value: i64) -> Result<String, AllocError>
    ensures { IfOk result (λ text.
        string_bytes text ≡ decimal_text (own_sense goal.now value) goal.now.scale) }
{
    print_decimal(alloc, own_sense(goal, value), goal.scale)
}

/// The value as it is printed, if there is a goal.
pub(crate) fn shown(
    alloc: Global,
    goal: &Option<BoundGoal>,
    value: i64,
) -> Result<Option<String>, AllocError>
    ensures { IfOk result (λ text. option_map string_bytes text ≡ shown goal.now value) }
{
    match goal {
        Some(goal) => Ok(Some(printed(alloc, goal, value)?)),
        None => Ok(None),
    }
}

/// A bound and a value as they are printed, if there is a goal.
pub(crate) fn shown_pair(
    alloc: Global,
    goal: &Option<BoundGoal>,
    bound: i64,
    value: i64,
) -> Result<Option<Worth>, AllocError>
    ensures { IfOk result (λ worth. option_map worth_of worth ≡ shown_pair goal.now bound value) }
{
    match goal {
        Some(goal) => {
            let bound = printed(alloc, goal, bound)?;
            let objective = printed(alloc, goal, value)?;
            Ok(Some(Worth { bound, objective }))
        }
        None => Ok(None),
    }
}
