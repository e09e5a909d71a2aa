//! How many bytes a caller needs room for.

ghost use Rattle.std.specs.Prelude.{ℤ, ◌≡◌, ◌<◌, ◌^◌, IfOk};
ghost use Rattle.query_rounds.specs.Plan.{need};
ghost use Rattle.client_calls.specs.Asking.{answer_size, query_size};
ghost use Rattle.libpir.specs.Sizes.{TellsSize, size_number};

use crate::code::Code;
use client_calls::{PlanNumbers, Refusal};

/// A size, or the code of why there is none, as one number.
fn size_number(size: Result<usize, Refusal>) -> i64
    requires { IfOk size (λ n. n < 2 ^ 40) }
    ensures { result ≡ size_number size }
{
    match size {
        Ok(size) => size as i64,
        Err(refusal) => i64::from(Code::of_refusal(refusal).number()),
    }
}

/// How many coins the queries for so many blocks take, or a negative code.
#[unsafe(no_mangle)]
pub extern "C" fn pir_coins(plan: &PlanNumbers, blocks: usize) -> i64
    ensures { TellsSize need plan.now blocks result }
{
    size_number(client_calls::coins_size(plan, blocks))
}

/// How many bytes the frame has that each server is sent, or a negative code.
#[unsafe(no_mangle)]
pub extern "C" fn pir_query_size(plan: &PlanNumbers, blocks: usize) -> i64
    ensures { TellsSize query_size plan.now blocks result }
{
    size_number(client_calls::query_size(plan, blocks))
}

/// How many bytes a whole answer has, or a negative code.
#[unsafe(no_mangle)]
pub extern "C" fn pir_answer_size(plan: &PlanNumbers, blocks: usize) -> i64
    ensures { TellsSize answer_size plan.now blocks result }
{
    size_number(client_calls::answer_size(plan, blocks))
}
