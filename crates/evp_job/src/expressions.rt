//! Expressions of a job document.

ghost use Rattle.evp_eval.specs.Meaning.{bound};
ghost use Rattle.evp_job.specs.Expressions.{Reading, tree_at, bound_at, expression_in};
ghost use Rattle.evp_job.specs.Steps.{Gives};

use crate::JobFault;
use evp_eval::{BindFault, Bound, bind};
use evp_expr::{Expr, ExprFault, one_fault, one_tree, parse, tree_or_fault};
use evp_format::Format;
use std::alloc::Global;

/// The expression of this text over records of this format: that of setting j of stone k.
#[tactic(auto, unfolding(crate::specs::Expressions::expression_in))]
pub(crate) fn expression(
    alloc: Global,
    text: &str,
    format: &Format,
    k: u16,
    j: u16,
) -> Result<Bound, JobFault>
    ensures { (reading : Reading) → Gives (λ bound. bound) result
        (expression_in reading k j format.now text.now) }
{
    let tree = tree_at(alloc, text, k, j)?;
    bound_at(alloc, &tree, format, k, j)
}

// The tree of a text.
fn tree_at(alloc: Global, text: &str, k: u16, j: u16) -> Result<Expr, JobFault>
    ensures { (reading : Reading) → Gives (λ tree. tree) result
        (tree_at k j (reading.answer text.now)) }
{
    one_tree();
    tree_or_fault();
    one_fault();
    match parse(alloc, text) {
        Ok(tree) => Ok(tree),
        Err(ExprFault::Memory) => Err(JobFault::Memory),
        Err(fault) => Err(JobFault::Expr(k, j, fault)),
    }
}

// A tree, bound to a format.
fn bound_at(alloc: Global, tree: &Expr, format: &Format, k: u16, j: u16) -> Result<Bound, JobFault>
    ensures { Gives (λ bound. bound) result
        (bound_at k j format.now tree.now (bound format.now tree.now)) }
{
    match bind(alloc, tree, format) {
        Ok(bound) => Ok(bound),
        Err(BindFault::Memory) => Err(JobFault::Memory),
        Err(fault) => Err(JobFault::Bind(k, j, fault)),
    }
}
