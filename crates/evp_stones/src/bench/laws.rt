//! The law of the jobs that are made. The function does nothing.
ghost use Rattle.evp_stones.specs.BenchLaws.{EachBenchIsAJob};

use evp_expr::{each_text_is_answered, one_tree, tree_or_fault};

/// For each number up to 20,000 the generator's document states the job of that number, and no
/// other and no fault, and the generator's files are right for it.
pub(crate) fn each_bench_is_a_job()
    ensures { EachBenchIsAJob }
{
    one_tree();
    tree_or_fault();
    each_text_is_answered();
}
