//! Evaluations of expressions over records.

ghost use Rattle.std.specs.Prelude.{◌≡◌, ◌↔◌, pos, IsTrue, Ok};
ghost use Rattle.evp_eval.specs.Value.{value};
ghost use Rattle.evp_record.specs.Record.{value_of};

use crate::workload::Workload;
use evp_eval::{Bound, eval};
use evp_format::Format;
use evp_record::Checked;
use std::alloc::{AllocError, Global};

/// Evaluates an expression over records that were checked before.
#[derive(Drop)]
pub struct Evaluation<'a> {
    pub name: &'static str,
    pub bound: &'a Bound,
    pub format: &'a Format,
    pub items: Vec<Checked<'a>>,
}

impl<'a> Workload for Evaluation<'a> {
    ghost use Rattle.std.specs.Prelude.{◌≡◌};
    ghost use Rattle.evp_speed.specs.Pairs.{AreOf};

    ghost ready = { λ work. AreOf work.format.now work.items.items
        × (work.bound.now.layout ≡ work.format.now) };

    fn name(&self) -> &'static str {
        self.name
    }

    fn records(&self) -> usize {
        self.items.len()
    }

    fn pass(&self, _out: &mut [u8]) -> u64 {
        let mut ones = 0u64;
        for item in &self.items {
            if is_one(self.bound, item.copy()) {
                ones = ones.wrapping_add(1);
            }
        }
        ones
    }

    fn compared(&self, alloc: Global, out: &mut [u8]) -> Result<String, AllocError> {
        let count = self.items.len();
        let ones = self.pass(out);
        format!(in alloc; "1 over {ones} of {count} records")
    }
}

// Whether the expression is 1 over the record.
fn is_one(bound: &Bound, item: Checked) -> bool
    requires { item.layout ≡ bound.now.layout }
    ensures { IsTrue result ↔ (value bound.now.tree (value_of item.entry) ≡ Ok (pos 1)) }
{
    match eval(bound, item) {
        Ok(number) => number == 1,
        Err(_) => false,
    }
}
