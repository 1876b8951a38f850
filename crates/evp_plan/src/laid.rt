//! Records that are made without a look at their steps.

ghost use Rattle.std.specs.Prelude.{◌≡◌, List, IfOk, IfSome};
ghost use Rattle.evp_format.specs.Tree.{root_of, length_of};
ghost use Rattle.evp_plan.specs.Laid.{IsLaidOf, IsLaidBetween};
ghost use Rattle.evp_plan.specs.Program.{Program};
ghost use Rattle.evp_plan.specs.Quiet.{tests_of};

use crate::forms::{are_apart, blocks_of, have_no_number, numbers_of, others_of};
use crate::moves::whole_with;
use crate::{Block, Moves, Step};
use evp_base::Memory;
use evp_format::Format;
use std::alloc::Global;
use std::marker::Model;

// The most blocks that a record has that is made so: their sizes have a sum.
const MOST_BLOCKS: usize = 0x10_0000;

/// What makes records of single numbers, texts and counted arrays of numbers, between machines with
/// pointers of 8 bytes: moves for the fixed part, with zeros for the pointers, and the blocks in the
/// order of the fields.
#[derive(Debug, Drop)]
pub struct Laid {
    numbers: Moves,
    blocks: Vec<Block>,
}

impl Model for Laid {
    ghost use Rattle.evp_plan.specs.Laid.{Laying};

    ghost Value = { Laying };

    ghost view = { λ l. record { numbers = l.numbers; blocks = l.blocks.items } };
}

impl Laid {
    ghost use Rattle.std.specs.Prelude.{◌≡◌};

    // What makes the records of these steps, where no number may be one that doesn't fit: these are
    // the steps that can refuse something or take a block.
    pub(crate) fn of_steps(
        alloc: Global,
        from: &Format,
        to: &Format,
        steps: &[Step],
        tests: &[Step],
    ) -> Result<Option<Laid>, Memory>
        ensures { IfOk result (λ made. IfSome made (λ laid.
            ((earlier : List Program) → tests.now ≡ tests_of earlier steps.now
            → IsLaidOf from.now.order to.now.order earlier steps.now laid)
            × IsLaidBetween (length_of (root_of from.now)) (length_of (root_of to.now))
            from.now.pointer to.now.pointer laid)) }
    {
        if from.pointer() != 8 || to.pointer() != 8 {
            return Ok(None);
        }
        let singles = numbers_of(alloc, steps)?;
        let others = others_of(alloc, steps)?;
        if others.is_empty() || !are_apart(others.as_slice(), singles.as_slice()) {
            return Ok(None);
        }
        if !have_no_number(tests) {
            return Ok(None);
        }
        let Some(blocks) = blocks_of(alloc, others.as_slice())? else {
            return Ok(None);
        };
        if blocks.len() > MOST_BLOCKS {
            return Ok(None);
        }
        let fixed = to.root().length;
        let room = from.root().length;
        let (order, sender) = (to.order(), from.order());
        let singles = singles.as_slice();
        let Some(numbers) = whole_with(alloc, order, sender, singles, fixed, room)? else {
            return Ok(None);
        };
        if numbers.reach() > room as usize {
            return Ok(None);
        }
        Ok(Some(Laid { numbers, blocks }))
    }

    /// The moves for the fixed part.
    #[inline(always)]
    pub fn numbers(&self) -> &Moves
        ensures { result.now ≡ self.now.numbers }
    {
        &self.numbers
    }

    /// The blocks.
    #[inline(always)]
    pub fn blocks(&self) -> &[Block]
        ensures { result.now ≡ self.now.blocks }
    {
        self.blocks.as_slice()
    }
}
