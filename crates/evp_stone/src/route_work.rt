//! What a stone does on one of its routes.
ghost use Rattle.std.specs.Prelude.{◌≡◌, [], OnOk, OnErr, IfErr};
ghost use Rattle.evp_stone.specs.Settling.{work_of, HasRoom, Settled, HasEnded};
ghost use Rattle.evp_action.specs.declared.acted.Acted.TheVariants.{Sent, Arrived, Refused};
ghost use Rattle.evp_stone.specs.Turning.{keeping};

use crate::account::RoundAccount;
use crate::entry::Entry;
use crate::growing::{first_arrived, first_refused, make_room};
use crate::outlet::{Outlet, Sending, lengthen, line_up};
use evp_action::{Acted, Reason, To};
use evp_record::Owned;
use std::alloc::{AllocError, Global};
use std::collections::VecDeque;
use std::mem;
use std::sync::Arc;

/// What a stone does on one of its routes.
#[derive(Drop)]
pub(crate) struct RouteWork {
    pub(crate) route: u16,
    // By the stone's target positions.
    pub(crate) outlets: Vec<Outlet>,
    // The records that it keeps, each with its index.
    pub(crate) kept: VecDeque<(u32, Arc<Owned, Global>)>,
    // The accounts of the rounds that it has ended, and that of the one in which it is.
    pub(crate) ended: Vec<RoundAccount>,
    pub(crate) running: RoundAccount,
}

impl RouteWork {
    /// Keeps a record, which is handed back where there is no memory.
    pub(crate) fn keep(
        &mut self,
        index: u32,
        owned: Arc<Owned, Global>,
    ) -> Result<(), Arc<Owned, Global>>
        ensures kept { OnOk result (work_of self.new ≡ keeping (work_of self.old) (index, owned)) }
        ensures back { IfErr result (λ back. back ≡ owned) }
        ensures err { OnErr result (work_of self.new ≡ work_of self.old) }
    {
        match self.kept.push_back((index, owned)) {
            Ok(()) => Ok(()),
            Err(failed) => {
                let (_, owned) = failed.value;
                Err(owned)
            }
        }
    }

    /// Settles what came of the record of this index.
    pub(crate) fn settle(
        &mut self,
        waiting: &mut VecDeque<Entry>,
        index: u32,
        acted: Acted,
    ) -> Result<(), AllocError>
        requires none { waiting.old.items ≡ [] }
        requires room { HasRoom (work_of self.old) }
        ensures settled { OnOk result
            (Settled index acted (work_of self.old) (work_of self.new) waiting.new.items) }
        ensures err { OnErr result (work_of self.new ≡ work_of self.old) }
        ensures none { OnErr result (waiting.new.items ≡ []) }
    {
        match acted {
            Acted::Sent(to, owned) => self.send(waiting, index, to, owned),
            Acted::Dropped => {
                self.running.dropped += 1;
                Ok(())
            }
            Acted::Arrived(owned) => self.receive(index, owned),
            Acted::Refused(reason) => self.refuse(index, reason),
        }
    }

    /// Ends a round, whose end goes to every target.
    pub(crate) fn end_round(
        &mut self,
        alloc: Global,
        waiting: &mut VecDeque<Entry>,
        round: u32,
    ) -> Result<(), AllocError>
        requires none { waiting.old.items ≡ [] }
        requires room { HasRoom (work_of self.old) }
        ensures ended { OnOk result
            (HasEnded round (work_of self.old) (work_of self.new) waiting.new.items) }
        ensures err { OnErr result (work_of self.new ≡ work_of self.old) }
        ensures none { OnErr result (waiting.new.items ≡ []) }
    {
        self.ended.reserve(1)?;
        line_up(&self.outlets, waiting, To::All, Sending::End(round))?;
        lengthen(&mut self.outlets, To::All);
        let running = mem::replace(&mut self.running, RoundAccount::new(alloc));
        self.ended
            .push_reserved(running.closed(self.kept.len() as u32));
        Ok(())
    }

    // Sends a record on.
    fn send(
        &mut self,
        waiting: &mut VecDeque<Entry>,
        index: u32,
        to: To,
        owned: Arc<Owned, Global>,
    ) -> Result<(), AllocError>
        requires none { waiting.old.items ≡ [] }
        requires room { HasRoom (work_of self.old) }
        ensures settled { OnOk result (Settled index (Sent to owned) (work_of self.old)
            (work_of self.new) waiting.new.items) }
        ensures err { OnErr result (work_of self.new ≡ work_of self.old) }
        ensures none { OnErr result (waiting.new.items ≡ []) }
    {
        line_up(&self.outlets, waiting, to, Sending::Item(index, owned))?;
        lengthen(&mut self.outlets, to);
        self.running.passed += 1;
        Ok(())
    }

    // Receives a record.
    fn receive(&mut self, index: u32, owned: Arc<Owned, Global>) -> Result<(), AllocError>
        requires { HasRoom (work_of self.old) }
        ensures settled { OnOk result
            (Settled index (Arrived owned) (work_of self.old) (work_of self.new) []) }
        ensures err { OnErr result (work_of self.new ≡ work_of self.old) }
    {
        let first = first_arrived(self.ended.as_slice());
        make_room(&mut self.running.arrived, first)?;
        self.running.arrived.push_reserved((index, owned));
        self.running.passed += 1;
        Ok(())
    }

    // Refuses a record.
    fn refuse(&mut self, index: u32, reason: Reason) -> Result<(), AllocError>
        ensures settled { OnOk result
            (Settled index (Refused reason) (work_of self.old) (work_of self.new) []) }
        ensures err { OnErr result (work_of self.new ≡ work_of self.old) }
    {
        let first = first_refused(self.ended.as_slice());
        make_room(&mut self.running.refused, first)?;
        self.running.refused.push_reserved((index, reason));
        Ok(())
    }
}
