//! A record in the format that an action names, before it is shared.
ghost use Rattle.std.specs.Prelude.{◌≡◌, IfOk, Some, slice_get};
ghost use Rattle.std.specs.Arc.{arc_value};
ghost use Rattle.evp_action.specs.MadeRecord.{record_in};
ghost use Rattle.evp_record.specs.Owned.{HasValueIn, value_in};
ghost use Rattle.evp_record.specs.Record.{value_of};

use evp_base::Memory;
use evp_format::Format;
use evp_record::{Checked, Draft, Owned};
use std::alloc::{AllocError, AllocFailed, Global};
use std::sync::Arc;

// The item itself, or a new record, which isn't shared yet: in room of the caller's, or with bytes
// of its own.
#[derive(Drop)]
pub(crate) enum Made<'a> {
    Same(&'a Arc<Owned, Global>),
    InRoom(Draft<'a>),
    Own(Owned),
}

impl<'a> Made<'a> {
    // The number of the record's format.
    #[inline(always)]
    pub fn format(&self) -> u16
        ensures { result ≡ (record_in self.now).format }
    {
        match self {
            Made::Same(item) => item.format(),
            Made::InRoom(draft) => draft.format(),
            Made::Own(owned) => owned.format(),
        }
    }

    // The record, for bytes that have a value in their format of these. Takes no memory.
    #[inline(always)]
    pub fn checked<'b>(&'b self, formats: &'b [Format]) -> Checked<'b>
        requires { HasValueIn formats.now (record_in self.now) }
        ensures format { slice_get formats.now (record_in self.now).format ≡ Some result.layout }
        ensures bytes { result.bytes ≡ (record_in self.now).bytes }
        ensures value { value_in formats.now (record_in self.now) ≡ Some (value_of result) }
    {
        match self {
            Made::Same(item) => item.checked(formats),
            Made::InRoom(draft) => draft.checked(formats),
            Made::Own(owned) => owned.checked(formats),
        }
    }

    // The record, to be shared: the item's own block of memory, or a new one.
    #[inline(always)]
    pub fn into_arc(self, alloc: Global) -> Result<Arc<Owned, Global>, Memory>
        ensures { IfOk result (λ shared. arc_value shared ≡ record_in self.entry) }
    {
        match self {
            Made::Same(item) => Ok(Arc::try_clone(item)?),
            Made::InRoom(draft) => Ok(Arc::new(alloc, draft.owned(alloc)?)?),
            Made::Own(owned) => Ok(Arc::new(alloc, owned)?),
        }
    }
}
