//! Lists of entries by stones.
ghost use Rattle.std.specs.Prelude.{◌≡◌, ◌<◌, Some, [], length, slice_get, replicate, IfOk, IfSome};
ghost use Rattle.std.specs.Prelude.{IfNone};
ghost use Rattle.std.specs.Prelude.{List};
ghost use Rattle.evp_stone.specs.declared.entry.Entry.{Entry as Listed};
ghost use Rattle.evp_core.specs.Lists.{entries_in, rooms_of, HasRoomAt, IsPopped, IsPushed};

use evp_base::Memory;
use evp_stone::Entry;
use std::alloc::Global;
use std::collections::VecDeque;

/// Empty lists for so many stones, each with room for so many entries.
pub(crate) fn empty_lists(
    alloc: Global,
    stones: usize,
    room: usize,
) -> Result<Vec<VecDeque<Entry>>, Memory>
    ensures entries { IfOk result (λ lists. entries_in lists.items ≡ replicate stones []) }
    ensures rooms { IfOk result (λ lists. rooms_of lists.items ≡ replicate stones room) }
{
    let mut lists = Vec::new(alloc);
    for _ in 0..stones {
        lists.push(VecDeque::with_capacity(alloc, room)?)?;
    }
    Ok(lists)
}

/// Takes the first entry of a stone's list.
pub(crate) fn pop(lists: &mut Vec<VecDeque<Entry>>, stone: usize) -> Option<Entry>
    requires { stone < length lists.old.items }
    ensures some { IfSome result (IsPopped (entries_in lists.old.items)
        (entries_in lists.new.items) stone) }
    ensures empty { IfNone result (slice_get (entries_in lists.old.items) stone ≡ Some []) }
    ensures none { IfNone result (entries_in lists.new.items ≡ entries_in lists.old.items) }
    ensures room { rooms_of lists.new.items ≡ rooms_of lists.old.items }
{
    lists[stone].pop_front()
}

/// How many entries a stone's list has.
pub(crate) fn count(lists: &[VecDeque<Entry>], stone: usize) -> usize
    requires { stone < length lists.now }
    ensures { (entries : List Listed) → slice_get (entries_in lists.now) stone ≡ Some entries
        → result ≡ length entries }
{
    lists[stone].len()
}

/// Puts an entry behind the others of a stone's list.
pub(crate) fn push(lists: &mut Vec<VecDeque<Entry>>, stone: usize, entry: Entry)
    requires within { stone < length lists.old.items }
    requires room { HasRoomAt lists.old.items stone }
    ensures pushed { IsPushed (entries_in lists.old.items) (entries_in lists.new.items) stone
        entry }
    ensures room { rooms_of lists.new.items ≡ rooms_of lists.old.items }
{
    lists[stone].push_back_reserved(entry);
}
