//! The walk of a record that has no fault: it answers the mark, or that there is a fault. It goes
//! by the leads of a type alone, since nothing else can fail in bytes that are long enough.

ghost use Rattle.std.specs.Prelude.{◌≡◌, ◌+◌, ◌*◌, ◌^◌, ◌≤◌, ◌<◌, length, IfSome};
ghost use Rattle.evp_format.specs.Tree.{tree_of, length_of};
ghost use Rattle.evp_format.specs.WellLaid.{IsWellLaid};
ghost use Rattle.evp_record.specs.LeadMarks.{mark_of, record_walk, text_walk, inside_mark};
ghost use Rattle.evp_record.specs.LeadMarks.{elements_mark, lead_mark, HasInside, IsLeadAt, within};
ghost use Rattle.evp_record.specs.Record.{record_of};
ghost use Rattle.evp_format.specs.declared.lead.Inside.{Inside};
ghost use Rattle.evp_format.specs.declared.lead.Run.{Run};

use crate::words::{count_at, pointer_at, zero_at};
use evp_format::{Count, Format, Inside, Lead, Run};
use std::marker::Model;

// Fewer than 2^32 bytes, and the format of the record that they may be.
#[derive(Drop)]
pub(crate) struct Marker<'a> {
    format: &'a Format,
    bytes: &'a [u8],
}

impl<'a> Model for Marker<'a> {
    ghost use Rattle.std.specs.Prelude.{◌^◌, ◌<◌, length};
    ghost use Rattle.evp_format.specs.WellLaid.{IsWellLaid};
    ghost use Rattle.evp_record.specs.Record.{Record};

    ghost Value = { Record };

    ghost view = { λ m. record { layout = m.format.now; bytes = m.bytes.now } };

    ghost invariant = { λ m. IsWellLaid m.format.now × (length m.bytes.now < 2 ^ 32) };
}

impl<'a> Marker<'a> {
    pub(crate) fn new(format: &'a Format, bytes: &'a [u8]) -> Marker<'a>
        requires laid { IsWellLaid format.now }
        requires short { length bytes.now < 2 ^ 32 }
        ensures { result ≡ record_of format.now bytes.now }
    {
        Marker { format, bytes }
    }

    // The mark behind the record of that type at `at`.
    #[cycle(mark)]
    pub(crate) fn record(&self, type_number: u16, at: usize, mark: usize) -> Option<usize>
        requires there { type_number < length self.now.layout.types }
        requires inside { at + length_of (tree_of self.now.layout type_number)
            ≤ length self.now.bytes }
        requires mark_in { mark ≤ length self.now.bytes }
        ensures value { result ≡ mark_of (record_walk self.now type_number at mark) }
        ensures mark_in { IfSome result (λ end. end ≤ length self.now.bytes) }
    {
        let mut mark = mark;
        for lead in self.format.leads(type_number) {
            mark = self.lead(lead, at, mark)?;
        }
        Some(mark)
    }

    // The mark behind a lead of a record of that length at `at`.
    #[cycle(mark)]
    fn lead(&self, lead: &Lead, at: usize, mark: usize) -> Option<usize>
        requires lead { IsLeadAt self.now at lead.now }
        requires mark_in { mark ≤ length self.now.bytes }
        ensures value { result ≡ lead_mark self.now lead.now at mark }
        ensures mark_in { IfSome result (λ end. end ≤ length self.now.bytes) }
    {
        let place = at + lead.offset as usize;
        match lead.run {
            Run::One => self.inside(lead.inside, lead.size, place, mark),
            Run::Fixed(count) => self.elements(lead, place, count, mark),
            Run::Counted(count) => self.counted(lead, count, at, mark),
        }
    }

    // The mark behind a counted array of the record at `at`.
    #[cycle(mark)]
    fn counted(&self, lead: &Lead, count: Count, at: usize, mark: usize) -> Option<usize>
        requires lead { IsLeadAt self.now at lead.now }
        requires counted { lead.now.run ≡ Run.Counted count }
        requires mark_in { mark ≤ length self.now.bytes }
        ensures value { result ≡ lead_mark self.now lead.now at mark }
        ensures mark_in { IfSome result (λ end. end ≤ length self.now.bytes) }
    {
        let place = at + count.offset as usize;
        let length = count_at(self.format, self.bytes, place, count.kind, count.size)?;
        if length == 0 {
            return Some(mark);
        }
        let from = pointer_at(self.format, self.bytes, at + lead.offset as usize);
        if from == 0 || from < mark {
            return None;
        }
        let end = block_end(from, length, lead.size, self.bytes.len())?;
        self.elements(lead, from, length as u32, end)
    }

    // The mark behind this many elements of a lead, of which the first stands at `from`.
    #[cycle(mark)]
    fn elements(&self, lead: &Lead, from: usize, count: u32, mark: usize) -> Option<usize>
        requires has_inside { HasInside self.now.layout lead.now.inside lead.now.size }
        requires fits { from + count * lead.now.size ≤ length self.now.bytes }
        requires short { length self.now.bytes < 2 ^ 32 }
        requires mark_in { mark ≤ length self.now.bytes }
        ensures value { result
            ≡ elements_mark self.now lead.now.inside lead.now.size from count 0 mark }
        ensures mark_in { IfSome result (λ end. end ≤ length self.now.bytes) }
    {
        match lead.inside {
            Inside::Plain => Some(mark),
            Inside::Text => self.texts(lead.size, from, count, mark),
            Inside::Record(type_number) => self.records(type_number, lead.size, from, count, mark),
        }
    }

    // The mark behind this many strings, of which the pointer of the first stands at `from`.
    fn texts(&self, size: u32, from: usize, count: u32, mark: usize) -> Option<usize>
        requires sized { size ≡ self.now.layout.pointer }
        requires fits { from + count * size ≤ length self.now.bytes }
        requires short { length self.now.bytes < 2 ^ 32 }
        requires mark_in { mark ≤ length self.now.bytes }
        ensures value { result ≡ elements_mark self.now Inside.Text size from count 0 mark }
        ensures mark_in { IfSome result (λ end. end ≤ length self.now.bytes) }
    {
        let mut mark = mark;
        for index in 0..count {
            mark = self.text(from + index as usize * size as usize, mark)?;
        }
        Some(mark)
    }

    // The mark behind this many records of that type and size, of which the first stands at `from`.
    #[cycle(mark)]
    fn records(
        &self,
        type_number: u16,
        size: u32,
        from: usize,
        count: u32,
        mark: usize,
    ) -> Option<usize>
        requires has_inside { HasInside self.now.layout (Inside.Record type_number) size }
        requires fits { from + count * size ≤ length self.now.bytes }
        requires short { length self.now.bytes < 2 ^ 32 }
        requires mark_in { mark ≤ length self.now.bytes }
        ensures value { result
            ≡ elements_mark self.now (Inside.Record type_number) size from count 0 mark }
        ensures mark_in { IfSome result (λ end. end ≤ length self.now.bytes) }
    {
        let mut mark = mark;
        for index in 0..count {
            let at = from + index as usize * size as usize;
            mark = self.record(type_number, at, mark)?;
        }
        Some(mark)
    }

    // The mark behind what is inside the element of that size at `at`.
    #[cycle(mark)]
    fn inside(&self, inside: Inside, size: u32, at: usize, mark: usize) -> Option<usize>
        requires has_inside { HasInside self.now.layout inside size }
        requires fits { at + size ≤ length self.now.bytes }
        requires mark_in { mark ≤ length self.now.bytes }
        ensures value { result ≡ inside_mark self.now inside at mark }
        ensures mark_in { IfSome result (λ end. end ≤ length self.now.bytes) }
    {
        match inside {
            Inside::Plain => Some(mark),
            Inside::Text => self.text(at, mark),
            Inside::Record(type_number) => self.record(type_number, at, mark),
        }
    }

    // The mark behind the string whose pointer stands at `at`.
    #[inline(always)]
    fn text(&self, at: usize, mark: usize) -> Option<usize>
        requires fits { at + self.now.layout.pointer ≤ length self.now.bytes }
        requires mark_in { mark ≤ length self.now.bytes }
        ensures value { result ≡ mark_of (text_walk self.now at mark) }
        ensures mark_in { IfSome result (λ end. end ≤ length self.now.bytes) }
    {
        let from = pointer_at(self.format, self.bytes, at);
        if from == 0 {
            return Some(mark);
        }
        if from < mark || from >= self.bytes.len() {
            return None;
        }
        let length = zero_at(&self.bytes[from..])?;
        Some(from + length + 1)
    }
}

// The end of a block of that many elements of that size, where it is inside the bytes.
fn block_end(from: usize, count: u64, size: u32, room: usize) -> Option<usize>
    requires some { 0 < size }
    requires short { room < 2 ^ 32 }
    ensures { result ≡ within room (from + count * size) }
{
    let room = room as u64;
    if room < (from as u64) || room < count {
        return None;
    }
    let end = from as u64 + count * u64::from(size);
    if room < end {
        return None;
    }
    Some(end as usize)
}
