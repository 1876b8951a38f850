//! Records that are easily seen to be legal: by a glance at each lead, with no walk.

ghost use Rattle.std.specs.Prelude.{◌≡◌, ◌+◌, ◌^◌, ◌≤◌, ◌<◌, length, All, IsTrue, Some, IsSome};
ghost use Rattle.std.specs.Prelude.{IfSome};
ghost use Rattle.std.specs.List.{AllPass};
ghost use Rattle.evp_base.specs.Numbers.{is_width, magnitude};
ghost use Rattle.evp_format.specs.Bytes.{bytes_at};
ghost use Rattle.evp_format.specs.Leads.{leads_of_root, is_glanced_lead};
ghost use Rattle.evp_format.specs.declared.lead.Inside.{Inside};
ghost use Rattle.evp_format.specs.declared.lead.Run.{Run};
ghost use Rattle.evp_record.specs.LeadMarks.{lead_mark, leads_mark, mark_of, text_walk, IsLeadAt};
ghost use Rattle.evp_record.specs.Record.{record_of};

use evp_base::Order;
use evp_format::{Count, Format, Lead, Run};
use evp_wide::{counts_some, get_word, near_zero};
use std::marker::Model;

// Fewer than 2^32 bytes, and the format of the record that they may be. Its order stands beside it,
// so that the compiler knows it.
#[derive(Drop)]
struct Glance<'a> {
    format: &'a Format,
    bytes: &'a [u8],
    order: Order,
}

impl<'a> Model for Glance<'a> {
    ghost use Rattle.std.specs.Prelude.{◌≡◌, ◌^◌, ◌<◌, length};
    ghost use Rattle.evp_record.specs.Record.{Record};

    ghost Value = { Record };

    ghost view = { λ g. record { layout = g.format.now; bytes = g.bytes.now } };

    ghost invariant = { λ g. (g.order ≡ g.format.now.order) × (length g.bytes.now < 2 ^ 32) };
}

impl<'a> Glance<'a> {
    #[inline(always)]
    fn new(format: &'a Format, bytes: &'a [u8], order: Order) -> Glance<'a>
        requires order { order ≡ format.now.order }
        requires short { length bytes.now < 2 ^ 32 }
        ensures { result ≡ record_of format.now bytes.now }
    {
        Glance {
            format,
            bytes,
            order,
        }
    }

    // The unsigned number of so many bytes at `at`.
    #[inline(always)]
    fn word(&self, at: usize, size: usize) -> usize
        requires width { IsTrue (is_width size) }
        requires inside { at + size ≤ length self.now.bytes }
        ensures { result ≡ magnitude self.now.layout.order (bytes_at at size self.now.bytes) }
    {
        get_word(&self.bytes[at..at + size], self.order) as usize
    }

    // The mark behind the string whose pointer stands at `at`, where that is easily seen.
    #[inline(always)]
    fn text(&self, at: usize, mark: usize) -> Option<usize>
        requires wide { self.now.layout.pointer ≡ 8 }
        requires inside { at + 8 ≤ length self.now.bytes }
        requires some { 0 < mark }
        ensures value { IfSome result (λ end. mark_of (text_walk self.now at mark) ≡ Some end) }
        ensures some { IfSome result (λ end. 0 < end) }
    {
        let from = self.word(at, 8);
        if from < mark {
            return if from == 0 { Some(mark) } else { None };
        }
        let count = near_zero(self.bytes, from)?;
        Some(from + count + 1)
    }

    // The mark behind an array of plain elements that is counted in 4 bytes, where that is easily
    // seen.
    #[inline(always)]
    fn array(&self, lead: &Lead, count: Count, mark: usize) -> Option<usize>
        requires wide { self.now.layout.pointer ≡ 8 }
        requires lead { IsLeadAt self.now 0 lead.now }
        requires counted { lead.now.run ≡ Run.Counted count }
        requires plain { lead.now.inside ≡ Inside.Plain }
        requires four { count.size ≡ 4 }
        requires some { 0 < mark }
        ensures value { IfSome result (λ end. lead_mark self.now lead.now 0 mark ≡ Some end) }
        ensures some { IfSome result (λ end. 0 < end) }
    {
        let number = self.word(count.offset as usize, 4);
        if !counts_some(number) {
            return if number == 0 { Some(mark) } else { None };
        }
        let from = self.word(lead.offset as usize, 8);
        if from < mark || from > self.bytes.len() {
            return None;
        }
        let end = from + number * lead.size as usize;
        if end > self.bytes.len() {
            return None;
        }
        Some(end)
    }

    // The mark behind a lead of the record, where that is easily seen.
    #[inline(always)]
    fn lead(&self, lead: &Lead, mark: usize) -> Option<usize>
        requires wide { self.now.layout.pointer ≡ 8 }
        requires lead { IsLeadAt self.now 0 lead.now }
        requires glanced { IsTrue (is_glanced_lead lead.now) }
        requires some { 0 < mark }
        ensures value { IfSome result (λ end. lead_mark self.now lead.now 0 mark ≡ Some end) }
        ensures some { IfSome result (λ end. 0 < end) }
    {
        match lead.run {
            Run::One => self.text(lead.offset as usize, mark),
            Run::Counted(count) => self.array(lead, count, mark),
            Run::Fixed(_) => None,
        }
    }

    // The mark behind all leads of the record, where that is easily seen.
    #[inline(always)]
    fn leads(&self, leads: &[Lead], mark: usize) -> Option<usize>
        requires wide { self.now.layout.pointer ≡ 8 }
        requires leads { All (IsLeadAt self.now 0) leads.now }
        requires glanced { AllPass is_glanced_lead leads.now }
        requires some { 0 < mark }
        ensures { IfSome result (λ end. leads_mark self.now leads.now 0 mark ≡ Some end) }
    {
        let mut mark = mark;
        for lead in leads {
            mark = self.lead(lead, mark)?;
        }
        Some(mark)
    }
}

// Whether the bytes are easily seen to have a value, by the leads of a record whose fixed part ends
// at the mark.
#[inline(always)]
pub(crate) fn is_easy(format: &Format, leads: &[Lead], bytes: &[u8], mark: usize) -> bool
    requires root { leads.now ≡ leads_of_root format.now }
    requires leads { All (IsLeadAt (record_of format.now bytes.now) 0) leads.now }
    requires short { length bytes.now < 2 ^ 32 }
    requires some { 0 < mark }
    ensures { IsTrue result
        → IsSome (leads_mark (record_of format.now bytes.now) leads.now 0 mark) }
{
    if !format.is_glanced() || bytes.len() < 16 {
        return false;
    }
    let end = match format.order() {
        Order::Little => Glance::new(format, bytes, Order::Little).leads(leads, mark),
        Order::Big => Glance::new(format, bytes, Order::Big).leads(leads, mark),
    };
    end.is_some()
}
