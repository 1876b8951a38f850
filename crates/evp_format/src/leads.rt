//! The fields of a type that have or lead to a pointer, found once for each format.
ghost use Rattle.std.specs.Prelude.{◌≡◌, ◌<◌, ◌^◌, ◌&&◌, nat_eq, IfOk, length};
ghost use Rattle.std.specs.List.{list_all};
ghost use Rattle.evp_format.specs.Leads.{AreLaidTypes, HaveCounts, lead_in, leads_in, all_leads};
ghost use Rattle.evp_format.specs.Leads.{run_in, inside_of, count_in, has_lead, is_glanced_lead};
ghost use Rattle.evp_format.specs.WellLaid.{HasShape, IsCountField};

use crate::{Base, Count, Field, Inside, Lead, RecordType, Run, Shape};
use evp_base::Memory;
use std::alloc::Global;
use std::marker::Model;

/// The leads of a type, in the order of its fields.
#[derive(Debug, Drop)]
pub(crate) struct Leads {
    list: Vec<Lead>,
}

impl Model for Leads {
    ghost use Rattle.std.specs.Prelude.{List};
    ghost use Rattle.evp_format.specs.declared.lead.Lead.{Lead};

    ghost Value = { List Lead };

    ghost view = { λ l. l.list.items };
}

impl Leads {
    // The leads, in their order.
    pub(crate) fn as_slice(&self) -> &[Lead]
        ensures { result.now ≡ self.now }
    {
        self.list.as_slice()
    }

    // The leads of a type of these fields, behind the types with those leads.
    fn of_fields(alloc: Global, earlier: &[Leads], fields: &[Field]) -> Result<Leads, Memory>
        requires few { length fields.now < 2 ^ 16 }
        requires counts { HaveCounts fields.now }
        ensures { IfOk result (λ leads. leads
            ≡ leads_in (has_lead earlier.now) fields.now fields.now 0) }
    {
        let mut list = Vec::new(alloc);
        for (number, field) in fields.iter().enumerate() {
            if let Some(lead) = lead_in(earlier, fields, number as u16, field) {
                list.push(lead)?;
            }
        }
        Ok(Leads { list })
    }
}

/// The leads of each type.
pub(crate) fn leads_of_types(alloc: Global, types: &[RecordType]) -> Result<Vec<Leads>, Memory>
    requires { AreLaidTypes types.now }
    ensures { IfOk result (λ leads. leads.items ≡ all_leads types.now) }
{
    let mut leads: Vec<Leads> = Vec::with_capacity(alloc, types.len())?;
    for record_type in types {
        let own = Leads::of_fields(alloc, leads.as_slice(), record_type.fields.as_slice())?;
        leads.push(own)?;
    }
    Ok(leads)
}

/// Whether pointers have 8 bytes and a glance tells of each of these leads.
pub(crate) fn are_glanced(pointer: u8, leads: &[Lead]) -> bool
    ensures { result ≡ nat_eq pointer 8 && list_all is_glanced_lead leads.now }
{
    pointer == 8 && are_glanced_leads(leads)
}

// Whether a glance tells of each of these leads.
fn are_glanced_leads(leads: &[Lead]) -> bool
    ensures { result ≡ list_all is_glanced_lead leads.now }
{
    leads.iter().all(|lead| is_glanced_lead(lead))
}

// Whether a glance tells of the lead.
fn is_glanced_lead(lead: &Lead) -> bool
    ensures { result ≡ is_glanced_lead lead.now }
{
    match (lead.run, lead.inside) {
        (Run::One, Inside::Text) => true,
        (Run::Counted(count), Inside::Plain) => count.size == 4,
        _ => false,
    }
}

// The lead of a field, where it is one.
fn lead_in(earlier: &[Leads], fields: &[Field], number: u16, field: &Field) -> Option<Lead>
    requires { HasShape fields.now field.now.shape }
    ensures { result ≡ lead_in (has_lead earlier.now) fields.now number field.now }
{
    let inside = inside_of(earlier, field.base);
    match (field.shape, inside) {
        (Shape::One | Shape::Fixed(_), Inside::Plain) => None,
        _ => Some(Lead {
            number,
            offset: field.offset,
            size: field.size,
            run: run_in(fields, field.shape),
            inside,
        }),
    }
}

// What stands inside an element of that base.
fn inside_of(earlier: &[Leads], base: Base) -> Inside
    ensures { result ≡ inside_of (has_lead earlier.now) base }
{
    match base {
        Base::Number(_) => Inside::Plain,
        Base::Text => Inside::Text,
        Base::Nested(number) => match earlier.get(usize::from(number)) {
            Some(leads) if !leads.as_slice().is_empty() => Inside::Record(number),
            _ => Inside::Plain,
        },
    }
}

// How many elements a field of that shape has.
fn run_in(fields: &[Field], shape: Shape) -> Run
    requires { HasShape fields.now shape }
    ensures { result ≡ run_in fields.now shape }
{
    match shape {
        Shape::One => Run::One,
        Shape::Fixed(n) => Run::Fixed(n),
        Shape::Counted(number) => Run::Counted(count_in(fields, number)),
    }
}

// The count of that number.
fn count_in(fields: &[Field], number: u16) -> Count
    requires { IsCountField fields.now number }
    ensures { result ≡ count_in fields.now number }
{
    let field = &fields[usize::from(number)];
    match field.base {
        Base::Number(kind) => Count {
            offset: field.offset,
            size: field.size,
            kind,
        },
        Base::Text | Base::Nested(_) => unreachable!(),
    }
}
