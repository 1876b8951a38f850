//! Formats.
ghost use Rattle.std.specs.Prelude.{◌≡◌, ◌-◌, ◌<◌, IfOk, IsSome, Some, length, slice_get};
ghost use Rattle.evp_format.specs.Class.{field_at};
ghost use Rattle.evp_format.specs.Equality.{order_eq};
ghost use Rattle.evp_format.specs.Leads.{leads_of, leads_of_root, is_glanced};
ghost use Rattle.evp_format.specs.Tree.{root_of, length_of};

use crate::leads::{Leads, are_glanced, leads_of_types};
use crate::{Field, Lead, RecordType};
use evp_base::{Memory, Order};
use std::alloc::Global;
use std::marker::Model;

/// A format: how a machine lays out the records of one kind. Its record types are well laid: names
/// differ, fields lie apart within their type's length, a nested type is an earlier one, and the
/// limits hold (`docs/DEFINITIONS.md`). The last type is the record.
#[derive(Debug, Drop)]
pub struct Format {
    order: Order,
    pointer: u8,
    types: Vec<RecordType>,
    // Of each type its fields that have or lead to a pointer.
    leads: Vec<Leads>,
    // Of the record its length, its leads, and whether a glance tells of each of them.
    root_length: u32,
    root_leads: Vec<Lead>,
    glanced: bool,
}

impl Model for Format {
    ghost use Rattle.evp_format.specs.Layout.{Layout, layout_with};

    ghost Value = { Layout };

    ghost view = { λ f. record { order = f.order; pointer = f.pointer; types = f.types.items } };

    ghost use Rattle.std.specs.Prelude.{◌≡◌};
    ghost use Rattle.evp_format.specs.Leads.{all_leads, leads_of_root, is_glanced};
    ghost use Rattle.evp_format.specs.Tree.{root_of, length_of};
    ghost use Rattle.evp_format.specs.WellLaid.{IsWellLaid};

    ghost invariant = { λ f. IsWellLaid (layout_with f.order f.pointer f.types.items)
        × (f.leads.items ≡ all_leads f.types.items)
        × (f.root_length ≡ length_of (root_of (layout_with f.order f.pointer f.types.items)))
        × (f.root_leads.items ≡ leads_of_root (layout_with f.order f.pointer f.types.items))
        × (f.glanced ≡ is_glanced (layout_with f.order f.pointer f.types.items)) };
}

impl Format {
    ghost use Rattle.evp_format.specs.Layout.{layout_with};
    ghost use Rattle.evp_format.specs.WellLaid.{IsWellLaid};

    /// The format of these parts, which are well laid. `Memory` where what it keeps of each type
    /// beside its fields could not be stored.
    pub fn new(
        alloc: Global,
        order: Order,
        pointer: u8,
        types: Vec<RecordType>,
    ) -> Result<Self, Memory>
        requires { IsWellLaid (layout_with order pointer types.items) }
        ensures { IfOk result (λ made. made ≡ layout_with order pointer types.items) }
    {
        let leads = leads_of_types(alloc, types.as_slice())?;
        let root_leads = Vec::from_slice(alloc, leads[leads.len() - 1].as_slice())?;
        let glanced = are_glanced(pointer, root_leads.as_slice());
        let root_length = types[types.len() - 1].length;
        Ok(Format {
            order,
            pointer,
            types,
            leads,
            root_length,
            root_leads,
            glanced,
        })
    }

    /// The order of a number's bytes.
    pub fn order(&self) -> Order
        ensures { result ≡ self.now.order }
    {
        self.order
    }

    /// Bytes of a pointer: 4 or 8.
    pub fn pointer(&self) -> u8
        ensures { result ≡ self.now.pointer }
    {
        self.pointer
    }

    /// The record types, 1 to 64 of them; the last is the record.
    pub fn types(&self) -> &[RecordType]
        ensures value { result.now ≡ self.now.types }
        ensures laid { IsWellLaid self.now }
    {
        self.types.as_slice()
    }

    /// The record: the last type.
    pub fn root(&self) -> &RecordType
        ensures value { slice_get self.now.types (length self.now.types - 1) ≡ Some result.now }
        ensures laid { IsWellLaid self.now }
    {
        &self.types[self.types.len() - 1]
    }

    /// The record type of this number.
    pub fn record_type(&self, type_number: u16) -> &RecordType
        requires { type_number < length self.now.types }
        ensures value { slice_get self.now.types type_number ≡ Some result.now }
        ensures laid { IsWellLaid self.now }
    {
        &self.types[usize::from(type_number)]
    }

    /// The field of this number of the type of that number.
    pub fn field(&self, type_number: u16, number: u16) -> &Field
        requires { IsSome (field_at self.now type_number number) }
        ensures value { field_at self.now type_number number ≡ Some result.now }
        ensures laid { IsWellLaid self.now }
    {
        &self.types[usize::from(type_number)].fields.as_slice()[usize::from(number)]
    }

    /// The fields of the type of this number that have a pointer or lead to one, as listed: what
    /// else than the length can fail in a record of it.
    pub fn leads(&self, type_number: u16) -> &[Lead]
        requires { type_number < length self.now.types }
        ensures { result.now ≡ leads_of self.now type_number }
    {
        self.leads[usize::from(type_number)].as_slice()
    }

    /// The record's length: that of the last type.
    pub fn length(&self) -> u32
        ensures value { result ≡ length_of (root_of self.now) }
        ensures laid { IsWellLaid self.now }
    {
        self.root_length
    }

    /// The leads of the record: those of the last type.
    pub fn root_leads(&self) -> &[Lead]
        ensures { result.now ≡ leads_of_root self.now }
    {
        self.root_leads.as_slice()
    }

    /// Whether a glance tells of each lead of the record: pointers have 8 bytes, and each is a
    /// single string, or an array of elements without a pointer that is counted in 4 bytes.
    pub fn is_glanced(&self) -> bool
        ensures { result ≡ is_glanced self.now }
    {
        self.glanced
    }

    /// An equal format.
    pub fn copy(&self, alloc: Global) -> Result<Self, Memory>
        ensures { IfOk result (λ copied. copied ≡ self.now) }
    {
        let types = copied_types(alloc, self.types.as_slice())?;
        Format::new(alloc, self.order, self.pointer, types)
    }
}

// The same types.
fn copied_types(alloc: Global, types: &[RecordType]) -> Result<Vec<RecordType>, Memory>
    ensures { IfOk result (λ copied. copied.items ≡ types.now) }
{
    let mut copied = Vec::with_capacity(alloc, types.len())?;
    for record_type in types {
        copied.push(record_type.copy(alloc)?)?;
    }
    Ok(copied)
}

impl PartialEq for Format {
    ghost use Rattle.std.specs.Prelude.{◌≡◌, ◌↔◌, IsTrue};
    ghost use Rattle.std.specs.Cmp.{partial_equiv_from_equiv};
    ghost use Rattle.evp_format.specs.Equality.{layout_eq};
    ghost use Rattle.evp_format.specs.Equalities.{layout_eq-equivalence};

    ghost eq = { layout_eq };

    ghost laws = { partial_equiv_from_equiv layout_eq-equivalence };

    /// Whether the two are equal. Takes no memory.
    fn eq(&self, other: &Format) -> bool
        ensures value { result ≡ layout_eq self.now other.now }
        ensures same { IsTrue result ↔ (self.now ≡ other.now) }
    {
        same_order(self.order, other.order)
            && self.pointer == other.pointer
            && self.types.as_slice() == other.types.as_slice()
    }
}

// Whether the two are the same.
fn same_order(order: Order, other: Order) -> bool
    ensures { result ≡ order_eq order other }
{
    order == other
}

impl Eq for Format {
    ghost use Rattle.evp_format.specs.Equalities.{layout_eq-equivalence};

    ghost laws = { layout_eq-equivalence };
}
