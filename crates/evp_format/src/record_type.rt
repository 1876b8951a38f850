//! A record type: a name, a length and fields.
ghost use Rattle.std.specs.Prelude.{◌≡◌, IfOk};

use crate::Field;
use evp_base::{Memory, Name};
use std::alloc::Global;
use std::marker::Model;

/// The fields of a record type, as listed.
#[derive(Debug, Drop)]
pub struct Fields {
    list: Vec<Field>,
}

impl Model for Fields {
    ghost use Rattle.std.specs.Prelude.{List};
    ghost use Rattle.evp_format.specs.declared.field.Field.{Field};

    ghost Value = { List Field };

    ghost view = { λ f. f.list.items };
}

impl Fields {
    /// The fields in this list. Takes no memory.
    pub fn from_vec(list: Vec<Field>) -> Self
        ensures { result ≡ list.items }
    {
        Fields { list }
    }

    /// The list of the fields. Takes no memory.
    pub fn into_vec(self) -> Vec<Field>
        ensures { result.items ≡ self }
    {
        self.list
    }

    /// The fields, in their order.
    pub fn as_slice(&self) -> &[Field]
        ensures { result.now ≡ self.now }
    {
        self.list.as_slice()
    }

    /// The same fields.
    pub fn copy(&self, alloc: Global) -> Result<Self, Memory>
        ensures { IfOk result (λ fields. fields ≡ self.now) }
    {
        Ok(Fields {
            list: Vec::from_slice(alloc, self.list.as_slice())?,
        })
    }
}

impl PartialEq for Fields {
    ghost use Rattle.std.specs.Prelude.{◌≡◌, ◌↔◌, IsTrue};
    ghost use Rattle.std.specs.Cmp.{partial_equiv_from_equiv};
    ghost use Rattle.evp_format.specs.Equality.{fields_eq};
    ghost use Rattle.evp_format.specs.Equalities.{fields_eq-equivalence};

    ghost eq = { fields_eq };

    ghost laws = { partial_equiv_from_equiv fields_eq-equivalence };

    fn eq(&self, other: &Fields) -> bool
        ensures value { result ≡ fields_eq self.now other.now }
        ensures same { IsTrue result ↔ (self.now ≡ other.now) }
    {
        self.list.as_slice() == other.list.as_slice()
    }
}

impl Eq for Fields {
    ghost use Rattle.evp_format.specs.Equalities.{fields_eq-equivalence};

    ghost laws = { fields_eq-equivalence };
}

/// A record type.
#[derive(Debug, Drop)]
pub struct RecordType {
    /// Unlike the format's other types, and no reserved word.
    pub name: Name,
    /// Bytes of the fixed part, 1 to 65,536.
    pub length: u32,
    /// 1 to 1,024 fields.
    pub fields: Fields,
}

impl RecordType {
    /// The same type.
    pub fn copy(&self, alloc: Global) -> Result<Self, Memory>
        ensures { IfOk result (λ copied. copied ≡ self.now) }
    {
        Ok(RecordType {
            name: self.name,
            length: self.length,
            fields: self.fields.copy(alloc)?,
        })
    }
}

impl PartialEq for RecordType {
    ghost use Rattle.std.specs.Prelude.{◌≡◌, ◌↔◌, IsTrue};
    ghost use Rattle.std.specs.Cmp.{partial_equiv_from_equiv};
    ghost use Rattle.evp_format.specs.Equality.{type_eq};
    ghost use Rattle.evp_format.specs.Equalities.{type_eq-equivalence};

    ghost eq = { type_eq };

    ghost laws = { partial_equiv_from_equiv type_eq-equivalence };

    fn eq(&self, other: &RecordType) -> bool
        ensures value { result ≡ type_eq self.now other.now }
        ensures same { IsTrue result ↔ (self.now ≡ other.now) }
    {
        self.name == other.name && self.length == other.length && self.fields == other.fields
    }
}

impl Eq for RecordType {
    ghost use Rattle.evp_format.specs.Equalities.{type_eq-equivalence};

    ghost laws = { type_eq-equivalence };
}
