//! The record types of a format so far: a format's types are stated one behind another.

ghost use Rattle.std.specs.Prelude.{◌≡◌, ◌+◌, ◌^◌, ◌<◌, ◌≤◌, ◌⊎◌, ◌++◌, ◌∷◌, [], length, map, IfOk};
ghost use Rattle.std.specs.Prelude.{IfErr, IsTrue, All};
ghost use Rattle.evp_format.specs.declared.layout_fault.LayoutFault.TheVariants.{Memory};
ghost use Rattle.evp_format.specs.Drafts.{is_base_size, nested_length};
ghost use Rattle.evp_format.specs.Layout.{layout_with};
ghost use Rattle.evp_format.specs.Parts.{new_type_name, new_field_count, new_field_name};
ghost use Rattle.evp_format.specs.Parts.{allowed_size, allowed_default, ended_type};
ghost use Rattle.evp_format.specs.SoFar.{so_far, AreLaid, MayFollow};
ghost use Rattle.evp_format.specs.Steps.{Gives};
ghost use Rattle.evp_format.specs.Tree.{trees};
ghost use Rattle.evp_format.specs.TypeText.{type_text_of};
ghost use Rattle.evp_format.specs.WellLaid.{depth, all_fields, IsWellLaid};

use crate::draft::{has_field, has_type, is_base_size, may_default, nested_length};
use crate::type_text::{type_name_of, type_text_of};
use crate::whole_type::{counted_fields, depth_behind, refuse_count_default, refuse_nesting};
use crate::{Base, DraftField, DraftShape, Fields, Format, LayoutFault, RecordType, Which};
use evp_base::{Name, Order};
use std::alloc::Global;
use std::marker::Model;

/// The most types of a format.
const MOST: usize = 64;

/// The record types of a format so far. Each is well laid behind those before it, and no limit is
/// passed. The next one is tested part by part: each test answers the part, or the fault that shows
/// there, with the type's number.
#[derive(Debug, Drop)]
pub struct TypesSoFar {
    pointer: u8,
    types: Vec<RecordType>,
    // how deep each type nests, then zeros
    depths: [u8; MOST],
    // the fields of all types
    fields: u32,
}

impl Model for TypesSoFar {
    ghost use Rattle.evp_format.specs.SoFar.{SoFar, AreKept};

    ghost Value = { SoFar };

    ghost view = { λ t. record { pointer = t.pointer; types = t.types.items } };

    ghost invariant = { λ t. AreKept t.pointer t.types.items t.depths t.fields };
}

impl TypesSoFar {
    /// No type, of a format whose pointers have 4 or 8 bytes. Takes no memory.
    pub fn new(alloc: Global, pointer: u8) -> Self
        requires { (pointer ≡ 4) ⊎ (pointer ≡ 8) }
        ensures value { result ≡ so_far pointer [] }
        ensures laid { AreLaid pointer [] }
    {
        TypesSoFar {
            pointer,
            types: Vec::new(alloc),
            depths: [0; MOST],
            fields: 0,
        }
    }

    /// Bytes of a pointer: 4 or 8.
    pub fn pointer(&self) -> u8
        ensures value { result ≡ self.now.pointer }
        ensures allowed { (result ≡ 4) ⊎ (result ≡ 8) }
    {
        self.pointer
    }

    /// The types, at most 64, in their order.
    pub fn types(&self) -> &[RecordType]
        ensures value { result.now ≡ self.now.types }
        ensures few { length self.now.types ≤ 64 }
        ensures laid { AreLaid self.now.pointer self.now.types }
    {
        self.types.as_slice()
    }

    /// How many types there are, at most 64: the next one's number.
    pub fn number(&self) -> u16
        ensures value { result ≡ length self.now.types }
        ensures few { result ≤ 64 }
    {
        self.types.len() as u16
    }

    // How deep each type nests.
    fn depths(&self) -> &[u8]
        ensures nested { result.now ≡ map depth (trees self.now.types) }
        ensures shallow { All (λ depth. depth ≤ 16) result.now }
    {
        &self.depths[..self.types.len()]
    }

    // The fields of all types.
    fn fields(&self) -> u32
        ensures value { result ≡ all_fields self.now.types }
        ensures few { result ≤ 4096 }
    {
        self.fields
    }

    /// The length of the type of this number, or 0 where there is none.
    pub fn length_of(&self, type_number: u16) -> u32
        ensures { result ≡ nested_length self.now.types type_number }
    {
        nested_length(self.types(), type_number)
    }

    /// The next type's name: `BadName` where the text is no name or a reserved word, `TypeTwice`
    /// where an earlier type has it.
    #[tactic(auto, unfolding(crate::specs::Parts::new_type_name))]
    pub fn type_name(&self, text: &[u8]) -> Result<Name, LayoutFault>
        ensures { result ≡ new_type_name self.now.types text.now }
    {
        match type_name_of(text) {
            None => Err(LayoutFault::BadName(self.number(), None)),
            Some(name) if has_type(self.types(), name) => {
                Err(LayoutFault::TypeTwice(self.number()))
            }
            Some(name) => Ok(name),
        }
    }

    /// The number of the next type's fields: `Limit(Fields, n)` unless it is 1 to 1,024, then
    /// `Limit(AllFields, n)` where all types with this one have more than 4,096.
    #[tactic(auto, unfolding(crate::specs::Parts::new_field_count))]
    pub fn field_count(&self, count: u32) -> Result<u32, LayoutFault>
        ensures value { result ≡ new_field_count (all_fields self.now.types) count }
        ensures limit { IfOk result (λ allowed. (1 ≤ allowed) × (allowed ≤ 1024)
            × (all_fields self.now.types + allowed ≤ 4096)) }
        ensures same { IfOk result (λ allowed. allowed ≡ count) }
    {
        if count < 1 || 1024 < count {
            return Err(LayoutFault::Limit(Which::Fields, count));
        }
        let fields = self.fields() + count;
        if fields <= 4096 {
            Ok(count)
        } else {
            Err(LayoutFault::Limit(Which::AllFields, fields))
        }
    }

    /// The next field's name, behind these fields of the next type: `BadName` where the text is no
    /// name, `Twice` where an earlier field has it.
    #[tactic(auto, unfolding(crate::specs::Parts::new_field_name))]
    pub fn field_name(&self, before: &[DraftField], text: &[u8]) -> Result<Name, LayoutFault>
        requires { length before.now < 1024 }
        ensures { result ≡ new_field_name (length self.now.types) before.now text.now }
    {
        let field = before.len() as u16;
        match Name::read(text) {
            None => Err(LayoutFault::BadName(self.number(), Some(field))),
            Some(name) if has_field(before, name) => Err(LayoutFault::Twice(self.number(), field)),
            Some(name) => Ok(name),
        }
    }

    /// What a type text says of the next type's field of this number: a word (`integer`,
    /// `unsigned integer`, `char`, `boolean`, `enumeration`, `string`, or the name of an earlier
    /// type), and behind it nothing, a number of elements from 1 to 65,536 in brackets, or the name
    /// of the field that counts them. The first of these faults: `TypeText` where the text isn't of
    /// this form, `Float` where its word is `float`, `UnknownType` where no earlier type has the
    /// name.
    pub fn type_text(&self, field: u16, text: &[u8]) -> Result<(Base, DraftShape), LayoutFault>
        ensures { result ≡ type_text_of self.now.types (length self.now.types) field text.now }
    {
        type_text_of(text, self.types(), self.number(), field)
    }

    /// The size of the next type's field of this number: `Size` where its base may not have it.
    #[tactic(auto, unfolding(crate::specs::Parts::allowed_size))]
    pub fn size(&self, field: u16, base: Base, size: u32) -> Result<u32, LayoutFault>
        ensures value { result ≡ allowed_size self.now.pointer self.now.types field base size }
        ensures allowed { IfOk result (λ allowed. IsTrue
            (is_base_size self.now.pointer self.now.types base allowed)) }
    {
        if is_base_size(self.pointer(), self.types(), base, size) {
            Ok(size)
        } else {
            Err(LayoutFault::Size(self.number(), field))
        }
    }

    /// The default of the next type's field of this number: `Default` where it isn't 0, and the
    /// field isn't a single number or the default isn't in its range.
    #[tactic(auto, unfolding(crate::specs::Parts::allowed_default))]
    pub fn default(
        &self,
        number: u16,
        field: &DraftField,
        fallback: i128,
    ) -> Result<i128, LayoutFault>
        requires { IsTrue (is_base_size self.now.pointer self.now.types field.now.base
            field.now.size) }
        ensures { result ≡ allowed_default (length self.now.types) number field.now fallback }
    {
        if may_default(field, fallback, self.pointer(), self.types()) {
            Ok(fallback)
        } else {
            Err(LayoutFault::Default(self.number(), number))
        }
    }

    /// The next type, of this many bytes, with these fields: `CountField` at the first array whose
    /// count isn't a single `integer` or `unsigned integer` field of the type, `CountDefault` at
    /// the first count whose default isn't 0, `Limit(Nesting, n)` where the type nests deeper than
    /// 16. `Memory` where the fields could not be stored.
    #[tactic(auto, unfolding(crate::specs::Parts::ended_type))]
    pub fn end_fields(
        &self,
        alloc: Global,
        name: Name,
        room: u32,
        drafts: &[DraftField],
    ) -> Result<RecordType, LayoutFault>
        requires { length drafts.now ≤ 1024 }
        ensures value { Gives (λ made. made) result
            (ended_type self.now.types name room drafts.now) }
        ensures number { IfOk result (λ made. length made.fields ≡ length drafts.now) }
    {
        let number = self.number();
        let fields = counted_fields(alloc, number, drafts)?;
        let record_type = RecordType {
            name,
            length: room,
            fields: Fields::from_vec(fields),
        };
        refuse_count_default(number, &record_type)?;
        refuse_nesting(&record_type, self.types(), self.depths())?;
        Ok(record_type)
    }

    /// Puts a type behind the others. `Memory` where it could not be stored; the types are then as
    /// they were.
    pub fn push(&mut self, record_type: RecordType) -> Result<(), LayoutFault>
        requires room { length self.old.types < 64 }
        requires follows { MayFollow self.old.pointer self.old.types record_type }
        ensures pushed { IfOk result (λ _. self.new
            ≡ so_far self.old.pointer (self.old.types ++ record_type ∷ [])) }
        ensures kept { IfErr result (λ fault. (fault ≡ Memory) × (self.new ≡ self.old)) }
        ensures laid { AreLaid self.new.pointer self.new.types }
    {
        let number = self.types.len();
        let fields = record_type.fields.as_slice();
        let count = fields.len() as u32;
        let depth = depth_behind(fields, self.depths());
        self.types.push(record_type)?;
        self.depths[number] = depth;
        self.fields += count;
        Ok(())
    }

    /// The format of these types, of which the last is the record. `Memory` where what it keeps of
    /// each type beside its fields could not be stored.
    pub fn into_format(self, alloc: Global, order: Order) -> Result<Format, evp_base::Memory>
        requires { 1 ≤ length self.types }
        ensures value { IfOk result (λ format. format ≡ layout_with order self.pointer self.types) }
        ensures laid { IfOk result IsWellLaid }
    {
        Format::new(alloc, order, self.pointer, self.types)
    }
}
