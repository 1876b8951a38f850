//! The senders' files.

ghost use Rattle.std.specs.Prelude.{◌≡◌, ◌<◌, ◌≤◌, ◌^◌, ◌∷◌, ◌++◌, [], length, IfOk, OnOk, map};
ghost use Rattle.std.specs.Prelude.{string_bytes};
ghost use Rattle.std.specs.List.{flat_map, range_with_len};
ghost use Rattle.evp_file.specs.Frames.{item_bytes};
ghost use Rattle.evp_profile.specs.Declarations.{fields_declared, type_declared};
ghost use Rattle.evp_gen.specs.Senders.{declared_field, sent_declared, sent_layout, sent_item};
ghost use Rattle.evp_gen.specs.Senders.{sent_bytes};

use crate::records::pack_sent;
use evp_base::Memory;
use evp_file::{FileFormat, begin_file, end_file, put_record};
use evp_format::Format;
use evp_profile::{Decl, Profile, TypeDecl, lay_out};
use std::alloc::Global;

/// The most bytes of a record.
const LONGEST_RECORD: usize = 64;

/// The most bytes of a record's frame.
const LONGEST_FRAME: usize = 71;

/// The file of n records of the sender of this number, whose machine has this profile.
pub(crate) fn sent_bytes(
    alloc: Global,
    profile: Profile,
    sender: u32,
    n: u32,
) -> Result<Vec<u8>, Memory>
    requires sender { sender < 4 }
    requires few { n ≤ 20000 }
    ensures { IfOk result (λ bytes. bytes.items ≡ sent_bytes profile sender n) }
{
    let formats = [FileFormat::Own(sent_format(alloc, profile)?)];
    let mut out = begin_file(alloc, &[], &formats)?;
    put_records(&mut out, alloc, profile, sender, n)?;
    end_file(&mut out)?;
    Ok(out)
}

// The layout for the machine of this profile. It is laid out unless there is no memory.
fn sent_format(alloc: Global, profile: Profile) -> Result<Format, Memory>
    ensures { IfOk result (λ format. format ≡ sent_layout profile) }
{
    let types = [sent_type(alloc)?];
    match lay_out(alloc, profile, &types) {
        Ok(format) => Ok(format),
        Err(_) => Err(Memory),
    }
}

// The type that each sender declares.
fn sent_type(alloc: Global) -> Result<TypeDecl, Memory>
    ensures value { IfOk result (λ declared. type_declared declared ≡ sent_declared) }
    ensures few { IfOk result (λ declared. length declared.fields.items < 2 ^ 32) }
{
    let name = String::from_str(alloc, "s")?;
    let mut fields = Vec::new(alloc);
    push_field(&mut fields, alloc, "id", "unsigned integer", 4)?;
    push_field(&mut fields, alloc, "x", "integer", 4)?;
    push_field(&mut fields, alloc, "tag", "string", 0)?;
    push_field(&mut fields, alloc, "n", "integer", 4)?;
    push_field(&mut fields, alloc, "v", "integer[n]", 2)?;
    Ok(TypeDecl { name, fields })
}

// Adds a field without a default at the end.
fn push_field(
    fields: &mut Vec<Decl>,
    alloc: Global,
    name: &str,
    type_text: &str,
    size: u32,
) -> Result<(), Memory>
    ensures { OnOk result (fields_declared fields.new.items
        ≡ fields_declared fields.old.items ++ declared_field name.now type_text.now size ∷ []) }
{
    let name = String::from_str(alloc, name)?;
    let type_text = String::from_str(alloc, type_text)?;
    fields.push(Decl {
        name,
        type_text,
        size,
        fallback: 0,
    })?;
    Ok(())
}

// The frames of the sender's records.
fn put_records(
    out: &mut Vec<u8>,
    alloc: Global,
    profile: Profile,
    sender: u32,
    n: u32,
) -> Result<(), Memory>
    requires sender { sender < 4 }
    requires few { n ≤ 20000 }
    ensures { OnOk result
        (out.new.items ≡ out.old.items ++ flat_map item_bytes
        (map (sent_item (sent_layout profile) sender) (range_with_len 0 n))) }
{
    out.reserve(n as usize * LONGEST_FRAME)?;
    let mut packed = Vec::with_capacity(alloc, LONGEST_RECORD)?;
    for index in 0..n {
        put_sent(out, &mut packed, profile, sender, index)?;
    }
    Ok(())
}

// The frame of one record, which is packed into that room.
fn put_sent(
    out: &mut Vec<u8>,
    packed: &mut Vec<u8>,
    profile: Profile,
    sender: u32,
    index: u32,
) -> Result<(), Memory>
    requires sender { sender < 4 }
    requires index { index < 20000 }
    ensures { OnOk result (out.new.items ≡ out.old.items
        ++ item_bytes (sent_item (sent_layout profile) sender index)) }
{
    pack_sent(packed, profile, sender, index)?;
    put_record(out, 0, packed.as_slice())
}
