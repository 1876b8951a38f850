//! Formats from short texts.

ghost use Rattle.std.specs.Prelude.{◌≡◌};
ghost use Rattle.std.specs.List.{list_all};
ghost use Rattle.evp_plain.specs.Few.{has_few_fields};
ghost use Rattle.evp_plain.specs.declared.declared.DeclaredFault.TheVariants.{Memory};

use evp_format::{Format, LayoutFault};
use evp_profile::{Decl, Profile, TypeDecl, lay_out};
use std::alloc::{AllocError, AllocFailed, Global};
use std::error::Error;
use std::fmt;

/// More than any declared list has.
const LIMIT: usize = 65_536;

/// Why a text has no format.
#[derive(Debug, Drop)]
pub enum DeclaredFault {
    /// The text doesn't have the form, or declares far too much.
    Unread,
    /// The declarations have a fault.
    Layout(LayoutFault),
    /// Memory ran out.
    Memory,
}

/// The format that a text declares: a profile's word, and types, as in
/// `le64 e{k integer 8, s string} r{p e[2], n integer 4 = 5}`. A field is its name, its type's text,
/// its size where that isn't ignored, and its default where that isn't 0.
pub fn format_of(alloc: Global, text: &str) -> Result<Format, DeclaredFault> {
    let (word, declared) = text.split_once(' ').ok_or(DeclaredFault::Unread)?;
    let profile = profile_of(word).ok_or(DeclaredFault::Unread)?;
    let types = types_of(alloc, declared)?;
    laid_out(alloc, profile, &types)
}

// The format of these types.
fn laid_out(alloc: Global, profile: Profile, types: &[TypeDecl]) -> Result<Format, DeclaredFault> {
    if types.len() >= LIMIT || !have_few_fields(types) {
        return Err(DeclaredFault::Unread);
    }
    match lay_out(alloc, profile, types) {
        Ok(format) => Ok(format),
        Err(LayoutFault::Memory) => Err(DeclaredFault::Memory),
        Err(fault) => Err(DeclaredFault::Layout(fault)),
    }
}

// The profile of a word.
fn profile_of(word: &str) -> Option<Profile> {
    match word {
        "le64" => Some(Profile::Le64),
        "le32" => Some(Profile::Le32),
        "be64" => Some(Profile::Be64),
        "be32" => Some(Profile::Be32),
        _ => None,
    }
}

// The declared types.
fn types_of(alloc: Global, text: &str) -> Result<Vec<TypeDecl>, DeclaredFault> {
    let mut types = Vec::new(alloc);
    for declared in text.split('}') {
        let declared = declared.trim();
        if !declared.is_empty() {
            types.push(type_of(alloc, declared)?)?;
        }
    }
    Ok(types)
}

// A declared type, without its last brace.
fn type_of(alloc: Global, text: &str) -> Result<TypeDecl, DeclaredFault> {
    let (name, declared) = text.split_once('{').ok_or(DeclaredFault::Unread)?;
    let mut fields = Vec::new(alloc);
    for field in declared.split(',') {
        fields.push(field_of(alloc, field.trim())?)?;
    }
    let name = String::from_str(alloc, name)?;
    Ok(TypeDecl { name, fields })
}

// A declared field.
fn field_of(alloc: Global, text: &str) -> Result<Decl, DeclaredFault> {
    let (name, sized) = text.split_once(' ').ok_or(DeclaredFault::Unread)?;
    let (sized, fallback) = match sized.split_once('=') {
        None => (sized, 0),
        Some((sized, number)) => {
            let Ok(fallback) = number.trim().parse::<i128>() else {
                return Err(DeclaredFault::Unread);
            };
            (sized.trim(), fallback)
        }
    };
    let (type_text, size) = with_size(sized);
    Ok(Decl {
        name: String::from_str(alloc, name)?,
        type_text: String::from_str(alloc, type_text)?,
        size,
        fallback,
    })
}

// A type's text, and the size behind it, or 0 where there is none.
fn with_size(text: &str) -> (&str, u32) {
    let Some((type_text, number)) = text.rsplit_once(' ') else {
        return (text, 0);
    };
    match number.parse::<u32>() {
        Ok(size) => (type_text, size),
        Err(_) => (text, 0),
    }
}

// Whether each type has fewer fields than the limit.
fn have_few_fields(types: &[TypeDecl]) -> bool
    ensures { result ≡ list_all has_few_fields types.now }
{
    types.iter().all(|declared| has_few_fields(declared))
}

fn has_few_fields(declared: &TypeDecl) -> bool
    ensures { result ≡ has_few_fields declared.now }
{
    declared.fields.len() < LIMIT
}

impl From<AllocError> for DeclaredFault {
    ghost from_gives = { λ _ fault. fault ≡ Memory };

    fn from(_error: AllocError) -> Self {
        DeclaredFault::Memory
    }
}

impl<T: Drop> From<AllocFailed<T>> for DeclaredFault {
    ghost from_gives = { λ _ fault. fault ≡ Memory };

    fn from(_error: AllocFailed<T>) -> Self {
        DeclaredFault::Memory
    }
}

impl fmt::Display for DeclaredFault {
    fn fmt<W: fmt::Write>(&self, f: &mut fmt::Formatter<W>) -> fmt::Result {
        match self {
            DeclaredFault::Unread => f.write_str("unread"),
            DeclaredFault::Layout(fault) => write!(f, "{fault}"),
            DeclaredFault::Memory => f.write_str("memory"),
        }
    }
}

impl Error for DeclaredFault {}
