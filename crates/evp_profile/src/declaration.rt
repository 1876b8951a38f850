//! What is declared of a format.

/// A declared field.
#[derive(Debug, Drop)]
pub struct Decl {
    /// 1 to 64 letters, digits and `_`, the first no digit; no earlier field of the type has it.
    pub name: String,
    /// `integer`, `unsigned integer`, `char`, `boolean`, `enumeration`, `string` or the name of an
    /// earlier type, and behind it nothing, `[N]` with N from 1 to 65,536, or `[name]` with the
    /// name of the field that counts the elements.
    pub type_text: String,
    /// Bytes of a number or of an array's element; ignored for strings and nested records.
    pub size: u32,
    /// The default: 0, unless the field is a single number that counts nothing.
    pub fallback: i128,
}

/// A declared record type.
#[derive(Debug, Drop)]
pub struct TypeDecl {
    /// As a field's; no reserved word, and no earlier type has it.
    pub name: String,
    /// 1 to 1,024 fields.
    pub fields: Vec<Decl>,
}
