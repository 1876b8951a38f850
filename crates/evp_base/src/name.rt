//! The names of record types, fields, sources and stones.

ghost use Rattle.std.specs.Prelude.{◌≡◌, ◌≤◌, ◌↔◌, refl, length, Some, IsTrue, SomeIff, nat_eq};
ghost use Rattle.std.specs.List.{list_all};
ghost use Rattle.std.specs.Ordering.{nat_cmp};
ghost use Rattle.std.specs.Cmp.Lexicographic.{pointwise, slice_cmp, nat_list_eq_equiv};
ghost use Rattle.std.specs.Cmp.Lexicographic.{nat_list_cmp_total, texts_ties, texts_po};
ghost use Rattle.std.specs.Cmp.{partial_equiv_from_equiv};
ghost use Rattle.evp_base.specs.Name.{is_name, begins_name, continues_name, padded};

use std::cmp::Ordering;
use std::fmt;
use std::marker::Model;

/// The most bytes of a name.
const LONGEST: usize = 64;

/// A name: 1 to 64 bytes, a letter or `_`, then letters, digits or `_`, all ASCII. Names compare
/// as their bytes do.
#[derive(Clone, Copy, Debug)]
pub struct Name {
    // the name, then zeros
    bytes: [u8; LONGEST],
    used: u8,
}

impl Model for Name {
    ghost use Rattle.std.specs.Prelude.{ℕ, List, take};
    ghost use Rattle.evp_base.specs.Name.{IsPadded};

    ghost Value = { List ℕ };

    ghost use Rattle.evp_base.specs.NameFields.{fields_of, fields_of-take};

    ghost view = { λ n. take n.used n.bytes };

    ghost invariant = { λ n. IsPadded n.used n.bytes };

    ghost inverse = { fields_of };

    ghost inverse_ok = { fields_of-take };
}

impl Name {
    /// The name of these bytes, or None exactly where they aren't one. Takes no memory.
    pub fn read(text: &[u8]) -> Option<Self>
        ensures { SomeIff result (IsTrue (is_name text.now)) text.now }
    {
        if !is_name(text) {
            return None;
        }
        Some(Name {
            bytes: padded(text),
            used: text.len() as u8,
        })
    }

    /// The bytes of the name.
    pub fn as_bytes(&self) -> &[u8]
        ensures value { result.now ≡ self.now }
        ensures name { IsTrue (is_name self.now) }
    {
        &self.bytes[..usize::from(self.used)]
    }

    /// The name as text.
    pub fn as_str(&self) -> &str
        ensures { result.now ≡ self.now }
    {
        match std::str::from_utf8(self.as_bytes()) {
            Ok(text) => text,
            Err(_) => unreachable!(),
        }
    }
}

impl PartialEq for Name {
    ghost eq = { pointwise nat_eq };

    ghost laws = { partial_equiv_from_equiv nat_list_eq_equiv };

    fn eq(&self, other: &Name) -> bool
        ensures value { result ≡ pointwise nat_eq self.now other.now }
        ensures same { IsTrue result ↔ (self.now ≡ other.now) }
    {
        self.as_bytes() == other.as_bytes()
    }
}

impl Eq for Name {
    ghost laws = { nat_list_eq_equiv };
}

impl Ord for Name {
    ghost cmp = { slice_cmp nat_cmp };

    ghost total = { nat_list_cmp_total };

    ghost matches_partial_cmp = { λ _ _. refl };

    ghost matches_eq = { texts_ties };

    fn cmp(&self, other: &Name) -> Ordering {
        self.as_bytes().cmp(other.as_bytes())
    }
}

impl PartialOrd for Name {
    ghost partial_cmp = { λ name other. Some (slice_cmp nat_cmp name other) };

    ghost laws = { texts_po };

    fn partial_cmp(&self, other: &Name) -> Option<Ordering> {
        Some(self.cmp(other))
    }
}

impl fmt::Display for Name {
    ghost output = { λ name. Some name };

    fn fmt<W: fmt::Write>(&self, f: &mut fmt::Formatter<W>) -> fmt::Result {
        f.write_str(self.as_str())
    }
}

// The bytes, then zeros.
fn padded(text: &[u8]) -> [u8; LONGEST]
    requires { length text.now ≤ LONGEST }
    ensures { result ≡ padded text.now }
{
    let mut bytes = [0; LONGEST];
    bytes[..text.len()].copy_from_slice(text);
    bytes
}

/// Whether the byte may begin a name: an ASCII letter or `_`.
pub fn begins_name(byte: u8) -> bool
    ensures { result ≡ begins_name byte }
{
    byte.is_ascii_alphabetic() || byte == b'_'
}

/// Whether the byte may stand behind the first of a name: an ASCII letter, a digit or `_`.
pub fn continues_name(byte: u8) -> bool
    ensures { result ≡ continues_name byte }
{
    begins_name(byte) || byte.is_ascii_digit()
}

// Whether each byte may stand behind the first of a name.
fn all_continue(bytes: &[u8]) -> bool
    ensures { result ≡ list_all continues_name bytes.now }
{
    bytes.iter().all(|byte| continues_name(*byte))
}

// Whether the bytes are a name.
fn is_name(text: &[u8]) -> bool
    ensures { result ≡ is_name text.now }
{
    match text.split_first() {
        Some((first, others)) => {
            begins_name(*first) && others.len() < LONGEST && all_continue(others)
        }
        None => false,
    }
}
