//! When two values are the same.

ghost use Rattle.std.specs.Prelude.{◌≡◌, ◌↔◌, IsTrue, nat_eq};
ghost use Rattle.std.specs.Cmp.{partial_equiv_from_equiv};
ghost use Rattle.std.specs.Cmp.Lexicographic.{pointwise, nat_list_eq_equiv};
ghost use Rattle.evp_format.specs.ValueEquality.{datum_eq, elements_eq, entries_eq};
ghost use Rattle.evp_format.specs.ValueEquality.{value_eq, items_eq, members_eq};
ghost use Rattle.evp_format.specs.ValueEqualities.{value_eq-equivalence};
ghost use Rattle.evp_format.specs.ValueEqualities.{items_eq-equivalence, members_eq-equivalence};
ghost use Rattle.evp_format.specs.ValueView.{datum_of, items_of, members_of};
ghost use Rattle.evp_format.specs.ValueView.{elements_of_values, entries_of_pairs};

use crate::{Items, Members, TextBytes, Value};
use evp_base::Name;

impl PartialEq for TextBytes {
    ghost eq = { pointwise nat_eq };

    ghost laws = { partial_equiv_from_equiv nat_list_eq_equiv };

    /// Whether the bytes are the same. Takes no memory.
    fn eq(&self, other: &TextBytes) -> bool
        ensures value { result ≡ pointwise nat_eq self.now other.now }
        ensures same { IsTrue result ↔ (self.now ≡ other.now) }
    {
        self.as_slice() == other.as_slice()
    }
}

impl Eq for TextBytes {
    ghost laws = { nat_list_eq_equiv };
}

impl PartialEq for Value {
    ghost eq = { value_eq };

    ghost laws = { partial_equiv_from_equiv value_eq-equivalence };

    /// Whether the two are the same. Takes no memory; it calls itself once for each level.
    fn eq(&self, other: &Value) -> bool
        ensures value { result ≡ value_eq self.now other.now }
        ensures same { IsTrue result ↔ (datum_of self.now ≡ datum_of other.now) }
    {
        same_value(self, other)
    }
}

impl Eq for Value {
    ghost laws = { value_eq-equivalence };
}

impl PartialEq for Items {
    ghost eq = { items_eq };

    ghost laws = { partial_equiv_from_equiv items_eq-equivalence };

    /// Whether the elements are the same, in the same order. Takes no memory.
    fn eq(&self, other: &Items) -> bool
        ensures value { result ≡ items_eq self.now other.now }
        ensures same { IsTrue result ↔ (items_of self.now ≡ items_of other.now) }
    {
        same_elements(self.values.as_slice(), other.values.as_slice())
    }
}

impl Eq for Items {
    ghost laws = { items_eq-equivalence };
}

impl PartialEq for Members {
    ghost eq = { members_eq };

    ghost laws = { partial_equiv_from_equiv members_eq-equivalence };

    /// Whether names and values are the same, in the same order. Takes no memory.
    fn eq(&self, other: &Members) -> bool
        ensures value { result ≡ members_eq self.now other.now }
        ensures same { IsTrue result ↔ (members_of self.now ≡ members_of other.now) }
    {
        same_entries(self.pairs.as_slice(), other.pairs.as_slice())
    }
}

impl Eq for Members {
    ghost laws = { members_eq-equivalence };
}

// Whether the two are the same.
#[cycle(same)]
fn same_value(value: &Value, other: &Value) -> bool
    ensures { result ≡ datum_eq (datum_of value.now) (datum_of other.now) }
{
    match (value, other) {
        (Value::Num(number), Value::Num(other)) => number == other,
        (Value::Null, Value::Null) => true,
        (Value::Text(text), Value::Text(other)) => text == other,
        (Value::List(items), Value::List(others)) => {
            same_elements(items.values.as_slice(), others.values.as_slice())
        }
        (Value::Rec(members), Value::Rec(others)) => {
            same_entries(members.pairs.as_slice(), others.pairs.as_slice())
        }
        _ => false,
    }
}

// Whether the elements are the same, in the same order.
#[cycle(same)]
fn same_elements(values: &[Value], others: &[Value]) -> bool
    ensures { result
        ≡ elements_eq (elements_of_values values.now) (elements_of_values others.now) }
{
    if values.len() != others.len() {
        return false;
    }
    for (k, value) in values.iter().enumerate() {
        if !same_value(value, &others[k]) {
            return false;
        }
    }
    true
}

// Whether the names and values are the same, in the same order.
#[cycle(same)]
fn same_entries(pairs: &[(Name, Value)], others: &[(Name, Value)]) -> bool
    ensures { result ≡ entries_eq (entries_of_pairs pairs.now) (entries_of_pairs others.now) }
{
    if pairs.len() != others.len() {
        return false;
    }
    for (k, pair) in pairs.iter().enumerate() {
        let other = &others[k];
        if pair.0 != other.0 {
            return false;
        }
        if !same_value(&pair.1, &other.1) {
            return false;
        }
    }
    true
}
