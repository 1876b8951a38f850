//! What a sender's value has for a receiver's field.

ghost use Rattle.std.specs.Prelude.{◌≡◌, IfSome, option_map};
ghost use Rattle.evp_format.specs.Datum.{named, entries_of, elements_of};
ghost use Rattle.evp_format.specs.Converting.{number_or_default};
ghost use Rattle.evp_format.specs.Text.{HasNoZero};
ghost use Rattle.evp_format.specs.ValueView.{datum_of, elements_of_values, entries_of_pairs};
ghost use Rattle.evp_value.specs.Making.{text_of};

use evp_base::Name;
use evp_format::Value;

// The value of this name: the first, where there is one.
pub(crate) fn value_named(pairs: &[(Name, Value)], name: Name) -> Option<&Value>
    ensures { option_map (λ value. datum_of value.now) result
        ≡ named name (entries_of_pairs pairs.now) }
{
    for pair in pairs {
        if name == pair.0 {
            return Some(&pair.1);
        }
    }
    None
}

// The partner's number, or the stated default.
pub(crate) fn number_or_default(partner: Option<&Value>, fallback: i128) -> i128
    ensures { result ≡ number_or_default (option_map (λ value. datum_of value.now) partner.entry)
        fallback }
{
    match partner {
        Some(Value::Num(number)) => *number,
        _ => fallback,
    }
}

// The bytes of a text, or `None` where there is none.
pub(crate) fn text_in(partner: Option<&Value>) -> Option<&[u8]>
    ensures value { option_map (λ bytes. bytes.now) result
        ≡ text_of (option_map (λ value. datum_of value.now) partner.entry) }
    ensures no_zero { IfSome result (λ bytes. HasNoZero bytes.now) }
{
    match partner {
        Some(Value::Text(text)) => Some(text.as_slice()),
        _ => None,
    }
}

// The partner's elements, or `None` where it is no list.
pub(crate) fn elements_in(partner: Option<&Value>) -> Option<&[Value]>
    ensures { option_map (λ values. elements_of_values values.now) result
        ≡ elements_of (option_map (λ value. datum_of value.now) partner.entry) }
{
    match partner {
        Some(value) => value.elements(),
        None => None,
    }
}

// The partner's fields; none where it is no record.
pub(crate) fn entries_in(partner: Option<&Value>) -> &[(Name, Value)]
    ensures { entries_of_pairs result.now ≡
        entries_of (option_map (λ value. datum_of value.now) partner.entry) }
{
    match partner {
        Some(value) => value.entries(),
        None => &[],
    }
}
