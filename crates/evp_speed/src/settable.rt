//! Fields that a transform may set.

ghost use Rattle.std.specs.Prelude.{◌≡◌, ◌≢◌, ℕ, Some, IsTrue, slice_get};
ghost use Rattle.evp_action.specs.Agreement.{IsSettable};
ghost use Rattle.evp_format.specs.declared.field.Field.{Field};
ghost use Rattle.evp_format.specs.declared.field.Shape.TheVariants.{Counted};

use evp_format::{Base, Field, Format, Shape};

/// Whether the field of this number of the record is a single number, and no array's count.
pub fn is_settable(format: &Format, number: u16) -> bool
    ensures { IsTrue result → IsSettable format.now number }
{
    let fields = format.root().fields.as_slice();
    let Some(field) = fields.get(usize::from(number)) else {
        return false;
    };
    match field.shape {
        Shape::One => {}
        Shape::Fixed(_) | Shape::Counted(_) => return false,
    }
    match field.base {
        Base::Number(_) => counts_none(fields, number),
        Base::Text | Base::Nested(_) => false,
    }
}

// Whether no array's count is the field of this number.
fn counts_none(fields: &[Field], number: u16) -> bool
    ensures { IsTrue result → (k : ℕ) (other : Field) → slice_get fields.now k ≡ Some other
        → other.shape ≢ Counted number }
{
    for field in fields {
        match field.shape {
            Shape::Counted(count) => {
                if count == number {
                    return false;
                }
            }
            Shape::One | Shape::Fixed(_) => {}
        }
    }
    true
}
