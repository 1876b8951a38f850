//! The walk of a record: fields as listed, elements by index. Each block starts at or after the
//! mark, which then moves to the block's end.

ghost use Rattle.std.specs.Prelude.{◌≡◌, ◌+◌, ◌*◌, ◌^◌, ◌≤◌, ◌<◌, [], ◌∷◌, ◌++◌, length, Some};
ghost use Rattle.std.specs.Prelude.{IsSome, IfOk};
ghost use Rattle.evp_format.specs.Tree.{tree_of, length_of};
ghost use Rattle.evp_format.specs.WellLaid.{IsWellLaid, HasBaseSize, depth, part_depth};
ghost use Rattle.evp_record.specs.Class.{field_at};
ghost use Rattle.evp_record.specs.Marks.{marked};
ghost use Rattle.evp_record.specs.Walks.{is_plain, part_in, walk_field, walk_part, walk_elements};
ghost use Rattle.evp_record.specs.Walks.{walk_counted, walk_record, walk_text, IsCountedAt};
ghost use Rattle.evp_format.specs.declared.place.PlaceStep.{PlaceStep};
ghost use Rattle.evp_format.specs.declared.field.Field.{Field};

use crate::Spot;
use crate::fields::{count_at, field_at};
use crate::words::{pointer_at, zero_at};
use evp_format::{Base, Broken, Field, Format, Place, PlaceStep, Shape};

// A record's bytes, fewer than 2^32, and its format.
#[derive(Drop)]
pub(crate) struct Walk<'a> {
    pub(crate) format: &'a Format,
    pub(crate) bytes: &'a [u8],
}

impl<'a> Walk<'a> {
    // The mark behind the record at the spot.
    #[cycle(walk)]
    pub(crate) fn record(&self, spot: Spot, place: &Place, mark: usize) -> Result<usize, Broken>
        requires laid { IsWellLaid self.now.format.now }
        requires short { length self.now.bytes.now < 2 ^ 32 }
        requires type_there { spot.type_number < length self.now.format.now.types }
        requires inside { spot.at + length_of (tree_of self.now.format.now spot.type_number)
            ≤ length self.now.bytes.now }
        requires room { length place.now + 2 * depth (tree_of self.now.format.now spot.type_number)
            ≤ 32 }
        requires mark_in { mark ≤ length self.now.bytes.now }
        ensures value { result ≡ marked
            (walk_record self.now.format.now self.now.bytes.now spot place.now mark) }
        ensures mark_in { IfOk result (λ end. end ≤ length self.now.bytes.now) }
    {
        let fields = self.format.types()[usize::from(spot.type_number)]
            .fields
            .as_slice();
        let mut mark = mark;
        for index in 0..fields.len() {
            mark = self.field(spot, index as u16, place, mark)?;
        }
        Ok(mark)
    }

    // The mark behind the field of this number of the record at the spot.
    #[cycle(walk)]
    fn field(&self, spot: Spot, index: u16, place: &Place, mark: usize) -> Result<usize, Broken>
        requires laid { IsWellLaid self.now.format.now }
        requires short { length self.now.bytes.now < 2 ^ 32 }
        requires field_there { IsSome (field_at self.now.format.now spot.type_number index) }
        requires inside { spot.at + length_of (tree_of self.now.format.now spot.type_number)
            ≤ length self.now.bytes.now }
        requires room { length place.now + 2 * depth (tree_of self.now.format.now spot.type_number)
            ≤ 32 }
        requires mark_in { mark ≤ length self.now.bytes.now }
        ensures value { (field : Field) →
            field_at self.now.format.now spot.type_number index ≡ Some field →
            result ≡ marked
            (walk_field self.now.format.now self.now.bytes.now spot field
            (place.now ++ PlaceStep.At index ∷ []) mark) }
        ensures mark_in { IfOk result (λ end. end ≤ length self.now.bytes.now) }
    {
        let field = field_at(self.format, spot.type_number, index);
        let at = spot.at as usize + field.offset as usize;
        let step = PlaceStep::At(index);
        match field.shape {
            Shape::One => self.part(field, at, place, step, mark),
            Shape::Fixed(count) => { self.elements(field, at, count, &place.with(step), mark) }
            Shape::Counted(count) => { self.counted(spot, field, count, place.with(step), mark) }
        }
    }

    // The mark behind a counted array of the record at the spot.
    #[cycle(walk)]
    fn counted(
        &self,
        spot: Spot,
        field: &Field,
        count: u16,
        place: Place,
        mark: usize,
    ) -> Result<usize, Broken>
        requires laid { IsWellLaid self.now.format.now }
        requires short { length self.now.bytes.now < 2 ^ 32 }
        requires counted { IsCountedAt self.now.format.now spot.type_number field.now count }
        requires inside { spot.at + length_of (tree_of self.now.format.now spot.type_number)
            ≤ length self.now.bytes.now }
        requires room { length place + 2 * part_depth (part_in self.now.format.now field.now) < 32 }
        requires mark_in { mark ≤ length self.now.bytes.now }
        ensures value { result ≡ marked
            (walk_counted self.now.format.now self.now.bytes.now spot field.now count place mark) }
        ensures mark_in { IfOk result (λ end. end ≤ length self.now.bytes.now) }
    {
        let number = count_at(self.format, self.bytes, spot, count);
        if number < 0 {
            return Err(Broken::NegativeCount(place));
        }
        let length = number as u64;
        if length == 0 {
            return Ok(mark);
        }
        let from = pointer_at(
            self.format,
            self.bytes,
            spot.at as usize + field.offset as usize,
        );
        if from == 0 {
            return Err(Broken::NullList(place));
        }
        let end = from as u128 + u128::from(length) * u128::from(field.size);
        if from < mark || end > self.bytes.len() as u128 {
            return Err(Broken::BlockPlace(place));
        }
        self.elements(field, from, length as u32, &place, end as usize)
    }

    // The mark behind this many elements, of which the first stands at `from`.
    #[cycle(walk)]
    fn elements(
        &self,
        field: &Field,
        from: usize,
        count: u32,
        place: &Place,
        mark: usize,
    ) -> Result<usize, Broken>
        requires laid { IsWellLaid self.now.format.now }
        requires short { length self.now.bytes.now < 2 ^ 32 }
        requires sized { HasBaseSize self.now.format.now.pointer self.now.format.now.types
            field.now.base field.now.size }
        requires inside { from + count * field.now.size ≤ length self.now.bytes.now }
        requires room { length place.now + 2 * part_depth (part_in self.now.format.now field.now)
            < 32 }
        requires mark_in { mark ≤ length self.now.bytes.now }
        ensures value { result ≡ marked
            (walk_elements self.now.format.now self.now.bytes.now field.now
            from place.now count 0 mark) }
        ensures mark_in { IfOk result (λ end. end ≤ length self.now.bytes.now) }
    {
        if self.is_plain(field) {
            return Ok(mark);
        }
        let mut mark = mark;
        for index in 0..count {
            let at = from + index as usize * field.size as usize;
            mark = self.part(field, at, place, PlaceStep::Nth(index), mark)?;
        }
        Ok(mark)
    }

    // The mark behind the number, text or record at `at`, which is one step from the place.
    #[cycle(walk)]
    fn part(
        &self,
        field: &Field,
        at: usize,
        place: &Place,
        step: PlaceStep,
        mark: usize,
    ) -> Result<usize, Broken>
        requires laid { IsWellLaid self.now.format.now }
        requires short { length self.now.bytes.now < 2 ^ 32 }
        requires sized { HasBaseSize self.now.format.now.pointer self.now.format.now.types
            field.now.base field.now.size }
        requires inside { at + field.now.size ≤ length self.now.bytes.now }
        requires room { length place.now + 2 * part_depth (part_in self.now.format.now field.now)
            < 32 }
        requires mark_in { mark ≤ length self.now.bytes.now }
        ensures value { result ≡ marked
            (walk_part self.now.format.now self.now.bytes.now field.now
            at (place.now ++ step ∷ []) mark) }
        ensures mark_in { IfOk result (λ end. end ≤ length self.now.bytes.now) }
    {
        if self.is_plain(field) {
            return Ok(mark);
        }
        match field.base {
            Base::Number(_) => unreachable!(),
            Base::Text => self.text(at, place, step, mark),
            Base::Nested(type_number) => {
                let spot = Spot {
                    type_number,
                    at: at as u32,
                };
                self.record(spot, &place.with(step), mark)
            }
        }
    }

    // Whether nothing inside an element of the field can fail, since it has no pointer.
    fn is_plain(&self, field: &Field) -> bool
        requires { HasBaseSize self.now.format.now.pointer self.now.format.now.types
            field.now.base field.now.size }
        ensures { result ≡ is_plain self.now.format.now field.now.base }
    {
        match field.base {
            Base::Number(_) => true,
            Base::Text => false,
            Base::Nested(type_number) => self.format.leads(type_number).is_empty(),
        }
    }

    // The mark behind the string whose pointer stands at `at`, one step from the place.
    fn text(&self, at: usize, place: &Place, step: PlaceStep, mark: usize) -> Result<usize, Broken>
        requires laid { IsWellLaid self.now.format.now }
        requires inside { at + self.now.format.now.pointer ≤ length self.now.bytes.now }
        requires room { length place.now < 32 }
        requires mark_in { mark ≤ length self.now.bytes.now }
        ensures value { result ≡ marked
            (walk_text self.now.format.now self.now.bytes.now at (place.now ++ step ∷ []) mark) }
        ensures mark_in { IfOk result (λ end. end ≤ length self.now.bytes.now) }
    {
        let from = pointer_at(self.format, self.bytes, at);
        if from == 0 {
            return Ok(mark);
        }
        if from < mark || from >= self.bytes.len() {
            return Err(Broken::BlockPlace(place.with(step)));
        }
        match zero_at(&self.bytes[from..]) {
            Some(length) => Ok(from + length + 1),
            None => Err(Broken::NoEnd(place.with(step))),
        }
    }
}
