//! How the elements of an array are made.
ghost use Rattle.std.specs.Prelude.{◌≡◌, ◌*◌, ◌<◌, ◌≤◌, true, length, take};
ghost use Rattle.evp_wide.specs.Masks.{are_within, repeated};

/// How each element of an answer is made from one of another size: by the mask's first places,
/// which come again for each further element in sixteen bytes of the answer.
#[derive(Clone, Copy)]
pub(crate) struct Mover {
    pub(crate) out_size: usize,
    pub(crate) from_size: usize,
    /// How many elements there are in sixteen bytes of the answer.
    pub(crate) count: usize,
    pub(crate) mask: [u8; 16],
    ghost sixteen: { length mask ≡ 16 },
    ghost whole: { count * out_size ≡ 16 },
    ghost some: { 0 < from_size },
    ghost shorter: { from_size ≤ out_size },
    ghost within: { are_within from_size (take out_size mask) ≡ true },
    ghost repeats: { mask ≡ repeated count from_size (take out_size mask) },
}
