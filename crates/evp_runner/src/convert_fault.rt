//! Why a record isn't converted.

use evp_format::Place;

/// Why a record isn't converted: the first fault, with its place in the receiver's format.
#[derive(Debug, Drop)]
pub enum ConvertFault {
    /// A number that isn't in the range of the receiver's field, or a list whose length isn't the
    /// receiver's.
    Unfit(Place),
    /// A text or a list whose block makes the packed size pass the limit; the record itself where
    /// its fixed part passes it.
    Large(Place),
}
