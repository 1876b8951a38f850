//! Identifiers of formats.

ghost use Rattle.std.specs.Prelude.{◌≡◌, IfOk};
ghost use Rattle.sha2.specs.Sha256.{sha256};
ghost use Rattle.evp_format.specs.Describing.{describe};

use crate::{Format, write_description};
use evp_base::Memory;
use sha2::{Digest, Sha256};
use std::alloc::Global;

/// The identifier of a format: the SHA-256 (FIPS 180-4) of its description.
#[derive(Clone, Copy, Debug, PartialEq, Eq)]
pub struct FormatId(pub [u8; 32]);

/// The identifier of the format.
pub fn id_of(alloc: Global, format: &Format) -> Result<FormatId, Memory>
    ensures { IfOk result (λ id. id.0 ≡ sha256 (describe format.now)) }
{
    let description = write_description(alloc, format)?;
    Ok(FormatId(Sha256::digest(description.as_slice())))
}
