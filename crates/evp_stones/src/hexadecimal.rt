//! Digests, as lines write them.
ghost use Rattle.hex.specs.Hex.{encode_lower};
ghost use Rattle.evp_report.specs.Passing.{Passes};

use evp_depot::{PutFault, Sink};
use evp_report::Pieces;
use hex::encode_to_slice;

/// Hands on a digest, in lower case hexadecimal digits. It takes no memory.
pub fn put_hexadecimal<K: Sink>(
    pieces: &mut Pieces,
    sink: &mut K,
    digest: &[u8; 32],
) -> Result<(), PutFault>
    ensures { Passes K.faults K.put sink.old sink.new pieces.old pieces.new
        (encode_lower digest.now) result }
{
    let mut digits = [0; 64];
    match encode_to_slice(&digest[..], &mut digits[..]) {
        Ok(()) => pieces.put(sink, &digits[..]),
        Err(_) => unreachable!(),
    }
}
