//! Seats, rotas, and jobs that workers carry, by their reports.

mod carried;
mod jobs;
mod meeting;
mod rotas;
mod turns;

use jobs::job_of;
use std::alloc::{AllocError, Global};

// Files of one number x of four bytes, little: its description, and its records.
const ONE: &[u8] =
    b"NDR1F\0\0\0\x22NDF1\0\x04\0\x01\x01p\0\0\0\x04\0\x01\x01x\x07integer\0\0\0\x04\0\0\0\0\
    R\0\0\0\0\0\x04\x07\0\0\0E";

const FIVE: &[u8] =
    b"NDR1F\0\0\0\x22NDF1\0\x04\0\x01\x01p\0\0\0\x04\0\x01\x01x\x07integer\0\0\0\x04\0\0\0\0\
    R\0\0\0\0\0\x04\x01\0\0\0R\0\0\0\0\0\x04\x02\0\0\0R\0\0\0\0\0\x04\x03\0\0\0\
    R\0\0\0\0\0\x04\x04\0\0\0R\0\0\0\0\0\x04\x05\0\0\0E";

// A document up to its stones, whose format has x of eight bytes.
const WIDE: &str =
    "\"formats\":[{\"name\":\"q\",\"profile\":\"be64\",\"types\":[{\"name\":\"q\",\"fields\":\
    [[\"x\",\"integer\",8]]}]}],\
    \"sources\":[{\"name\":\"a\",\"file\":\"a.ndr\",\"stone\":0}],\"stones\":";

// Stones: a terminal, and a split to two filters that lead to one terminal.
const TERMINAL: &str = "[{\"kind\":\"terminal\",\"format\":\"q\"}]";

const DIAMOND: &str = "[{\"kind\":\"split\",\"targets\":[1,2]},\
    {\"kind\":\"filter\",\"format\":\"q\",\"expr\":\"x > 1\",\"target\":3},\
    {\"kind\":\"filter\",\"format\":\"q\",\"expr\":\"x < 5\",\"target\":3},\
    {\"kind\":\"terminal\",\"format\":\"q\"}]";

// A document of these parts.
fn document_of(
    alloc: Global,
    queue: &str,
    stones: &str,
    rounds: &str,
) -> Result<String, AllocError> {
    format!(in alloc; "{{{queue}{WIDE}{stones},\"rounds\":[{rounds}]}}")
}
