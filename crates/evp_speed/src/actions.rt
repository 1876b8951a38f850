//! The actions of a monitoring job, and the readings that come to its stones.

ghost use Rattle.std.specs.Prelude.{◌≡◌, ◌<◌, ◌^◌, IfOk, IsTrue, All, length};
ghost use Rattle.std.specs.Arc.{arc_value};
ghost use Rattle.evp_action.specs.Agreement.{Agrees};
ghost use Rattle.evp_cache.specs.Known.{IsCacheOf};
ghost use Rattle.evp_record.specs.Owned.{owned_of, HasValueIn};

use crate::conversion::LIMIT;
use crate::random::Random;
use crate::record_bytes::{align, push_number, push_text};
use crate::settable::is_settable;
use crate::several::{Sort, several};
use anyhow::{Result, ensure};
use evp_action::{Action, Setting};
use evp_cache::PlanCache;
use evp_eval::{Bound, bind};
use evp_expr::parse;
use evp_format::Format;
use evp_plain::format_of;
use evp_record::{Owned, check};
use std::alloc::{AllocError, Global};
use std::sync::Arc;

/// The formats of a monitoring job, of which the first two are declared: a reading as a stone has
/// it, a sum, and a reading as a sensor sends it; their cache; and 256 readings as they are sent.
#[derive(Drop)]
pub struct Monitoring {
    pub formats: [Format; 3],
    pub cache: PlanCache,
    pub sent: Vec<Arc<Owned, Global>>,
}

const READING: &str = "le64 t{id unsigned integer 8, name string, n integer 8, v integer[n] 4}";

const SUM: &str = "be64 t{id unsigned integer 8, total integer 8}";

const SENT: &str = "le32 t{id unsigned integer 4, name string, n integer 4, v integer[n] 2}";

/// The job with its readings.
pub fn job(alloc: Global) -> Result<Monitoring>
    ensures cache { IfOk result (λ job. IsCacheOf job.cache job.formats × (job.cache.declared ≡ 2)) }
    ensures sent { IfOk result (λ job. All (λ item. HasValueIn job.formats (arc_value item))
        job.sent.items) }
{
    let formats = [
        format_of(alloc, READING)?,
        format_of(alloc, SUM)?,
        format_of(alloc, SENT)?,
    ];
    let cache = PlanCache::new(alloc, &formats, 2)?;
    let sent = shared(alloc, &formats, several(alloc, &Sent, 256)?)?;
    Ok(Monitoring {
        formats,
        cache,
        sent,
    })
}

/// Sends the readings that are `ok`.
pub fn filter(alloc: Global, formats: &[Format; 3]) -> Result<Action>
    ensures { IfOk result (λ action. Agrees formats.now 2 action) }
{
    let test = bound(alloc, "same(name,\"ok\")", &formats[0])?;
    Ok(Action::Filter { format: 0, test })
}

/// Sends a reading to the target of its count.
pub fn router(alloc: Global, formats: &[Format; 3]) -> Result<Action>
    ensures { IfOk result (λ action. Agrees formats.now 2 action) }
{
    let choose = bound(alloc, "n", &formats[0])?;
    Ok(Action::Router { format: 0, choose })
}

/// Makes of each reading a sum.
pub fn transform(alloc: Global, formats: &[Format; 3]) -> Result<Action>
    ensures { IfOk result (λ action. Agrees formats.now 2 action) }
{
    let value = bound(alloc, "n * 100 + id", &formats[0])?;
    ensure!(is_settable(&formats[1], 1), "the total can't be set");
    let set = vec![in alloc; Setting { field: 1, value }]?;
    Ok(Action::Transform {
        format: 0,
        into: 1,
        set,
    })
}

/// Receives the readings.
pub fn terminal(formats: &[Format; 3]) -> Action
    ensures { Agrees formats.now 2 result }
{
    let _reading = &formats[0];
    Action::Terminal { format: 0 }
}

fn bound(alloc: Global, text: &str, format: &Format) -> Result<Bound>
    ensures { IfOk result (λ bound. bound.layout ≡ format.now) }
{
    let expr = parse(alloc, text)?;
    Ok(bind(alloc, &expr, format)?)
}

// The records as they are sent, those that are legal.
fn shared(
    alloc: Global,
    formats: &[Format; 3],
    records: Vec<Vec<u8>>,
) -> Result<Vec<Arc<Owned, Global>>, AllocError>
    ensures { IfOk result (λ items. All (λ item. HasValueIn formats.now (arc_value item))
        items.items) }
{
    let mut items = Vec::with_capacity(alloc, records.len())?;
    for bytes in records {
        if is_sent(formats, bytes.as_slice()) {
            items.push(one_shared(alloc, formats, bytes)?)?;
        }
    }
    Ok(items)
}

// A record, to be shared.
fn one_shared(
    alloc: Global,
    formats: &[Format; 3],
    bytes: Vec<u8>,
) -> Result<Arc<Owned, Global>, AllocError>
    requires short { length bytes.items < 2 ^ 32 }
    requires value { HasValueIn formats.now (owned_of 2 bytes.items) }
    ensures { IfOk result (λ item. HasValueIn formats.now (arc_value item)) }
{
    Ok(Arc::new(alloc, Owned::new(2, bytes))?)
}

// Whether the bytes are a record as it is sent.
fn is_sent(formats: &[Format; 3], bytes: &[u8]) -> bool
    ensures short { IsTrue result → length bytes.now < 2 ^ 32 }
    ensures value { IsTrue result → HasValueIn formats.now (owned_of 2 bytes.now) }
{
    let format = &formats[2];
    bytes.len() <= LIMIT as usize && check(format, bytes).is_ok()
}

// A reading as it is sent: `ok` and `bad` by turns, and none to two numbers by turns.
#[derive(Drop)]
struct Sent;

impl Sort for Sent {
    fn record(&self, alloc: Global, k: u64, _random: &mut Random) -> Result<Vec<u8>, AllocError> {
        let count = k % 3;
        let name = if k % 2 == 0 { "ok" } else { "bad" };
        let mut bytes = Vec::with_capacity(alloc, 32)?;
        push_number(&mut bytes, 4, k)?;
        push_number(&mut bytes, 4, 16)?;
        push_number(&mut bytes, 4, count)?;
        push_number(&mut bytes, 4, 24)?;
        push_text(&mut bytes, name.as_bytes())?;
        align(&mut bytes)?;
        for number in 0..count {
            push_number(&mut bytes, 2, number + 1)?;
        }
        Ok(bytes)
    }
}
