//! How long the work on records takes. Without words each workload is done once, and a line tells
//! what was compared; with the word `time` a line `NAME NS` tells the best time of a record, in
//! nanoseconds, of many short batches.
#![tactic(auto)]

ghost use Rattle.std.specs.Prelude.{◌≡◌, All};
ghost use Rattle.std.specs.Arc.{arc_value};
ghost use Rattle.evp_action.specs.Agreement.{Agrees};
ghost use Rattle.evp_cache.specs.Known.{IsCacheOf};
ghost use Rattle.evp_record.specs.Owned.{HasValueIn};
ghost use Rattle.evp_plan.specs.Planned.{StandsFor};

mod actions;
mod acts;
mod carrying;
mod check_deep;
mod check_generated;
mod check_numbers;
mod check_strings;
mod checks;
mod conversion;
mod conversions;
mod convert_lists;
mod convert_numbers;
mod documents;
mod evaluation;
mod expressions;
mod finish_chain;
mod finish_monitoring;
mod jobs;
mod queue_alone;
mod queue_two;
mod random;
mod reading;
mod record_bytes;
mod record_files;
mod settable;
mod several;
mod step;
mod timing;
mod way;
mod workload;

use actions::Monitoring;
use acts::Acts;
use anyhow::Result;
use conversion::{Method, Pair, checked};
use conversions::{Ready, Whole};
use evaluation::Evaluation;
use evp_action::Action;
use expressions::Expression;
use queue_alone::Alone;
use std::env;
use timing::best;
use way::{Lent, Own, Reused, Way};
use workload::Workload;

fn main(rt: HostRuntime) -> Result<()> {
    let timed = is_timed(&rt)?;
    tell_checks(&rt, timed)?;
    tell_conversions(&rt, timed)?;
    tell_expressions(&rt, timed)?;
    tell_actions(&rt, timed)?;
    tell_reading(&rt, timed)?;
    tell_carrying(&rt, timed)?;
    let alloc = rt.alloc();
    let alone = Alone {
        rt: &rt,
        alloc,
        number: 4096,
    };
    tell(&rt, timed, &alone)?;
    let line = queue_two::line(&rt, &rt, alloc, timed)?;
    println!(rt; "{line}")?;
    Ok(())
}

// Whether the first word is `time`.
fn is_timed(rt: &HostRuntime) -> Result<bool> {
    Ok(
        env::args(rt)?
            .nth(1)
            .is_some_and(|word| word.as_str() == "time"),
    )
}

fn tell_checks(rt: &HostRuntime, timed: bool) -> Result<()> {
    let alloc = rt.alloc();
    tell(rt, timed, &check_numbers::twelve(alloc)?)?;
    tell(rt, timed, &check_numbers::thousand(alloc)?)?;
    tell(rt, timed, &check_generated::generated(alloc)?)?;
    tell(rt, timed, &check_strings::list(alloc)?)?;
    tell(rt, timed, &check_strings::fields(alloc)?)?;
    tell(rt, timed, &check_deep::deep(alloc)?)
}

fn tell_conversions(rt: &HostRuntime, timed: bool) -> Result<()> {
    tell_numbers(rt, timed)?;
    tell_lists_and_texts(rt, timed)?;
    tell_alike_and_records(rt, timed)
}

fn tell_numbers(rt: &HostRuntime, timed: bool) -> Result<()> {
    let alloc = rt.alloc();
    let swapped = convert_numbers::swapped(alloc)?;
    tell_ready(rt, timed, "A", Reused, &swapped)?;
    tell_whole(rt, timed, "A_whole", Own, &swapped)?;
    let resized = convert_numbers::resized(alloc)?;
    tell_ready(rt, timed, "B", Reused, &resized)?;
    tell_whole(rt, timed, "B_whole", Own, &resized)
}

fn tell_lists_and_texts(rt: &HostRuntime, timed: bool) -> Result<()> {
    let alloc = rt.alloc();
    let numbers = convert_lists::numbers(alloc)?;
    tell_ready(rt, timed, "C", Reused, &numbers)?;
    tell_whole(rt, timed, "C_whole", Own, &numbers)?;
    let texts = convert_lists::texts(alloc)?;
    tell_whole(rt, timed, "D", Reused, &texts)?;
    tell_whole(rt, timed, "D_whole", Own, &texts)
}

fn tell_alike_and_records(rt: &HostRuntime, timed: bool) -> Result<()> {
    let alloc = rt.alloc();
    let alike = convert_numbers::alike(alloc)?;
    tell_ready(rt, timed, "E", Lent, &alike)?;
    tell_whole(rt, timed, "E_whole", Lent, &alike)?;
    let records = convert_lists::records(alloc)?;
    tell_whole(rt, timed, "F", Reused, &records)?;
    tell_whole(rt, timed, "F_whole", Own, &records)
}

// Converts the pair's records, which are checked before.
fn tell_ready<W: Way + Drop>(
    rt: &HostRuntime,
    timed: bool,
    name: &'static str,
    way: W,
    pair: &Pair,
) -> Result<()>
    requires { StandsFor pair.now.plan pair.now.from pair.now.to }
{
    let alloc = rt.alloc();
    let ready = Ready {
        name,
        way,
        method: Method {
            alloc,
            plan: &pair.plan,
            from: &pair.from,
            to: &pair.to,
        },
        items: checked(alloc, &pair.from, &pair.records)?,
    };
    tell(rt, timed, &ready)
}

// Checks and converts the pair's records.
fn tell_whole<W: Way + Drop>(
    rt: &HostRuntime,
    timed: bool,
    name: &'static str,
    way: W,
    pair: &Pair,
) -> Result<()>
    requires { StandsFor pair.now.plan pair.now.from pair.now.to }
{
    let alloc = rt.alloc();
    let whole = Whole {
        name,
        way,
        method: Method {
            alloc,
            plan: &pair.plan,
            from: &pair.from,
            to: &pair.to,
        },
        records: &pair.records,
    };
    tell(rt, timed, &whole)
}

fn tell_expressions(rt: &HostRuntime, timed: bool) -> Result<()> {
    let alloc = rt.alloc();
    tell_values(rt, timed, "eval_test", &expressions::test(alloc)?)?;
    tell_values(rt, timed, "eval_same", &expressions::same(alloc)?)?;
    tell_values(rt, timed, "eval_list", &expressions::list(alloc)?)
}

// Evaluates the expression over its records, which are checked before.
fn tell_values(rt: &HostRuntime, timed: bool, name: &'static str, made: &Expression) -> Result<()>
    requires { made.now.bound.layout ≡ made.now.format }
{
    let evaluation = Evaluation {
        name,
        bound: &made.bound,
        format: &made.format,
        items: checked(rt.alloc(), &made.format, &made.records)?,
    };
    tell(rt, timed, &evaluation)
}

fn tell_actions(rt: &HostRuntime, timed: bool) -> Result<()> {
    let alloc = rt.alloc();
    let job = actions::job(alloc)?;
    let filter = actions::filter(alloc, &job.formats)?;
    tell_acts(rt, timed, "act_filter", &job, &filter)?;
    let router = actions::router(alloc, &job.formats)?;
    tell_acts(rt, timed, "act_router", &job, &router)?;
    let transform = actions::transform(alloc, &job.formats)?;
    tell_acts(rt, timed, "act_transform", &job, &transform)?;
    let terminal = actions::terminal(&job.formats);
    tell_acts(rt, timed, "act_terminal", &job, &terminal)
}

// Does the action with the job's records.
fn tell_acts(
    rt: &HostRuntime,
    timed: bool,
    name: &'static str,
    job: &Monitoring,
    action: &Action,
) -> Result<()>
    requires cache { IsCacheOf job.now.cache job.now.formats }
    requires agrees { Agrees job.now.formats job.now.cache.declared action.now }
    requires sent { All (λ item. HasValueIn job.now.formats (arc_value item)) job.now.sent.items }
{
    let acts = Acts {
        name,
        alloc: rt.alloc(),
        action,
        formats: &job.formats,
        cache: &job.cache,
        items: &job.sent,
    };
    tell(rt, timed, &acts)
}

fn tell_reading(rt: &HostRuntime, timed: bool) -> Result<()> {
    let alloc = rt.alloc();
    tell(rt, timed, &reading::files(alloc)?)?;
    tell(rt, timed, &documents::generated(alloc)?)?;
    tell(rt, timed, &documents::megabyte(alloc)?)
}

fn tell_carrying(rt: &HostRuntime, timed: bool) -> Result<()> {
    let alloc = rt.alloc();
    tell(rt, timed, &finish_monitoring::monitoring(alloc)?)?;
    tell(rt, timed, &finish_chain::chain(alloc)?)
}

// Writes the workload's line.
fn tell<W: Workload>(rt: &HostRuntime, timed: bool, workload: &W) -> Result<()>
    requires { W.ready workload.now }
{
    let alloc = rt.alloc();
    let name = workload.name();
    let mut out = vec![in alloc; 0u8; 65_536]?;
    if timed {
        let time = best(rt, workload, &mut out)?;
        println!(rt; "{name} {}.{:03}", time / 1000, time % 1000)?;
    } else {
        let compared = workload.compared(alloc, &mut out)?;
        println!(rt; "{name}: {compared}")?;
    }
    Ok(())
}
