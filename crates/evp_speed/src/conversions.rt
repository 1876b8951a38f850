//! What is timed of a pair of formats.

ghost use Rattle.evp_plan.specs.Planned.{StandsFor};
ghost use Rattle.evp_speed.specs.Pairs.{AreOf};

use crate::conversion::{Method, legal};
use crate::way::Way;
use crate::workload::Workload;
use evp_record::Checked;
use std::alloc::{AllocError, Global};

/// Converts records that were checked before.
#[derive(Drop)]
pub struct Ready<'a, W: Way> {
    pub name: &'static str,
    pub way: W,
    pub method: Method<'a>,
    pub items: Vec<Checked<'a>>,
}

impl<'a, W: Way> Workload for Ready<'a, W> {
    ghost use Rattle.evp_plan.specs.Planned.{StandsFor};
    ghost use Rattle.evp_speed.specs.Pairs.{AreOf};

    ghost ready = { λ work. AreOf work.method.from.now work.items.items
        × StandsFor work.method.plan.now work.method.from.now work.method.to.now };

    fn name(&self) -> &'static str {
        self.name
    }

    fn records(&self) -> usize {
        self.items.len()
    }

    fn pass(&self, out: &mut [u8]) -> u64 {
        // a copy, so that what is written doesn't make it be read again
        let method = self.method;
        let mut bytes = 0u64;
        for item in &self.items {
            bytes = bytes.wrapping_add(method.size(&self.way, item.copy(), out) as u64);
        }
        bytes
    }

    fn compared(&self, alloc: Global, out: &mut [u8]) -> Result<String, AllocError> {
        let mut agreeing = 0u64;
        for item in &self.items {
            if self.method.agrees(&self.way, item.copy(), out)? {
                agreeing = agreeing.wrapping_add(1);
            }
        }
        told(alloc, agreeing, self.items.len(), self.pass(out))
    }
}

/// Checks each record and converts it.
#[derive(Drop)]
pub struct Whole<'a, W: Way> {
    pub name: &'static str,
    pub way: W,
    pub method: Method<'a>,
    pub records: &'a [Vec<u8>],
}

impl<'a, W: Way> Workload for Whole<'a, W> {
    ghost use Rattle.evp_plan.specs.Planned.{StandsFor};

    ghost ready = { λ work. StandsFor work.method.plan.now work.method.from.now work.method.to.now };

    fn name(&self) -> &'static str {
        self.name
    }

    fn records(&self) -> usize {
        self.records.len()
    }

    fn pass(&self, out: &mut [u8]) -> u64 {
        let method = self.method;
        let mut bytes = 0u64;
        for record in self.records {
            if let Some(item) = legal(method.from, record) {
                bytes = bytes.wrapping_add(method.size(&self.way, item, out) as u64);
            }
        }
        bytes
    }

    fn compared(&self, alloc: Global, out: &mut [u8]) -> Result<String, AllocError> {
        let mut agreeing = 0u64;
        for record in self.records {
            if let Some(item) = legal(self.method.from, record) {
                if self.method.agrees(&self.way, item, out)? {
                    agreeing = agreeing.wrapping_add(1);
                }
            }
        }
        told(alloc, agreeing, self.records.len(), self.pass(out))
    }
}

// What was compared.
fn told(alloc: Global, agreeing: u64, count: usize, bytes: u64) -> Result<String, AllocError> {
    format!(in alloc;
        "{agreeing} of {count} records become what their values do, {bytes} bytes in all"
    )
}
