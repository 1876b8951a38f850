//! Two workers meet in the gate, so both run at one time.

use super::carried::report;
use super::{DIAMOND, FIVE, document_of, job_of};
use evp_crew::Gate;
use std::rt::HostRuntime;
use std::sync::atomic::{AtomicU32, Ordering};
use std::test::Fail;

// How often a wait looks before it gives up.
const MOST_LOOKS: u32 = 1_000_000_000;

// Holds worker 1 in its first call until worker 0's first call has begun, and worker 0 in its first
// call until worker 1 has made its second call.
#[derive(Drop)]
struct Meeting {
    // How often worker 0 and worker 1 have called.
    first: AtomicU32,
    second: AtomicU32,
    // How many waits gave up.
    missed: AtomicU32,
}

impl Meeting {
    fn new() -> Meeting {
        Meeting {
            first: AtomicU32::new(0),
            second: AtomicU32::new(0),
            missed: AtomicU32::new(0),
        }
    }

    // Waits until the count is as great as this.
    fn wait(&self, count: &AtomicU32, wanted: u32) {
        for _ in 0..MOST_LOOKS {
            if count.load(Ordering::SeqCst) >= wanted {
                return;
            }
        }
        self.missed.fetch_add(1, Ordering::SeqCst);
    }
}

impl Gate for Meeting {
    fn before(&self, worker: u32, _actor: u32) {
        match worker {
            0 => {
                if self.first.fetch_add(1, Ordering::SeqCst) == 0 {
                    self.wait(&self.second, 2);
                }
            }
            _ => {
                if self.second.fetch_add(1, Ordering::SeqCst) == 0 {
                    self.wait(&self.first, 1);
                }
            }
        }
    }
}

const ROUNDS: &str = "{\"submit\":[5],\"frozen\":[]}";

const REPORT: &str = "round 0\n\
    a>0 passed 5 dropped 0 refused 0 held 0\n\
    a>0>1 passed 4 dropped 1 refused 0 held 0\n\
    a>0>1>3 passed 4 dropped 0 refused 0 held 0\n\
    #1 {x=2}\n#2 {x=3}\n#3 {x=4}\n#4 {x=5}\n\
    a>0>2 passed 4 dropped 1 refused 0 held 0\n\
    a>0>2>3 passed 4 dropped 0 refused 0 held 0\n\
    #0 {x=1}\n#1 {x=2}\n#2 {x=3}\n#3 {x=4}\n";

#[test]
fn two_workers_meet(rt: HostRuntime) -> Result<(), Fail> {
    let alloc = rt.alloc();
    let document = document_of(alloc, "", DIAMOND, ROUNDS)?;
    let job = job_of(alloc, document.as_str(), FIVE).ok_or("a job")?;
    let gate = Meeting::new();
    let report = report(&rt, alloc, &job, 2, &gate)?;
    assert_eq!(rt; report.as_slice(), REPORT.as_bytes());
    assert_eq!(rt; gate.missed.load(Ordering::SeqCst), 0);
    assert!(rt; gate.first.load(Ordering::SeqCst) > 0);
    assert!(rt; gate.second.load(Ordering::SeqCst) > 1);
    Ok(())
}
