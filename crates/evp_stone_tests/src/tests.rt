//! What entries tell, and the lists that types of a job hold.
use evp_queue::Placed;
use evp_record::Owned;
use evp_stone::{Entry, Records, Submitted};
use std::alloc::Global;
use std::sync::Arc;
use std::test::*;

#[test]
fn entries_tell_route_and_position(rt: HostRuntime) -> Result<(), Fail> {
    let alloc: Global = rt.alloc();
    let owned = Arc::new(alloc, Owned::new(1, vec![in alloc; 7u8, 0, 0, 0]?))?;
    let item = Entry::Item(4, 5, 6, owned);
    assert_eq!(rt; (item.route(), item.position()), (4, 5));
    let mark = Entry::Mark(1, 2, 3);
    assert_eq!(rt; (mark.route(), mark.position()), (1, 2));
    Ok(())
}

#[test]
fn lists_come_back(rt: HostRuntime) -> Result<(), Fail> {
    let alloc: Global = rt.alloc();
    let submitted = Submitted::new(vec![in alloc; 3u32, 2]?);
    assert_eq!(rt; submitted.as_slice(), [3, 2].as_slice());
    assert_eq!(rt; submitted.into_vec().as_slice(), [3, 2].as_slice());
    let owned = Arc::new(alloc, Owned::new(1, vec![in alloc; 9u8]?))?;
    let records = Records::new(vec![in alloc; owned]?);
    assert_eq!(rt; records.as_slice().len(), 1);
    assert_eq!(rt; records.as_slice()[0].bytes(), [9].as_slice());
    assert_eq!(rt; records.into_vec().len(), 1);
    Ok(())
}
