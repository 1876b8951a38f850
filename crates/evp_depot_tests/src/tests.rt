use evp_depot::{
    Depot, DepotFault, Fetch, FileDepot, MemoryDepot, MemorySink, PutFault, Sink, SinkFault,
    StdSink, read_all, write_all,
};
use std::alloc::Global;
use std::collections::BTreeMap;
use std::fs;
use std::test::Fail;

// A depot with one file, of so many bytes, whose calls of these numbers fail.
fn depot_of(alloc: Global, length: usize, failing: &[u32]) -> Result<MemoryDepot, Fail> {
    let mut files = BTreeMap::new(alloc);
    let name = String::from_str(alloc, "a")?;
    files.insert(name, vec![in alloc; 7u8; length]?)?;
    Ok(MemoryDepot::new(files, failing.to_vec(alloc)?))
}

// Each row: how many bytes are held under `a`, the limit, the name, the calls that fail, what is
// read, and by how many calls: pieces of 65,536 bytes first, then as much again as there is, never
// past one byte behind the limit, and one more call for the end.
#[test]
fn reads_all_up_to_the_limit(rt: HostRuntime) -> Result<(), Fail> {
    let alloc = rt.alloc();
    let none: &[u32] = &[];
    let cases: [(usize, u32, &str, &[u32], Result<usize, Fetch>, u32); 12] = [
        (0, 0, "a", none, Ok(0), 1),
        (3, 3, "a", none, Ok(3), 2),
        (3, 2, "a", none, Err(Fetch::TooLong), 1),
        (3, 9, "b", none, Err(Fetch::Absent), 1),
        (3, 9, "b", &[0], Err(Fetch::Absent), 1),
        (3, 9, "a", &[0], Err(Fetch::Failed), 1),
        (3, 9, "a", &[1], Err(Fetch::Failed), 2),
        (65_536, 1_048_576, "a", none, Ok(65_536), 2),
        (200_000, 200_000, "a", none, Ok(200_000), 4),
        (200_000, 199_999, "a", none, Err(Fetch::TooLong), 3),
        (1_000_000, 1_048_576, "a", none, Ok(1_000_000), 6),
        (200_000, 1_048_576, "a", &[2], Err(Fetch::Failed), 3),
    ];
    for (length, max, name, failing, want, calls) in cases {
        let mut depot = depot_of(alloc, length, failing)?;
        let got = read_all(alloc, &mut depot, name, max);
        let got = got.map(|bytes| bytes.iter().filter(|byte| **byte == 7).count());
        assert_eq!(rt; got, want, "{length} bytes of {name} up to {max}");
        assert_eq!(rt; depot.calls, calls, "{length} bytes of {name} up to {max}");
    }
    Ok(())
}

#[test]
fn writes_all_or_a_front(rt: HostRuntime) -> Result<(), Fail> {
    let alloc = rt.alloc();
    let none: &[u32] = &[];
    let cases: [(u32, &[u32], usize, u32); 4] = [
        (9, none, 3, 3),
        (9, &[2], 2, 3),
        (2, none, 2, 3),
        (9, &[0], 0, 1),
    ];
    for (room, failing, put, calls) in cases {
        let mut sink = MemorySink::new(alloc, room, 1, failing.to_vec(alloc)?)?;
        assert!(rt; write_all(&mut sink, b"").is_ok());
        assert_eq!(rt; sink.calls(), 0);
        let written = write_all(&mut sink, b"abc");
        assert_eq!(rt; written.is_ok(), put == 3);
        assert_eq!(rt; sink.put().len(), put);
        assert!(rt; b"abc".starts_with(sink.put()));
        assert_eq!(rt; sink.calls(), calls);
        assert_eq!(rt; sink.faults(), u64::from(written.is_err()));
    }
    Ok(())
}

#[test]
fn reads_files_of_the_system(rt: HostRuntime) -> Result<(), Fail> {
    let alloc = rt.alloc();
    fs::write(&rt, "seven.bin", b"0123456".as_slice())?;
    let mut depot = FileDepot::new(&rt);
    let mut piece = [0u8; 4];
    assert_eq!(rt; depot.read("seven.bin", 5, &mut piece), Ok(2));
    assert_eq!(rt; piece, *b"56\0\0");
    assert_eq!(rt; depot.read("seven.bin", 7, &mut piece), Ok(0));
    let all = read_all(alloc, &mut depot, "seven.bin", 7)?;
    assert_eq!(rt; all.as_slice(), b"0123456".as_slice());
    for absent in ["", "none.bin"] {
        assert_eq!(rt; depot.read(absent, 0, &mut piece), Err(DepotFault::Absent));
    }
    for failing in [".", "seven.bin/x", "seven\0bin"] {
        assert_eq!(rt; depot.read(failing, 0, &mut piece), Err(DepotFault::Failed));
    }
    fs::remove_file(&rt, "seven.bin")?;
    Ok(())
}

#[test]
fn writes_standard_output(rt: HostRuntime) {
    let mut sink = StdSink::new(&rt);
    assert_eq!(rt; sink.write(b""), Ok(0));
    assert!(rt; write_all(&mut sink, b"written\n").is_ok());
}

#[test]
fn texts_of_faults(rt: HostRuntime) -> Result<(), Fail> {
    let alloc = rt.alloc();
    let told = [
        (DepotFault::Absent.to_string(alloc)?, "absent"),
        (DepotFault::Failed.to_string(alloc)?, "failed"),
        (SinkFault::Failed.to_string(alloc)?, "failed"),
        (PutFault::Failed.to_string(alloc)?, "failed"),
        (Fetch::Absent.to_string(alloc)?, "absent"),
        (Fetch::Failed.to_string(alloc)?, "failed"),
        (Fetch::TooLong.to_string(alloc)?, "too long"),
        (Fetch::Memory.to_string(alloc)?, "memory"),
    ];
    for (text, want) in told {
        assert_eq!(rt; text.as_str(), want);
    }
    Ok(())
}
