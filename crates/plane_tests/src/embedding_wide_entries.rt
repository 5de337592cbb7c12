//! Entries that are one wide record, and entries that are not.

use embedding::{WideFault, WideRecord};
use planar_code::Record;
use std::alloc::{AllocError, Global};
use test_tools::records::{OCTAHEDRON, STAR, TRIANGLE};
use test_tools::same;

/// Why these entries are not one wide record; `None` if they are.
fn fault_of(entries: Vec<u16>) -> Option<WideFault> {
    WideRecord::new(entries).err()
}

/// Short lists of entries, by hand, and their fault.
const ROWS: [(&[u16], Option<WideFault>); 19] = [
    // No entries, and no lists.
    (&[], Some(WideFault::Record)),
    (&[0], Some(WideFault::Record)),
    (&[0, 0], Some(WideFault::Record)),
    // Too few lists.
    (&[1], Some(WideFault::Record)),
    (&[1, 1], Some(WideFault::Record)),
    (&[2, 2, 0], Some(WideFault::Record)),
    // The last list is not ended.
    (&[2, 2, 0, 1], Some(WideFault::Record)),
    // Records, whatever numbers stand in the lists.
    (&[1, 0], None),
    (&[2, 2, 0, 1, 0], None),
    (&[2, 0, 0], None),
    (&[1, 65535, 1, 1, 0], None),
    // Entries after the last list.
    (&[1, 0, 0], Some(WideFault::Record)),
    (&[2, 2, 0, 1, 0, 7], Some(WideFault::Record)),
    (&[2, 2, 0, 1, 0, 1, 0], Some(WideFault::Record)),
    // Too many vertices, whatever follows.
    (&[1200], Some(WideFault::Record)),
    (&[1201], Some(WideFault::Large)),
    (&[1201, 0], Some(WideFault::Large)),
    (&[1456, 2, 0], Some(WideFault::Large)),
    (&[65535], Some(WideFault::Large)),
];

/// Each row has its fault or none.
#[test]
fn rows_have_their_faults(rt: HostRuntime) {
    for (entries, fault) in ROWS {
        let list = entries.to_vec(rt.alloc()).expect(&rt, "memory");
        same!(&rt, fault_of(list), fault);
    }
}

/// The entries of `order` vertices, with this many empty lists.
fn empty_lists(alloc: Global, order: u16, lists: usize) -> Result<Vec<u16>, AllocError> {
    let mut entries = Vec::new(alloc);
    entries.push(order)?;
    entries.resize(lists.wrapping_add(1), 0)?;
    Ok(entries)
}

/// 1,200 lists are the most.
#[test]
fn most_lists(rt: HostRuntime) {
    for (order, lists, fault) in [
        (1200, 1199, Some(WideFault::Record)),
        (1200, 1200, None),
        (1200, 1201, Some(WideFault::Record)),
        (1201, 1200, Some(WideFault::Large)),
        (1201, 1201, Some(WideFault::Large)),
    ] {
        let entries = empty_lists(rt.alloc(), order, lists).expect(&rt, "memory");
        same!(&rt, fault_of(entries), fault);
    }
}

/// This many entries, of which the first is `order`, the last 0, and all others 7.
fn one_list(alloc: Global, order: u16, count: usize) -> Result<Vec<u16>, AllocError> {
    let mut entries = Vec::new(alloc);
    entries.push(order)?;
    entries.resize(count.wrapping_sub(1), 7)?;
    entries.push(0)?;
    Ok(entries)
}

/// 65,535 entries are the most.
#[test]
fn most_entries(rt: HostRuntime) {
    for (order, count, fault) in [
        (1, 65535, None),
        (1, 65536, Some(WideFault::Record)),
        (1200, 65536, Some(WideFault::Record)),
        (1201, 65536, Some(WideFault::Large)),
    ] {
        let entries = one_list(rt.alloc(), order, count).expect(&rt, "memory");
        same!(&rt, fault_of(entries), fault);
    }
}

/// The bytes of a record are a wide record with as many lists, and come back.
#[test]
fn bytes_are_entries(rt: HostRuntime) {
    let alloc = rt.alloc();
    for bytes in [TRIANGLE, STAR, OCTAHEDRON, &[1, 0]] {
        let rec = Record::parse(alloc, bytes).ok().expect(&rt, "a record");
        let entries = bytes.iter().map(|byte| u16::from(*byte)).collect(alloc);
        let wide = WideRecord::new(entries.expect(&rt, "memory"));
        let wide = wide.ok().expect(&rt, "a wide record");
        same!(&rt, wide.order(), u16::from(rec.order()));
        same!(&rt, wide.entries().len(), bytes.len());
        for (entry, byte) in wide.entries().iter().zip(bytes) {
            same!(&rt, *entry, u16::from(*byte));
        }
    }
}
