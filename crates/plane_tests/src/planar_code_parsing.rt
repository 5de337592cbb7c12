//! Bytes that are one record, and bytes that are not, also if allocations are refused.

use planar_code::{ParseFault, Record};
use std::alloc::Global;
use test_tools::records::{STAR, TRIANGLE};
use test_tools::same;

/// Why these bytes are not one record; `None` if they are.
fn fault_of(alloc: Global, bytes: &[u8]) -> Option<ParseFault> {
    Record::parse(alloc, bytes).err()
}

/// If memory runs out, the fault says so, and a second call succeeds.
/// To be run with each allocation refused in turn.
#[test]
fn refused_memory_is_told(rt: HostRuntime) {
    for bytes in [TRIANGLE, STAR] {
        if let Some(fault) = fault_of(rt.alloc(), bytes) {
            same!(&rt, fault, ParseFault::Memory);
            same!(&rt, fault_of(rt.alloc(), bytes), None);
        }
    }
}

/// Bytes that are not one record are refused with their fault, without taking memory.
#[test]
fn faults_take_no_memory(rt: HostRuntime) {
    let cases: [(&[u8], ParseFault); 5] = [
        (&[], ParseFault::Unfinished),
        (&[2, 2, 0, 1], ParseFault::Unfinished),
        (&[0, 2, 0], ParseFault::Order),
        (&[1; 256], ParseFault::Oversize),
        (&[1, 0, 0], ParseFault::Long),
    ];
    for (bytes, fault) in cases {
        same!(&rt, fault_of(rt.alloc(), bytes), Some(fault));
    }
}
