//! Reports of checks of files in memory.

use checking::{CheckOptions, check_files};
use std::alloc::AllocError;
use std::process::Abort;
use std::sync::Wait;
use streams::{Form, IoSink, MemTap, Tap, WriteFault};
use test_tools::records::HEADER;
use test_tools::same;

/// The report of a check, with regions, of a file with these records and of lines.
pub(crate) fn report_of<R: AllocGlobal + Wait, L: Tap>(
    rt: &R,
    records: &[u8],
    lines: L,
) -> Result<Vec<u8>, WriteFault> {
    let alloc = rt.alloc();
    let mut graphs = Vec::new(alloc);
    for part in [HEADER, records] {
        if graphs.extend_from_slice(part).is_err() {
            return Err(WriteFault::Memory);
        }
    }
    let graphs = MemTap::new(graphs, 65_536);
    let options = CheckOptions {
        form: Form::Report,
        faces: true,
    };
    let mut out = IoSink::new(Vec::new(alloc));
    match check_files(rt, graphs, lines, options, &mut out) {
        Ok(_) => Ok(out.into_writer()),
        Err(fault) => Err(fault),
    }
}

/// Checks that the report of these records and lines is this text.
pub(crate) fn expect_report<R: AllocGlobal + Wait + Abort, L: Tap>(
    rt: &R,
    records: &[u8],
    lines: L,
    report: &str,
) {
    let found = report_of(rt, records, lines);
    let text = match &found {
        Ok(bytes) => str::from_utf8(bytes.as_slice()).ok(),
        Err(_) => None,
    };
    same!(rt, text, Some(report));
}

/// Checks that this is the verdict on one record and the lines for it.
pub(crate) fn expect_verdict<R: AllocGlobal + Wait + Abort>(
    rt: &R,
    record: &[u8],
    lines: &[u8],
    verdict: &str,
) -> Result<(), AllocError> {
    let report = format!(in rt.alloc(); "graph 1 {verdict}\nend complete graphs=1 surplus=0\n")?;
    let lines = MemTap::new(lines.to_vec(rt.alloc())?, 65_536);
    expect_report(rt, record, lines, report.as_str());
    Ok(())
}
