//! `planarbend`: draws the graphs of planar_code files with the fewest bends.
#![tactic(auto)]

use commands::{ErrorConsole, OutputSink, SharedTerminal, SystemFiles, if_open, place_holder, run};
use std::io;
use std::io::IsTerminal;
use std::process::ExitCode;

/// Runs the command that the arguments of the process ask for, and returns its exit status. If memory runs out, the
/// text on standard output or standard error says so, and the status is not 0.
fn main(rt: HostRuntime) -> ExitCode {
    let files = SystemFiles {
        rt: &rt,
        input: if_open(rt.stdin()),
    };
    // Held to the end: otherwise a file that is opened later could be taken for a stream that is closed.
    let _held = (
        place_holder(&rt, rt.stdin()),
        place_holder(&rt, rt.stdout()),
        place_holder(&rt, rt.stderr()),
    );
    let console = ErrorConsole::new(&rt, rt.stderr(), rt.stdout().is_terminal());
    let mut out = OutputSink::new(SharedTerminal::new(io::writer(&rt), &console));
    let mut err = OutputSink::new(rt.stderr());
    run(&rt, &files, &console, &mut out, &mut err)
}
