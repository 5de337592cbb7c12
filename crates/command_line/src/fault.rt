//! The faults that end the program without complete output, their exit status and their message.
ghost use Rattle.std.specs.Prelude.{◌≡◌, false};

use lanes::RunFault;
use named_sources::{Reason, ShortLine};
use std::alloc::AllocError;
use std::fmt::Write;
use streams::{BatchFault, Sink, SinkFault, WriteFault, put_all};
use thiserror::Error;

/// The reason why the program did not complete its output. Its message is printed after the program's name.
#[derive(Clone, Copy, Debug, PartialEq, Eq, Error)]
pub enum Fault {
    /// Out of memory for the arguments, for the text of help or of an error message, or while a file was opened.
    #[error("out of memory")]
    Memory,
    /// The argument with this number, from 1, is not valid UTF-8. Files are opened by names that are text.
    #[error("argument {0} is not valid UTF-8, as the name of a file must be")]
    NotText(u32),
    /// The value of `--waiting` is out of range.
    #[error("waiting must be 1 to 65536")]
    BadWaiting,
    /// Records would be written to a terminal.
    #[error("pick writes bytes, not text: redirect standard output to a file or a pipe")]
    Terminal,
    /// The run failed.
    #[error(transparent)]
    Run(BatchFault),
    /// The output was not written completely.
    #[error(transparent)]
    Write(WriteFault),
}

impl Fault {
    ghost use Rattle.command_line.specs.Refusals.{IsMisuse};

    /// The program's exit status for this fault: 2 for `NotText`, `BadWaiting`, `Terminal`, and `Run` with
    /// `TooManyFiles` or `BadLanes`, by which a request is refused; 1 for `Memory`, `Write`, and `Run` with any other
    /// fault.
    pub fn status(self) -> u8
        ensures refused { IsMisuse self → result ≡ 2 }
        ensures failed { ¬ IsMisuse self → result ≡ 1 }
    {
        match self {
            Fault::NotText(_)
            | Fault::BadWaiting
            | Fault::Terminal
            | Fault::Run(BatchFault::TooManyFiles | BatchFault::BadLanes) => 2,
            Fault::Memory | Fault::Run(_) | Fault::Write(_) => 1,
        }
    }
}

impl From<AllocError> for Fault {
    ghost use Rattle.command_line.specs.declared.fault.Fault.{Fault};

    ghost from_gives = { λ _ e. e ≡ Fault.Memory };

    /// Returns `Fault::Memory`.
    fn from(_refused: AllocError) -> Fault {
        Fault::Memory
    }
}

impl From<RunFault<SinkFault>> for Fault {
    ghost use Rattle.command_line.specs.Faults.{fault_of};

    ghost from_gives = { λ fault e. e ≡ fault_of fault };

    /// The fault for a run that failed: `Memory`, `LaneLost` and `Thread` become `Fault::Run` with the fault of the
    /// same name, and `Refused` becomes `Fault::Write(WriteFault::Write)`.
    fn from(fault: RunFault<SinkFault>) -> Fault {
        match fault {
            RunFault::Memory => Fault::Run(BatchFault::Memory),
            RunFault::LaneLost => Fault::Run(BatchFault::LaneLost),
            RunFault::Thread => Fault::Run(BatchFault::Thread),
            RunFault::Refused(SinkFault) => Fault::Write(WriteFault::Write),
        }
    }
}

impl From<WriteFault> for Fault {
    ghost use Rattle.command_line.specs.declared.fault.Fault.{Fault};

    ghost from_gives = { λ fault e. e ≡ Fault.Write fault };

    /// Returns `Fault::Write` with this fault.
    fn from(fault: WriteFault) -> Fault {
        Fault::Write(fault)
    }
}

/// The system's error code for an output whose reader has closed it (`EPIPE`).
const BROKEN_PIPE: i32 = 32;

/// Appends to `err` one line: `planarbend: ` and the message of `fault`, which has the system's `reason` if the output
/// failed and the reason has a code. Writes nothing if that code is 32 (`EPIPE`): the output's reader has closed it.
/// Ignores a failed write to `err`.
pub fn write_fault<E: Sink>(fault: Fault, reason: Reason, err: &mut E)
    requires { E.failed err.old ≡ false }
{
    let mut line = ShortLine::new();
    let _ = match fault {
        Fault::Run(BatchFault::LaneLost) => writeln!(
            line,
            "planarbend: internal error: a worker thread disconnected"
        ),
        Fault::Run(BatchFault::Thread) => writeln!(line, "planarbend: cannot start a thread"),
        Fault::Write(WriteFault::Write) if reason.code == Some(BROKEN_PIPE) => return,
        Fault::Write(WriteFault::Write) if reason.code.is_some() => writeln!(
            line,
            "planarbend: cannot write output: {reason}"
        ),
        Fault::Write(WriteFault::Write) => writeln!(line, "planarbend: cannot write output"),
        _ => writeln!(line, "planarbend: {fault}"),
    };
    let _ = put_all(err, line.as_str().as_bytes());
}
