//! Files whose sources fail, writers that take little, and the texts of runs, as the tests of this crate compare them. The
//! bytes and the texts come from the descriptions of the format and of the report.
ghost use Rattle.std.specs.Prelude.{false, None};
ghost use Rattle.lanes.specs.Opening.{Silent};

use collector::{Choice, DrawingKind, Form, Gate, IoSink, OpenFault, Opener, Style, Tap, TapFault};
use commands::{Fault, write_batch};
use std::alloc::Global;
use std::sync::Wait;
use std::thread::Threads;
use test_tools::Narrow;

/// A source that returns one byte a read, and fails after this many reads.
#[derive(Drop)]
pub(crate) struct OneByOne {
    bytes: &'static [u8],
    at: usize,
    reads: usize,
}

impl Tap for OneByOne {
    ghost to_come = { λ _. None };

    ghost fails = { λ _. false };

    fn read(&mut self, buf: &mut [u8]) -> Result<usize, TapFault> {
        let at = self.at;
        if at >= self.reads {
            return Err(TapFault);
        }
        self.at = at.saturating_add(1);
        match (buf.first_mut(), self.bytes.get(at)) {
            (Some(place), Some(byte)) => {
                *place = *byte;
                Ok(1)
            }
            _ => Ok(0),
        }
    }
}

/// Opens these files, the second one only if there is no fault, with sources that fail after this many reads.
#[derive(Clone, Copy)]
pub(crate) struct Files {
    pub(crate) files: &'static [&'static [u8]],
    pub(crate) fault: Option<OpenFault>,
    pub(crate) reads: usize,
}

impl Opener for Files {
    type Source = OneByOne;

    ghost meaning = { λ _ _. Silent };

    fn open(&self, _alloc: Global, file: u32) -> Result<OneByOne, OpenFault> {
        match (self.files.get(file as usize), self.fault) {
            (Some(_), Some(fault)) if file == 1 => Err(fault),
            (Some(bytes), _) => Ok(OneByOne {
                bytes,
                at: 0,
                reads: self.reads,
            }),
            _ => Err(OpenFault::Io),
        }
    }
}

/// A file of two edges.
pub(crate) const EDGES: &[u8] = b">>planar_code<<\x02\x02\x00\x01\x00\x02\x02\x00\x01\x00";

/// Two triangles; an edge and a record that is cut; no record.
pub(crate) const THREE: Files = Files {
    files: &[
        b">>planar_code<<\x03\x02\x03\x00\x03\x01\x00\x01\x02\x00\x03\x02\x03\x00\x03\x01\x00\x01\x02\x00",
        b">>planar_code<<\x02\x02\x00\x01\x00\x02\x02\x00\x01",
        b">>planar_code<<",
    ],
    fault: None,
    reads: usize::MAX,
};

/// The report, of quick drawings.
pub(crate) const QUICK: Style = Style {
    form: Form::Report,
    drawing_kind: DrawingKind::Quick,
};

/// The report, of short drawings.
pub(crate) const SHORT: Style = Style {
    form: Form::Report,
    drawing_kind: DrawingKind::Short,
};

/// The report of `THREE`.
pub(crate) const REPORT: &[u8] =
    b"file 1\ngraph 1 ok n=3 m=3 f=2 bends=1 drawn=yes\ngraph 2 ok n=3 m=3 f=2 bends=1 drawn=yes\nend complete graphs=2\n\
    file 2\ngraph 1 ok n=2 m=1 f=1 bends=0 drawn=yes\nend truncated graphs=1\nfile 3\nend complete graphs=0\n";

/// How a run over lanes in this style with streamed output ended, and its writer, which has this much room and takes at
/// most this many bytes a write. Between two threads one message has room, and as little output as possible may wait.
pub(crate) fn written<R: AllocGlobal + Threads + Wait + Sync, G: Gate>(
    rt: &R,
    opener: &Files,
    files: u32,
    lanes: u32,
    style: Style,
    gate: &G,
    (room, most): (usize, usize),
) -> (Result<u8, Fault>, Narrow) {
    let mut sink = IoSink::new(Narrow::new(room, most, true));
    let (alloc, choice) = (rt.alloc(), Choice::First);
    let ended = write_batch(
        rt, alloc, opener, files, lanes, 1, 1, choice, style, gate, &mut sink,
    );
    (ended, sink.into_writer())
}
