//! Writers with little room.
ghost use Rattle.std.specs.Prelude.{◌≤◌};

use std::io;
use std::io::{ErrorKind, Write};

/// How many bytes a narrow writer takes at most.
const WIDEST: usize = 2048;

/// A writer that takes at most `most` bytes a write. Once it has `room` bytes, 2048 at most, it fails or takes nothing.
#[derive(Drop)]
pub struct Narrow {
    taken: [u8; WIDEST],
    len: usize,
    room: usize,
    most: usize,
    fails: bool,
    ghost within: { len ≤ 2048 },
}

impl Narrow {
    /// A writer that has taken nothing yet; see [`Narrow`] for the parameters.
    pub fn new(room: usize, most: usize, fails: bool) -> Narrow {
        Narrow {
            taken: [0; WIDEST],
            len: 0,
            room,
            most,
            fails,
        }
    }

    /// The bytes that the writer has taken.
    pub fn text(&self) -> &[u8] {
        &self.taken[..self.len]
    }
}

impl Write for Narrow {
    fn write(&mut self, buf: &[u8]) -> io::Result<usize> {
        let left = self.room.min(WIDEST).saturating_sub(self.len);
        if left == 0 && self.fails {
            return Err(io::Error::from(ErrorKind::Other));
        }
        let count = buf.len().min(left).min(self.most);
        let end = self.len + count;
        self.taken[self.len..end].copy_from_slice(&buf[..count]);
        self.len = end;
        Ok(count)
    }

    fn flush(&mut self) -> io::Result<()> {
        Ok(())
    }
}
