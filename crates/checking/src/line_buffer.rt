//! The bytes of a line as they are read.
ghost use Rattle.std.specs.Prelude.{◌≤◌, vec_capacity, vec_len};
ghost use Rattle.checking.specs.declared.line_buffer.TheConstants.{MAX_LINE};

use std::alloc::{AllocError, Global};

/// The maximum number of bytes of a line, without the byte 0A that ends it.
pub(crate) const MAX_LINE: usize = 4_000_000;

/// The bytes of a line so far, at most `MAX_LINE` of them, or that it is longer.
#[derive(Drop)]
pub(crate) struct LineBuffer {
    pub(crate) bytes: Vec<u8>,
    pub(crate) long: bool,
    ghost room: { MAX_LINE ≤ vec_capacity bytes },
    ghost short: { vec_len bytes ≤ MAX_LINE },
}

impl LineBuffer {
    ghost use Rattle.std.specs.Prelude.{ℕ, List, [], ◌++◌};
    ghost use Rattle.checking.specs.Lines.{IsCollected};

    /// An empty line buffer, with memory for a line of `MAX_LINE` bytes; `AllocError` if there is no memory for them.
    ///
    /// # Errors
    ///
    /// `AllocError` if there is no memory for them.
    pub(crate) fn new(alloc: Global) -> Result<LineBuffer, AllocError> {
        Ok(LineBuffer {
            bytes: Vec::with_capacity(alloc, MAX_LINE)?,
            long: false,
        })
    }

    /// Empties the buffer for a new line, which is not too long yet; its memory is kept.
    pub(crate) fn clear(&mut self)
        ensures { IsCollected [] self.new.bytes.items self.new.long }
    {
        self.bytes.clear();
        self.long = false;
    }

    /// Appends `part` to the line, in the memory that the buffer has. If the line would exceed `MAX_LINE` bytes, or is
    /// already marked as too long, drops `part` and only marks the line as too long.
    pub(crate) fn add(&mut self, part: &[u8])
        ensures { (seen : List ℕ) → IsCollected seen self.old.bytes.items self.old.long
            → IsCollected (seen ++ part.now) self.new.bytes.items self.new.long }
    {
        if !self.long && part.len() <= MAX_LINE - self.bytes.len() {
            self.bytes.extend_from_slice(part).unwrap();
        } else {
            self.long = true;
        }
    }
}
