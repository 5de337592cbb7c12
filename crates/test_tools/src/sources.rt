//! Sources that fail.
ghost use Rattle.std.specs.Prelude.{false, None};

use std::sync::atomic::{AtomicU32, Ordering};
use streams::{Tap, TapFault};

/// A source that gives one byte a read, counts the reads, and fails at read number `fails_at`, from 0.
#[derive(Drop)]
pub struct Failing<'c> {
    pub bytes: &'static [u8],
    pub fails_at: u32,
    pub reads: &'c AtomicU32,
}

impl Tap for Failing<'_> {
    ghost to_come = { λ _. None };

    ghost fails = { λ _. false };

    fn read(&mut self, buf: &mut [u8]) -> Result<usize, TapFault> {
        let read = self.reads.fetch_add(1, Ordering::SeqCst);
        if read == self.fails_at {
            return Err(TapFault);
        }
        match (buf.first_mut(), self.bytes.get(read as usize)) {
            (Some(place), Some(byte)) => {
                *place = *byte;
                Ok(1)
            }
            _ => Ok(0),
        }
    }
}
