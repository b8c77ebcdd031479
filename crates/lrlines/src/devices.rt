//! Readers and writers of lines, whose bytes a contract can name, and which count their failed calls.

ghost use Rattle.lrspec.specs.texts.Devices.{one_more, after_write};
ghost use Rattle.std.specs.Io.KnownBytes.{ReadConsumes, WriteAppends};
ghost use Rattle.std.specs.Prelude.{◌≡◌, ℕ, ◌≤◌, List, length, Option, IfOk, MatchResult};

use std::io::{Read, Write};

/// A device failed.
#[derive(Clone, Copy, Debug, PartialEq, Eq)]
pub struct DeviceFault;

/// A reader that counts its failed calls, up to `u64::MAX`.
pub trait LineRead {
    // The bytes that are left, where the reader tells them.
    ghost left: { Self → Option (List ℕ) };

    // How many calls have failed.
    ghost failures: { Self → ℕ };

    /// Reads bytes into the front of `buf`, and answers how many. With room in `buf` these are none only at the end.
    fn read(&mut self, buf: &mut [u8]) -> Result<usize, DeviceFault>
        ensures fits { IfOk result (λ n. n ≤ length buf.new) }
        ensures bytes { ReadConsumes (left self.old) (left self.new) result buf.new }
        ensures count { MatchResult result
            (λ _. failures self.new ≡ failures self.old)
            (λ _. failures self.new ≡ one_more (failures self.old)) };
}

/// A writer that counts its failed calls, up to `u64::MAX`. A call that takes no byte of some has failed.
pub trait LineWrite {
    // The bytes that were written, where the writer tells them.
    ghost written: { Self → Option (List ℕ) };

    // How many calls have failed.
    ghost failures: { Self → ℕ };

    /// Writes bytes from the front of `buf`, and answers how many.
    fn write(&mut self, buf: &[u8]) -> Result<usize, DeviceFault>
        ensures fits { IfOk result (λ n. n ≤ length buf.now) }
        ensures bytes { WriteAppends (written self.old) (written self.new) result buf.now }
        ensures count { MatchResult result
            (λ n. failures self.new ≡ after_write (failures self.old) n (length buf.now))
            (λ _. failures self.new ≡ one_more (failures self.old)) };
}

/// A reader or a writer of std whose failed calls are counted.
#[derive(Drop)]
pub struct Counted<D> {
    device: D,
    failures: u64,
}

impl<D> Counted<D> {
    ghost use Rattle.lrlines.specs.CountedDevices.{device_of, failures_of};

    /// The device, of whose calls none has failed yet.
    pub fn new(device: D) -> Counted<D>
        ensures device { device_of result ≡ device }
        ensures count { failures_of result ≡ 0 }
    {
        Counted {
            device,
            failures: 0,
        }
    }

    /// The device itself.
    pub fn into_inner(self) -> D
        ensures device { result ≡ device_of self }
    {
        self.device
    }

    /// Counts a failed call.
    fn count(&mut self)
        ensures count { failures_of self.new ≡ one_more (failures_of self.old) }
        ensures device { device_of self.new ≡ device_of self.old }
    {
        self.failures = self.failures.saturating_add(1);
    }
}

impl<D: Read> LineRead for Counted<D> {
    ghost use Rattle.lrlines.specs.CountedDevices.{device_of, failures_of};

    ghost left = { λ c. D.remaining (device_of c) };

    ghost failures = { λ c. failures_of c };

    fn read(&mut self, buf: &mut [u8]) -> Result<usize, DeviceFault> {
        match self.device.read(buf) {
            Ok(n) => Ok(n),
            Err(_) => {
                self.count();
                Err(DeviceFault)
            }
        }
    }
}

impl<D: Write> LineWrite for Counted<D> {
    ghost use Rattle.lrlines.specs.CountedDevices.{device_of, failures_of};

    ghost written = { λ c. D.contents (device_of c) };

    ghost failures = { λ c. failures_of c };

    fn write(&mut self, buf: &[u8]) -> Result<usize, DeviceFault> {
        match self.device.write(buf) {
            Ok(n) => {
                if n == 0 && !buf.is_empty() {
                    self.count();
                }
                Ok(n)
            }
            Err(_) => {
                self.count();
                Err(DeviceFault)
            }
        }
    }
}
