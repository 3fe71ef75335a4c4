//! What contracts see of a device that is read.
ghost use Rattle.std.specs.Prelude.{◌≡◌, ◌<◌, ◌≤◌, ◌↔◌, [], length, take, drop, IfOk, IfErr, OnOk, OnErr, IfSome, ⊤};
ghost use Rattle.std.specs.Borrow.{sem};
ghost use Rattle.std.specs.Io.BufRead.{Rests};
ghost use Rattle.std.specs.Io.KnownBytes.{Keeps, Consumes, IsAtEnd};
ghost use Rattle.capnp.specs.Passed.{ErrorKind, Splits, RunsShort, Fails, Fills, IfKnown, IsFront, RequestError, Advances, ReturnsPart, splitting, always};
ghost use Rattle.capnp.specs.Devices.{read_ahead, coming, unread_of};
ghost use Rattle.capnp.specs.contracts.devices.input.Input.{the_row};

use crate::Result;
use crate::devices::input::Input;
use crate::io::{BufRead, Read};
use std::io;

impl<R: io::Read> Read for Input<R> {
    ghost unread = { unread_of R.remaining };

    ghost failures = { λ input. input.failures.count };

    ghost gives = { Splits };

    ghost refuses = { RunsShort };

    ghost same = { λ _ _. ⊤ };

    fn read(&mut self, buffer: &mut [u8]) -> Result<usize>
        ensures within { IfOk result (λ count. count ≤ length buffer.new) }
        ensures taken { IfOk result (λ count. IfKnown (unread_of R.remaining self.old)
            (unread_of R.remaining self.new)
            (ReturnsPart Splits RunsShort (length buffer.new) (take count buffer.new))) }
        ensures end { IfOk result (λ count. IfSome (unread_of R.remaining self.old)
            (λ raw. 0 < length buffer.new → (count ≡ 0) ↔ (raw ≡ []))) }
        ensures bytes { IfOk result (λ count.
            Consumes (coming R.remaining self.old) (coming R.remaining self.new)
            (take count buffer.new)) }
        ensures at_end { IfOk result (λ count. count ≡ 0 → 0 < length buffer.new →
            IsAtEnd (coming R.remaining self.old)) }
        // `read_exact` fails with this kind where `read` returns no byte.
        ensures spent { IfOk result (λ count. count ≡ 0 → 0 < length buffer.new →
            RequestError RunsShort (length buffer.new) (unread_of R.remaining self.old)
            ErrorKind.FailedToFillTheWholeBuffer) }

        // With which kind it fails.
        ensures device { IfErr result (λ error. error.kind ≡ ErrorKind.DeviceFailed) }
        ensures failed { OnErr result (Fails self.old.failures.count self.new.failures.count) }
        ensures kept { OnErr result (Keeps (coming R.remaining self.old) (coming R.remaining self.new)) }

        ensures unfailed { OnOk result (self.new.failures ≡ self.old.failures) }
        ensures advances { Advances (unread_of R.remaining) (λ input. input.failures.count) (λ _ _. ⊤)
            self.old self.new }
    {
        match io::Read::read(&mut self.buffered, buffer) {
            Ok(count) => Ok(count),
            Err(_) => Err(self.failures.add()),
        }
    }

    ghost lawful = { splitting };

    ghost keeps = { always };
}

impl<R: io::Read> BufRead for Input<R> {
    ghost shown = { read_ahead };

    fn fill_buf(&mut self) -> Result<&[u8]>
        ensures front { IfOk result (λ bytes.
            IfSome (unread_of R.remaining self.old) (IsFront bytes.now)) }
        ensures end { IfOk result (λ bytes. bytes.now ≡ [] →
            IfSome (unread_of R.remaining self.old) (λ raw. raw ≡ [])) }
        ensures bytes { IfOk result (λ bytes.
            IfSome (coming R.remaining self.old) (IsFront bytes.now)) }
        ensures at_end { IfOk result (λ bytes. bytes.now ≡ [] →
            IsAtEnd (coming R.remaining self.old)) }
        ensures device { IfErr result (λ error. error.kind ≡ ErrorKind.DeviceFailed) }
        ensures* after_borrow { sem 𝓛 (Rests (the_row R.row R.Read) self.entry
            (Fills (unread_of R.remaining) (λ input. input.failures.count) (λ _ _. ⊤) read_ahead
            result self.entry.now)) }
    {
        if io::BufRead::fill_buf(&mut self.buffered).is_err() {
            return Err(self.failures.add());
        }
        Ok(self.buffered.buffer())
    }

    fn consume(&mut self, amount: usize)
        requires { amount ≤ length (read_ahead self.old) }
        ensures bytes { IfKnown (coming R.remaining self.old) (coming R.remaining self.new)
            (λ raw left. left ≡ drop amount raw) }
        ensures taken { IfKnown (unread_of R.remaining self.old) (unread_of R.remaining self.new)
            (λ raw left. left ≡ drop amount raw) }
        ensures shown { read_ahead self.new ≡ drop amount (read_ahead self.old) }
        ensures kept { self.new.failures ≡ self.old.failures }
        ensures advances { Advances (unread_of R.remaining) (λ input. input.failures.count) (λ _ _. ⊤)
            self.old self.new }
    {
        io::BufRead::consume(&mut self.buffered, amount);
    }

    ghost plain = { λ _ _ _ _. (λ p. p, λ p. p) };

    ghost plain_errors = { λ _ _ _. (λ p. p, λ p. p) };
}
