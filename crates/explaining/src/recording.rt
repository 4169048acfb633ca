// The bytes of the input, one read after another.
ghost use Rattle.std.specs.Prelude.{◌≡◌, ◌<◌, ◌≤◌, ◌++◌, length, IfOk, OnOk, OnErr, IfErr, IfSome, OnSome, IfNone};
ghost use Rattle.std.specs.Io.KnownBytes.{IsAtEnd};

use crate::Failure;
use std::io::Read;

// What is read so far stands at the start of `bytes`.
#[derive(Drop)]
pub(crate) struct Recording {
    pub(crate) bytes: [u8; 65536],
    pub(crate) count: usize,
    pub(crate) ghost inside: { count ≤ 65536 },
}

impl Recording {
    ghost use Rattle.explaining.specs.Gathered.{so_far, gone_on, kept_by, appended, AppendsSome, Gathers};

    // The whole input, in the place of what was there.
    pub(crate) fn gather<R: Read>(&mut self, input: &mut R, chunk: &mut [u8]) -> Result<(), Failure>
        ensures all_read { 0 < length chunk.old → OnOk result (IfSome (R.remaining input.old) (λ bytes. so_far self.new ≡ bytes)) }
    {
        self.count = 0;
        self.gather_on(input, chunk)
    }

    // Reads the input to its end. A proved loop has to end, and nothing says that an input does. So the
    // reads are counted, up to a number that no run comes to: each but the last gives a byte, and there is
    // room for 65,536.
    fn gather_on<R: Read>(&mut self, input: &mut R, chunk: &mut [u8]) -> Result<(), Failure>
        ensures all_read { 0 < length chunk.old → OnOk result (IfSome (R.remaining input.old) (λ bytes. so_far self.new ≡ so_far self.old ++ bytes)) }
    {
        for _ in 0..u64::MAX {
            if self.gather_some(input, chunk)?.is_none() {
                return Ok(());
            }
        }
        Err(Failure::TooLong)
    }

    // One read, whose bytes go behind those that are there: how many those are. None is the end of the
    // input.
    fn gather_some<R: Read>(
        &mut self,
        input: &mut R,
        chunk: &mut [u8],
    ) -> Result<Option<usize>, Failure>
        ensures appends_some { IfOk result (λ got. OnSome got (AppendsSome self.old.count chunk.new self.old.bytes (gone_on self.new) self.new.bytes)) }
        ensures reads { IfOk result (λ got. OnSome got (Gathers (R.remaining input.old) (so_far self.old) (R.remaining input.new) (so_far self.new))) }
        ensures ends { 0 < length chunk.old → IfOk result (λ got. IfNone got (Gathers (R.remaining input.old) (so_far self.old) (R.remaining input.new) (so_far self.new) × IsAtEnd (R.remaining input.new))) }
        ensures stays { OnErr result ((self.new.count ≡ self.old.count) × (self.new.bytes ≡ self.old.bytes)) }
    {
        match input.read(chunk) {
            Err(_) => Err(Failure::Input),
            Ok(0) => Ok(None),
            Ok(n) => {
                self.append(&chunk[..n])?;
                Ok(Some(n))
            }
        }
    }

    fn append(&mut self, bytes: &[u8]) -> Result<(), Failure>
        ensures appends { kept_by result self.new ≡ appended self.old.count bytes.now self.old.bytes }
        ensures failed { IfErr result (λ e. e ≡ Failure.TooLong) }
    {
        if self.bytes.len() - self.count < bytes.len() {
            return Err(Failure::TooLong);
        }
        wire::copy::put(&mut self.bytes, self.count, bytes);
        self.count += bytes.len();
        Ok(())
    }
}
