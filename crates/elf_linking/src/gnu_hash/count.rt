//! The number of symbols of a GNU hash table (the convention of GNU binutils and glibc).

ghost use Rattle.std.specs.Prelude.{◌^◌, ◌≤◌, IfOk, ℕ};
ghost use Rattle.elf_linking.specs.GnuCount.{CountStops, GoesTo, IsAboveRuns, IsGnuCount, IsLastRun};

use crate::LinkError;
use crate::gnu_hash::GnuHashTable;

impl GnuHashTable<'_> {
    /// The number of symbols of the table, including those before its first: one more than the
    /// greatest index that the run of a bucket reaches; `first_symbol` if no bucket has a run.
    ///
    /// Errors, if the run that begins last leaves the table: those of `get_chain` for the index
    /// there, `ChainIndex` or `ChainData`; `SymbolIndex` if the index of its end does not fit in 32
    /// bits.
    ///
    /// The call takes one pass over the buckets, and one over the chain words
    /// of the run that begins last.
    pub fn symbol_count(&self) -> Result<u64, LinkError>
        ensures exact { IsGnuCount self.now result }
        ensures above { IfOk result (IsAboveRuns self.now) }
        ensures bound { IfOk result (λ count. count ≤ 2 ^ 32) }
    {
        match self.last_run() {
            0 => Ok(u64::from(self.first_symbol())),
            from => self.run_end(from),
        }
    }

    // The greatest index at which the run of a bucket begins; 0 if no bucket has a run.
    fn last_run(&self) -> u32
        ensures { IsLastRun self.now result }
    {
        let mut greatest = 0;
        for bucket in 0..self.bucket_count() {
            let word = self.bucket(bucket);
            if greatest < word {
                greatest = word;
            }
        }
        greatest
    }

    // The index after the end of the run from an index on.
    fn run_end(&self, from: u32) -> Result<u64, LinkError>
        ensures exact { (last : ℕ) × GoesTo self.now from last × CountStops self.now last result }
        ensures bound { IfOk result (λ count. count ≤ 2 ^ 32) }
    {
        for index in u64::from(from)..1 << 32 {
            let word = self.get_chain(index as u32)?;
            if word % 2 == 1 {
                return Ok(index + 1);
            }
        }
        Err(LinkError::SymbolIndex)
    }
}
