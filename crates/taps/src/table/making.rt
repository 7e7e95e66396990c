// Making a table of taps out of samples that keep the rules.
ghost use Rattle.taps.specs.Making.{Making};

use crate::rules::{climbs, few};
use crate::table::Taps;
use refusal::Refusal;
use std::alloc::Global;

impl Taps {
    // A table of copies of `samples`, refused where they are against the rules; memory is asked for last.
    pub fn new(heap: Global, samples: &[u64]) -> Result<Taps, Refusal>
        ensures { Making samples.now result }
    {
        if !few(samples) {
            return Err(Refusal::BadMaking);
        }
        if !climbs(samples) {
            return Err(Refusal::TapsFall);
        }
        let samples = Vec::from_slice(heap, samples)?;
        Ok(Taps { samples })
    }
}
