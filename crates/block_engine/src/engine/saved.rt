//! The engine as words, and back.

ghost use Rattle.block_engine.specs.Saved.{KeepsEngine, engine_apart, put_engine};

use super::Engine;
use crate::aside::{AsideKind, AsideStage};
use crate::numbers::are_numbered;
use crate::request::{Failure, Range};
use block_scheduler::Scheduler;
use saved_state::{RestoreError, Saved, SavedList, Words, save_list};
use std::alloc::{AllocError, Global};

type Asides = (AsideKind, AsideStage);

type Others = (SavedList<Range>, Option<u64>, [Option<Failure>; 33]);

type Parts = (Scheduler, Asides, Others);

impl Saved for Engine {
    ghost put = { put_engine };

    ghost keeps = { KeepsEngine };

    ghost told_apart = { engine_apart };

    fn save(&self, words: &mut Words) -> Result<(), AllocError> {
        self.failures.save(words)?;
        self.dropped.save(words)?;
        save_list(&self.ranges, words)?;
        self.stage.save(words)?;
        self.kind.save(words)?;
        self.scheduler.save(words)
    }

    fn restore(alloc: Global, words: &mut Words) -> Result<Engine, RestoreError> {
        let (scheduler, asides, others) = match <Parts>::restore(alloc, words) {
            Ok(parts) => parts,
            Err(error) => return Err(error),
        };
        let (kind, stage) = asides;
        let (ranges, dropped, failures) = others;
        if !are_numbered(&scheduler, stage, dropped) {
            return Err(RestoreError::Broken);
        }
        let ranges = ranges.into_vec();
        Ok(Engine {
            scheduler,
            kind,
            stage,
            ranges,
            dropped,
            failures,
        })
    }
}
