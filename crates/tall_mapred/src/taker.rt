//! The taker of a map phase's blocks.
ghost use Rattle.std.specs.Prelude.{◌≡◌, ◌++◌, ◌∷◌, [], IfErr, IfOk, List};
ghost use Rattle.tall_walk.specs.Events.{Event, a_block, block_of};
ghost use Rattle.tall_mapred.specs.Phases.{IsWaiting, files_given};
ghost use Rattle.tall_mapred.specs.Takers.{EndsTaken};

use crate::calls::CallPiece;
use crate::faults::MapFault;
use crate::given::MapGiven;
use crate::joining::append_pieces;
use std::alloc::{AllocError, Global};
use std::marker::PhantomData;
use std::mem;
use tall_cut::RawBlock;
use tall_kv::Pairs;
use tall_store::FileBlock;
use tall_walk::TakesBlocks;

/// Takes the blocks of a map phase. Blocks wait in a window until it is full; then the map function is called for each, and
/// the pairs are appended.
#[derive(Drop)]
pub(crate) struct MapTaker<'a, C, K> {
    pub(crate) alloc: Global,
    /// Makes the map calls for the blocks of a window. It is a closure, since it may start threads, as no method of an impl
    /// may.
    pub(crate) call: &'a C,
    /// How many blocks make a window full.
    pub(crate) most: usize,
    /// The pairs of the blocks whose calls were made.
    pub(crate) pairs: Pairs,
    /// The blocks that wait.
    pub(crate) window: Vec<FileBlock>,
    /// Blocks whose memory may be used again.
    pub(crate) spare: Vec<FileBlock>,
    pub(crate) given: PhantomData<K>,
}

impl<'a, C: Fn(&[FileBlock]) -> Result<Vec<CallPiece>, AllocError>, K: MapGiven> MapTaker<
    'a,
    C,
    K,
> {
    ghost use Rattle.tall_mapred.specs.Takers.{Takes};

    /// Makes the calls for the blocks that wait, and appends their pairs in the order of the blocks.
    ///
    /// # Errors
    /// The first fault of these blocks and of their calls, or want of memory.
    pub(crate) fn work_off(&mut self) -> Result<(), MapFault>
        requires { (events : List Event) × Takes C.pre C.post K.MapGiven 0 self.old events }
        ensures goes { IfOk result (λ _. (events : List Event) → Takes C.pre C.post K.MapGiven 0 self.old events → Takes C.pre C.post K.MapGiven 1 self.new events) }
        ensures all { IfOk result (λ _. self.new.window.items ≡ []) }
        ensures ends { IfErr result (λ e. (events : List Event) → Takes C.pre C.post K.MapGiven 0 self.old events → EndsTaken K.given events e) }
    {
        let call = self.call;
        let Ok(pieces) = call(self.window.as_slice()) else {
            return Err(MapFault::Memory);
        };
        match append_pieces(&mut self.pairs, pieces) {
            Ok(_) => {
                self.spare = mem::replace(&mut self.window, Vec::new(self.alloc));
                Ok(())
            }
            Err(fault) => Err(fault),
        }
    }

    /// The same where the window is full.
    fn work_if_full(&mut self) -> Result<(), MapFault>
        requires { (events : List Event) × Takes C.pre C.post K.MapGiven 0 self.old events }
        ensures goes { IfOk result (λ _. (events : List Event) → Takes C.pre C.post K.MapGiven 0 self.old events → Takes C.pre C.post K.MapGiven 1 self.new events) }
        ensures ends { IfErr result (λ e. (events : List Event) → Takes C.pre C.post K.MapGiven 0 self.old events → EndsTaken K.given events e) }
    {
        if self.window.len() < self.most {
            return Ok(());
        }
        self.work_off()
    }

    /// A block waits.
    fn wait(&mut self, block: FileBlock) -> Result<(), MapFault>
        requires { IsWaiting (files_given K.given) block }
        ensures waits { IfOk result (λ _. (events : List Event) → Takes C.pre C.post K.MapGiven 1 self.old events → Takes C.pre C.post K.MapGiven 0 self.new (events ++ a_block (block_of block) ∷ [])) }
        ensures memory { IfErr result (λ e. e ≡ MapFault.Memory) }
    {
        let Ok(_) = self.window.push(block) else {
            return Err(MapFault::Memory);
        };
        Ok(())
    }

    /// A block whose memory may be used again.
    fn spare_block(&mut self) -> Option<RawBlock>
        ensures { (events : List Event) → Takes C.pre C.post K.MapGiven 1 self.old events → Takes C.pre C.post K.MapGiven 1 self.new events }
    {
        match self.spare.pop() {
            Some(block) => {
                let FileBlock { raw, .. } = block;
                Some(raw)
            }
            None => None,
        }
    }
}

impl<'a, C: Fn(&[FileBlock]) -> Result<Vec<CallPiece>, AllocError>, K: MapGiven> TakesBlocks
    for MapTaker<'a, C, K> {
    ghost use Rattle.tall_mapred.specs.Phases.{files_given};
    ghost use Rattle.tall_mapred.specs.Takers.{Stops, Takes};

    type Stop = MapFault;

    ghost files = { λ _. files_given K.given };

    ghost has_taken = { λ t events. Takes C.pre C.post K.MapGiven 1 t events };

    ghost has_stopped = { λ _ fault before event. Stops K.given fault before event };

    fn take(&mut self, block: FileBlock) -> Result<Option<RawBlock>, MapFault> {
        match self.wait(block) {
            Ok(_) => match self.work_if_full() {
                Ok(_) => Ok(self.spare_block()),
                Err(fault) => Err(fault),
            },
            Err(fault) => Err(fault),
        }
    }

    fn end_file(&mut self, _file: u32, _records: u64) -> Result<(), MapFault> {
        Ok(())
    }
}
