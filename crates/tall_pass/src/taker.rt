//! The taker of a pass's blocks.
ghost use Rattle.std.specs.Prelude.{◌≡◌, ◌++◌, ◌∷◌, [], IfErr, IfOk, List, length};
ghost use Rattle.tall_walk.specs.Events.{Event, a_block, block_of, blocks_in};
ghost use Rattle.tall_pass.specs.Taken.{EndsBlocks, HasStopped, IsWaiting, OfInputs};

use crate::counts::FileCounts;
use crate::faults::PassFault;
use crate::given::{PassGiven, Shared};
use crate::joining::{Joined, join_pieces};
use std::alloc::{AllocError, Global};
use std::marker::PhantomData;
use std::mem;
use tall_cut::RawBlock;
use tall_piece::Piece;
use tall_store::FileBlock;
use tall_walk::TakesBlocks;

/// Takes the blocks of a pass. Blocks wait in a window until it is full; then their pieces are made and joined.
#[derive(Drop)]
pub(crate) struct Taker<'a, C, K> {
    pub(crate) alloc: Global,
    /// Makes the pieces of blocks, the first of which has this number among the datastore's blocks. It is a closure, since it
    /// may start threads, as no method of an impl may.
    pub(crate) call: &'a C,
    pub(crate) shared: Shared<'a>,
    /// How many blocks make a window full.
    pub(crate) most: usize,
    /// What the pieces of the blocks so far came to.
    pub(crate) joined: Joined,
    /// The blocks that wait.
    pub(crate) window: Vec<FileBlock>,
    /// Blocks whose memory may be used again.
    pub(crate) spare: Vec<FileBlock>,
    /// The numbers of the files' records.
    pub(crate) counts: FileCounts,
    pub(crate) given: PhantomData<K>,
}

impl<'a, C: Fn(&[FileBlock], u64) -> Result<Vec<Piece>, AllocError>, K: PassGiven> Taker<'a, C, K> {
    ghost use Rattle.tall_pass.specs.Takers.{Takes, inputs_of};

    /// Makes the pieces of the blocks that wait, and joins them.
    ///
    /// # Errors
    /// The first reading fault of these blocks, or want of memory; then the taker has nothing more.
    pub(crate) fn work_off(&mut self) -> Result<(), PassFault>
        requires { (events : List Event) × Takes C.pre C.post K.PassGiven self.old events }
        ensures goes { IfOk result (λ _. (events : List Event) → Takes C.pre C.post K.PassGiven self.old events → Takes C.pre C.post K.PassGiven self.new events) }
        ensures all { IfOk result (λ _. self.new.window.items ≡ []) }
        ensures ends { IfErr result (λ e. (events : List Event) → Takes C.pre C.post K.PassGiven self.old events → EndsBlocks self.old.shared.store.now (blocks_in events) e) }
        ensures shared { inputs_of self.new ≡ inputs_of self.old }
    {
        let call = self.call;
        let Ok(pieces) = call(self.window.as_slice(), self.joined.blocks) else {
            return Err(PassFault::Memory);
        };
        let joined = mem::replace(&mut self.joined, Joined::none(self.alloc));
        match join_pieces(self.alloc, joined, pieces) {
            Ok(more) => {
                self.joined = more;
                self.spare = mem::replace(&mut self.window, Vec::new(self.alloc));
                Ok(())
            }
            Err(fault) => Err(fault),
        }
    }

    /// The same where the window is full.
    fn work_if_full(&mut self) -> Result<(), PassFault>
        requires { (events : List Event) × Takes C.pre C.post K.PassGiven self.old events }
        ensures goes { IfOk result (λ _. (events : List Event) → Takes C.pre C.post K.PassGiven self.old events → Takes C.pre C.post K.PassGiven self.new events) }
        ensures ends { IfErr result (λ e. (events : List Event) → Takes C.pre C.post K.PassGiven self.old events → EndsBlocks self.old.shared.store.now (blocks_in events) e) }
        ensures shared { inputs_of self.new ≡ inputs_of self.old }
    {
        if self.window.len() < self.most {
            return Ok(());
        }
        self.work_off()
    }

    /// A block waits.
    fn wait(&mut self, block: FileBlock) -> Result<(), PassFault>
        requires { IsWaiting (length self.old.shared.store.now.files) block }
        ensures waits { IfOk result (λ _. (events : List Event) → Takes C.pre C.post K.PassGiven self.old events → Takes C.pre C.post K.PassGiven self.new (events ++ a_block (block_of block) ∷ [])) }
        ensures memory { IfErr result (λ e. e ≡ PassFault.Memory) }
        ensures shared { inputs_of self.new ≡ inputs_of self.old }
    {
        let Ok(_) = self.window.push(block) else {
            return Err(PassFault::Memory);
        };
        Ok(())
    }

    /// A block whose memory may be used again.
    fn spare_block(&mut self) -> Option<RawBlock>
        ensures takes { (events : List Event) → Takes C.pre C.post K.PassGiven self.old events → Takes C.pre C.post K.PassGiven self.new events }
        ensures shared { inputs_of self.new ≡ inputs_of self.old }
    {
        match self.spare.pop() {
            Some(block) => {
                let FileBlock { raw, .. } = block;
                Some(raw)
            }
            None => None,
        }
    }
}

impl<'a, C: Fn(&[FileBlock], u64) -> Result<Vec<Piece>, AllocError>, K: PassGiven> TakesBlocks
    for Taker<'a, C, K> {
    ghost use Rattle.tall_pass.specs.Takers.{Takes};

    type Stop = PassFault;

    ghost files = { λ t. length t.shared.store.now.files };

    ghost has_taken = { λ t events. Takes C.pre C.post K.PassGiven t events };

    ghost has_stopped = { λ _ e before event. OfInputs K.inputs (λ w. HasStopped w.store K.counts e before event) };

    #[tactic(auto, using(crate::proofs::TakerLaws::stopped_memory))]
    fn take(&mut self, block: FileBlock) -> Result<Option<RawBlock>, PassFault> {
        match self.wait(block) {
            Ok(_) => match self.work_if_full() {
                Ok(_) => Ok(self.spare_block()),
                Err(fault) => Err(fault),
            },
            Err(fault) => Err(fault),
        }
    }

    fn end_file(&mut self, file: u32, records: u64) -> Result<(), PassFault> {
        match self.counts.note(file, records) {
            Ok(_) => Ok(()),
            Err(first) => Err(PassFault::Changed {
                file,
                first,
                now: records,
            }),
        }
    }
}
