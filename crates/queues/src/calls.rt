// How ids are queued, drained and dealt.
ghost use Rattle.std.specs.Prelude.{◌≡◌, ◌+◌, ◌<◌, [], ◌∷◌, length, IfOk, MatchOption};
ghost use Rattle.arrange.specs.Order.{asked};
ghost use Rattle.deterministic.specs.Model.{also_waiting};
ghost use Rattle.queues.specs.Limits.{most_waiting};
ghost use Rattle.queues.specs.View.{view, nothing_queued, all_drained, first_drained, rest_drained};

use crate::{MOST_WAITING, Queues};
use arrange::arranger::{Arranger, put_in_order};
use std::alloc::{AllocError, Global};
use std::collections::VecDeque;
use std::mem;

impl Queues {
    // Two empty queues, each with the memory for MOST_WAITING ids.
    pub fn new(heap: Global) -> Result<Queues, AllocError>
        ensures made { IfOk result (λ q. view q ≡ nothing_queued) }
    {
        let waiting = Vec::with_capacity(heap, MOST_WAITING)?;
        let drained = VecDeque::with_capacity(heap, MOST_WAITING)?;
        Ok(Queues { waiting, drained })
    }

    // How many ids wait.
    pub fn waiting(&self) -> usize
        ensures value { result ≡ length (view self.now).waiting }
    {
        self.waiting.len()
    }

    // How many drained ids are not dealt yet.
    pub fn undealt(&self) -> usize
        ensures value { result ≡ length (view self.now).drained }
    {
        self.drained.len()
    }

    // Queues an id, after those that wait.
    pub fn push(&mut self, id: u64)
        requires place { length (view self.old).waiting < most_waiting }
        ensures state { view self.new ≡ also_waiting id (view self.old) }
        ensures length { length (view self.new).waiting ≡ length (view self.old).waiting + 1 }
    {
        self.waiting.push_reserved(id);
    }

    // Drains all that wait, in the arranger's order, once all that was drained before is dealt. The next ids wait in the memory of
    // those. An exchange of two `VecDeque`s would be shorter, but they begin anywhere in their memory, and are moved to be one slice.
    pub fn drain<W: Arranger<u64>>(&mut self, arranger: &mut W)
        requires dealt { (view self.old).drained ≡ [] }
        ensures state { view self.new ≡ all_drained (asked W.rule (W.value arranger.old) (view self.old).waiting).order }
        ensures next { W.value arranger.new ≡ (asked W.rule (W.value arranger.old) (view self.old).waiting).value }
    {
        let empty = VecDeque::new(*self.drained.allocator());
        let dealt = mem::replace(&mut self.drained, empty).into_vec();
        let mut waited = mem::replace(&mut self.waiting, dealt);
        put_in_order(arranger, waited.as_mut_slice());
        self.drained = VecDeque::from_vec(waited);
    }

    // Takes the drained id that is dealt next, or none if all are dealt.
    pub fn next(&mut self) -> Option<u64>
        ensures value { result ≡ first_drained (view self.old) }
        ensures state { view self.new ≡ rest_drained (view self.old) }
        ensures taken { MatchOption result ((view self.old).drained ≡ []) (λ i. (view self.old).drained ≡ i ∷ (view self.new).drained) }
    {
        self.drained.pop_front()
    }
}
