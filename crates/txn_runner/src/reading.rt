//! The calls of a transaction, answered by the nodes that are cached, or through the view.

ghost use Rattle.std.specs.Prelude.{◌≡◌, ℕ, false};
ghost use Rattle.std.specs.Bool.{OnTrue};
ghost use Rattle.std.specs.List.{AllByRecursion};
ghost use Rattle.fine_model.specs.Bounds.{FitsCall};
ghost use Rattle.open_txn.specs.Buckets.{BucketsValue};
ghost use Rattle.room_shelf.specs.Shelves.{IsShelf};
ghost use Rattle.txn_draft.specs.Drafts.{blank};
ghost use Rattle.txn_runner.specs.Body.{body};
ghost use Rattle.txn_runner.specs.Steps.{Answers, AnswersCached, Looks, TakesBack};

use crate::faults::{of_fetch, of_tree};
use crate::runner::Runner;
use btree_nodes::TreeFault;
use fine_model::{Call, FetchFault, RunFault, Why};
use log_disk::LogDisk;
use open_txn::{Buckets, answer_all};
use partition_hold::View;
use room_shelf::{CachedNodes, view_of};
use txn_draft::Draft;

impl<D: LogDisk> Runner<D> {
    /// Takes back what the open transaction did to the buckets.
    pub(crate) fn take_back(&self, buckets: &mut Buckets, keep: usize)
        ensures { TakesBack (body self.now buckets.old) (body self.now buckets.new) }
    {
        let published = self.room.sealed();
        buckets.undo(published, keep);
    }

    /// The view, taken from its place; a new one where none was out.
    fn look(&mut self) -> Result<View<D::Eye>, FetchFault>
        requires shelf { IsShelf self.old.room.room self.old.view }
        ensures { (buckets : BucketsValue) → Looks (body self.old buckets) (body self.new buckets) result }
    {
        let out = self.view.take();
        let looked = view_of(&mut self.room, out);
        let _whole = self.room.sealed();
        looked
    }

    /// Whether the nodes that are cached may do for the calls of a transaction: no view is out, and the room is open.
    fn reads_cached(&self) -> bool
        ensures { OnTrue result (self.now.room.room.is_shut ≡ false) }
    {
        self.view.is_none() && !self.room.is_shut()
    }

    /// Answers the calls of a transaction by the nodes that are cached. `None` where one of them is not: what was done to the buckets is taken back then.
    fn answer_cached(
        &self,
        buckets: &mut Buckets,
        draft: &mut Draft,
        calls: &[Call],
        keep: usize,
    ) -> Option<Result<Option<Why>, RunFault>>
        requires shelf { IsShelf self.now.room.room self.now.view }
        requires opened { self.now.room.room.is_shut ≡ false }
        requires blank { draft.old ≡ blank draft.old.lane draft.old.turn }
        requires calls { AllByRecursion FitsCall calls.now }
        ensures place { (draft.new.lane ≡ draft.old.lane) × (draft.new.turn ≡ draft.old.turn) }
        ensures answers { (group : ℕ) → AnswersCached group (body self.now buckets.old) (body self.now buckets.new) draft.new calls.now result }
    {
        let _whole = self.room.sealed();
        let mut nodes = CachedNodes::of(&self.room);
        match answer_all(&mut nodes, buckets, draft, calls) {
            Ok(()) => Some(Ok(None)),
            Err(fault) => {
                self.take_back(buckets, keep);
                match fault {
                    TreeFault::Source { fault: _ } => None,
                    fault => Some(of_tree(fault)),
                }
            }
        }
    }

    /// Answers the calls of a transaction through the view, which is made where none was out.
    fn answer_loading(
        &mut self,
        buckets: &mut Buckets,
        draft: &mut Draft,
        calls: &[Call],
        keep: usize,
    ) -> Result<Option<Why>, RunFault>
        requires shelf { IsShelf self.old.room.room self.old.view }
        requires blank { draft.old ≡ blank draft.old.lane draft.old.turn }
        requires calls { AllByRecursion FitsCall calls.now }
        ensures place { (draft.new.lane ≡ draft.old.lane) × (draft.new.turn ≡ draft.old.turn) }
        ensures answers { (group : ℕ) → Answers group (body self.old buckets.old) (body self.new buckets.new) draft.new calls.now result }
    {
        match self.look() {
            Ok(mut view) => {
                let answer = answer_all(&mut view, buckets, draft, calls);
                self.view = Some(view);
                match answer {
                    Ok(()) => Ok(None),
                    Err(fault) => {
                        self.take_back(buckets, keep);
                        of_tree(fault)
                    }
                }
            }
            Err(fault) => Err(of_fetch(fault)),
        }
    }

    /// Answers the calls of a transaction: where no view is out, by the nodes that are cached alone, if these do; else through the view, from the first call on. `None` where
    /// all were answered: the buckets are open then. With a refusal or a fault they are taken back, or were never touched.
    pub(crate) fn answer(
        &mut self,
        buckets: &mut Buckets,
        draft: &mut Draft,
        calls: &[Call],
        keep: usize,
    ) -> Result<Option<Why>, RunFault>
        requires shelf { IsShelf self.old.room.room self.old.view }
        requires blank { draft.old ≡ blank draft.old.lane draft.old.turn }
        requires calls { AllByRecursion FitsCall calls.now }
        ensures place { (draft.new.lane ≡ draft.old.lane) × (draft.new.turn ≡ draft.old.turn) }
        ensures answers { (group : ℕ) → Answers group (body self.old buckets.old) (body self.new buckets.new) draft.new calls.now result }
    {
        if !self.reads_cached() {
            return self.answer_loading(buckets, draft, calls, keep);
        }
        match self.answer_cached(buckets, draft, calls, keep) {
            Some(answered) => answered,
            None => {
                draft.clear();
                self.answer_loading(buckets, draft, calls, keep)
            }
        }
    }
}
