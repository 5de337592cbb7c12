//! Runs that count graphs.
ghost use Rattle.std.specs.Prelude.{◌≡◌, ◌<◌, ◌≤◌, ◌++◌, List, ⊤, IfOk, IfErr, OnOk, filter, length, option_to_list};
ghost use Rattle.std.proofs.Common.{refl, ◌∙◌};
ghost use Rattle.ruled_lanes.specs.declared.channel.TheConstants.{LANES};
ghost use Rattle.reports.specs.declared.book.TheConstants.{MAX_FILES};
ghost use Rattle.lanes.specs.Faults.{IsOfLanes};
ghost use Rattle.graph_facts.specs.declared.selection.Facts.{Facts};
ghost use Rattle.graph_facts.specs.Conditions.{chooses};
ghost use Rattle.collector.specs.Counted.{IsAllCounted};
ghost use Rattle.collector.specs.CountsHeld.{CountsHold, counted_stop};
ghost use Rattle.graph_facts.specs.Tables.{IsTable};

use crate::find_facts::{Flaws, FoundFacts, add_flaw, fact_lane_kind, set_mark, unread_flaws};
use file_order::{KnownEnd, KnownFiles};
use graph_facts::{Columns, Counts, Facts, Selection};
use lanes::{Consumer, Gate, Opener, Run, RunFault, run_lanes};
use std::marker::Brand;
use std::sync::Wait;
use std::thread::Threads;
use streams::{Mark, SinkFault};

/// The table of the chosen graphs of files, and what is lacking in each file.
///
/// It is the consumer of the lanes' messages. It counts graphs in whatever order they arrive, and buffers nothing.
#[derive(Drop)]
pub struct Counted {
    /// The graphs that are counted.
    pub selection: Selection,
    pub counts: Counts,
    pub flaws: Vec<Flaws>,
}

/// Runs lanes over the files of `run`; returns the table, in `columns`, of the graphs that `selection` chooses, and the
/// flaws of each file, in order (lack of memory for one record is a flaw, no error). `Memory` if there is no memory for
/// the run, `LaneLost` if an end of a link is gone or a message is wrong, `Thread` if a thread cannot be started.
///
/// Memory grows with the number of different combinations alone.
///
/// # Errors
///
/// `Memory`: no memory for links, the fan, tickets, buffers, lists of lanes or combinations. `LaneLost`: an end of a
/// link or of the fan was gone, or a message came that no lane gives. `Thread`: a thread could not be started.
pub fn count_files<R: Threads + Wait + Sync, O: Opener, G: Gate>(
    run: &Run<'_, R, O, G>,
    selection: Selection,
    columns: Columns,
) -> Result<Counted, RunFault<SinkFault>>
    requires few_files { run.now.files ≤ MAX_FILES }
    requires some { 0 < run.now.lanes }
    requires few { run.now.lanes ≤ LANES }
    ensures counted { IfOk result (λ c. IsAllCounted selection columns run.now.choice (O.meaning run.now.opener.now) run.now.files
        c.flaws.items c.counts) }
    ensures failed { IfErr result IsOfLanes }
{
    count_known::<Brand, _, _, _>(run, selection, columns)
}

/// Runs lanes over the files of `run`, which mean what the type `J` says; returns the table, in `columns`, of the
/// graphs that `selection` chooses, and the flaws of each file. `Memory` if there is no memory for the run, `LaneLost`
/// if an end of a link is gone or a message is wrong, `Thread` if a thread cannot be started.
fn count_known<J: KnownFiles + Send + Sync, R: Threads + Wait + Sync, O: Opener, G: Gate>(
    run: &Run<'_, R, O, G>,
    selection: Selection,
    columns: Columns,
) -> Result<Counted, RunFault<SinkFault>>
    requires few_files { run.now.files ≤ MAX_FILES }
    requires some { 0 < run.now.lanes }
    requires few { run.now.lanes ≤ LANES }
    requires same_meaning { J.meaning ≡ O.meaning run.now.opener.now }
    ensures counted { IfOk result (λ c. IsAllCounted selection columns run.now.choice (O.meaning run.now.opener.now) run.now.files
        c.flaws.items c.counts) }
    ensures failed { IfErr result IsOfLanes }
{
    let flaws = unread_flaws(run.alloc, run.files)?;
    let counts = Counts::new(run.alloc, columns);
    let counted = Counted {
        selection,
        counts,
        flaws,
    };
    let lanes = fact_lane_kind::<J>();
    let mut ran = Ok(());
    let counted = run_lanes(run, &lanes, counted, &mut ran);
    match ran {
        Ok(()) => Ok(counted),
        Err(fault) => Err(fault),
    }
}

impl<J: KnownFiles + Send + Sync> Consumer<FoundFacts<J>, KnownEnd<J>> for Counted {
    type Refusal = SinkFault;

    ghost holds = { λ c ns. CountsHold c.selection c.counts c.flaws.items ns };

    ghost stays = { λ a b. (b.selection ≡ a.selection) × (b.counts.columns ≡ a.counts.columns) × (length b.flaws.items ≡ length a.flaws.items) };

    ghost gave_up = { λ _ fault. IsOfLanes fault };

    ghost passed_on = { λ _. ⊤ };

    /// Counts one more record: as a flaw of its file if it has no facts, otherwise in the table if the selection
    /// chooses it. `Memory` if there is no memory for a new combination, `LaneLost` if the run has no such file or a
    /// count is at its maximum. After an error everything is as it was.
    fn item(&mut self, item: FoundFacts<J>) -> Result<(), RunFault<SinkFault>> {
        if (item.file as usize) >= self.flaws.len() {
            return Err(RunFault::LaneLost);
        }
        add_flaw(&mut self.flaws, item.file, item.ordinal, &item.facts)?;
        let selection = self.selection;
        count_chosen(&mut self.counts, &selection, &item.facts)
    }

    /// Sets the mark in the flaws of file `file` to `mark`; uses nothing of `_known`. `LaneLost` if the run has no such
    /// file; then nothing changes.
    fn end(
        &mut self,
        file: u32,
        mark: Mark,
        _known: KnownEnd<J>,
    ) -> Result<(), RunFault<SinkFault>> {
        if (file as usize) >= self.flaws.len() {
            return Err(RunFault::LaneLost);
        }
        set_mark(&mut self.flaws, file, mark);
        Ok(())
    }

    /// Always true: graphs are counted at once, and nothing waits for `flush`.
    fn is_flushed(&self) -> bool {
        true
    }

    /// Does nothing, and always returns `Ok`: nothing is buffered here.
    fn flush(&mut self) -> Result<(), RunFault<SinkFault>> {
        Ok(())
    }

    ghost holds_on = { λ c ns held. counted_stop _ _ _ _ held };

    ghost stays_itself = { λ c. (refl, refl, refl) };

    ghost stays_on = { λ a b c p q. (q.0 ∙ p.0, q.1 ∙ p.1, q.2 ∙ p.2) };
}

/// Adds a graph with these `facts` to the table `counts` if `selection` chooses it; does nothing if `facts` is `None`.
/// `Memory` if there is no memory for a new combination, `LaneLost` if 2^64 - 1 graphs are counted already; after an
/// error `counts` is as it was.
///
/// # Errors
///
/// `Memory` if there is no memory for a new combination; `LaneLost` if there are too many graphs to count.
fn count_chosen(
    counts: &mut Counts,
    selection: &Selection,
    facts: &Option<Facts>,
) -> Result<(), RunFault<SinkFault>>
    ensures columns { counts.new.columns ≡ counts.old.columns }
    ensures table { OnOk result ((graphs : List Facts) → IsTable graphs counts.old
        → IsTable (graphs ++ filter (chooses selection.now) (option_to_list facts.now)) counts.new) }
    ensures failed { IfErr result IsOfLanes }
{
    let Some(facts) = facts else {
        return Ok(());
    };
    if !selection.chooses(facts) {
        return Ok(());
    }
    if counts.total() == u64::MAX {
        return Err(RunFault::LaneLost);
    }
    match counts.add(facts) {
        Ok(()) => Ok(()),
        Err(_) => Err(RunFault::Memory),
    }
}
