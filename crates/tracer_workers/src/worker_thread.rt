//! A worker's thread.

ghost use Rattle.std.specs.Prelude.{◌≡◌, ◌≢◌, ◌∷◌, ◌++◌, [], List, MatchOption, Ok, Some, false};
ghost use Rattle.record_printer.specs.Piece as pieces;
ghost use Rattle.stop_table.specs.Entry.{content_after};
ghost use Rattle.stop_table.specs.Handle.{IsSame};
ghost use Rattle.stop_table.specs.Tracer.{IsTracerHandle, held_rows};
ghost use Rattle.trace_calls.specs.declared.row_status.RowStatus.{RowStatus};
ghost use Rattle.trace_calls.specs.Answer.{HasFound};
ghost use Rattle.trace_calls.specs.ByRow.{HasClaimedRow};
ghost use Rattle.trace_calls.specs.Handle.{KeepsTable, claimed_record, tracer_of};
ghost use Rattle.stop_history.specs.WaitRequest.{anyone};
ghost use Rattle.trace_calls.specs.Waiting.{NoChild};
ghost use Rattle.tracer_workers.specs.Config.{show_of};
ghost use Rattle.tracer_workers.specs.HistoryPieces.{stop_piece};
ghost use Rattle.tracer_workers.specs.WorkerThread.{AreKept, AreOverForGood, Restarts, RestartsByPolicy, own_pieces};

use crate::config::{Config, policy};
use crate::gate::Gate;
use crate::invariants;
use record_printer::{Piece, death_piece, piece_of};
use std::alloc::{Allocator, Global};
use std::sync::Wait;
use std::time::Clock;
use trace_calls::{Calls, Id, Patience, RowStatus};
use trace_options::{Errno, WaitFlags};
use trace_record::Death;

/// How many workers look again at once where there is nothing to serve. With 16 that do, a run of 64 rows on four
/// processors takes 1.4 times as long as with 4.
const AT_ONCE: u32 = 4;

/// What a worker brings back: what it has kept of the stops and deaths that it has claimed.
#[derive(Drop)]
pub struct KeptPieces<A: Allocator = Global> {
    /// The pieces of the stops and deaths that it has claimed, in the order of the claims.
    pub pieces: Vec<Piece<A>, A>,
    /// Whether a growth was refused: then the pieces from there on are missing.
    pub short: bool,
}

/// Serves the stops and deaths of all tracees, until no tracee can have one any more: each row is then unborn or reaped,
/// for good. A stop that it claims it restarts by the policy, and of each stop and death it keeps the piece. Where a growth
/// is refused it serves on and keeps no further piece. Between a claim and its restart it calls the gate, with its number.
///
/// It has claimed nothing when it begins and when it returns. It waits for stops and deaths, and where other threads do not
/// run its tracees or serve what they have claimed, it may never return.
pub fn run_worker<A: Allocator + Copy, R: Wait + Clock, G: Gate>(
    rt: &R,
    alloc: A,
    calls: &mut Calls<A>,
    config: &Config,
    worker: u32,
    gate: &G,
) -> KeptPieces<A>
    requires { held_rows calls.old.view ≡ [] }
    ensures handle { KeepsTable calls.old calls.new × IsSame calls.old.view calls.new.view }
    ensures free { held_rows calls.new.view ≡ [] }
    ensures restarts { RestartsByPolicy config.now calls.old.view calls.new.view }
    ensures pieces { AreKept (own_pieces (show_of config.now) calls.old.view) (own_pieces (show_of config.now) calls.new.view)
        result.pieces.items result.short }
    ensures over { AreOverForGood calls.new.view.roster calls.new.view.seen }
{
    let mut kept = KeptPieces {
        pieces: Vec::new(alloc),
        short: false,
    };
    invariants::of_calls(calls);
    let mut from = 0;
    for _ in rt.forever() {
        let Some(found) = next_found(rt, calls, worker, from) else {
            return kept;
        };
        from = found.row.saturating_add(1);
        match found.death {
            Some(death) => kept.keep_death(calls.tid(found.row), found, death),
            None => {
                invariants::of_calls(calls);
                kept.keep_stop(alloc, calls, found.row, config);
                restart(calls, found.row, config, worker, gate);
            }
        }
    }
    unreachable!()
}

/// What is served next: of the rows from this one on, tried in turn, the first that has a stop or a death; where none
/// has, what a wait for all rows answers. None: no tracee can have one any more. So rows that have ended are not looked
/// at again for each stop of a later row.
///
/// Some workers look at once, the others sleep between their tries of that wait: what a few serve alone needs no more,
/// and looks of theirs would take the processors from the tracees.
fn next_found<A: Allocator, R: Wait + Clock>(
    rt: &R,
    calls: &mut Calls<A>,
    worker: u32,
    from: u32,
) -> Option<RowStatus>
    requires { IsTracerHandle (tracer_of calls.old) }
    ensures table { KeepsTable calls.old calls.new }
    ensures answer { MatchOption result (NoChild anyone calls.old.view calls.new.view)
        (λ found. HasFound calls.old calls.new found) }
{
    for row in from..calls.rows() {
        if let Some(found) = status_in(calls.wait_one(row)) {
            return Some(found);
        }
    }
    let patience = if worker < AT_ONCE {
        Patience::new()
    } else {
        Patience::with_looks(1)
    };
    status_in(calls.wait_row_blocking(rt, Id::All, WaitFlags::WEXITED, patience))
}

/// The status that a wait answered, if it answered one.
fn status_in(answer: Result<Option<RowStatus>, Errno>) -> Option<RowStatus>
    ensures { MatchOption result ((found : RowStatus) → answer ≢ Ok (Some found)) (λ found. answer ≡ Ok (Some found)) }
{
    match answer {
        Ok(found) => found,
        Err(_) => None,
    }
}

impl<A: Allocator> KeptPieces<A> {
    /// Keeps a piece, unless a growth was refused.
    fn keep(&mut self, piece: Piece<A>)
        requires { self.old.short ≡ false }
        ensures { (before after : List pieces.Piece) →
            AreKept before after self.old.pieces.items self.old.short →
            AreKept before (after ++ piece ∷ []) self.new.pieces.items self.new.short }
    {
        if let Err(_) = self.pieces.push(piece) {
            self.short = true;
        }
    }

    /// Keeps the piece of a death that was claimed, with the number of the last stop.
    fn keep_death(&mut self, tid: u32, found: RowStatus, death: Death)
        ensures { (before after : List pieces.Piece) →
            AreKept before after self.old.pieces.items self.old.short →
            AreKept before (after ++ pieces.Died tid found.number death ∷ []) self.new.pieces.items self.new.short }
    {
        if !self.short {
            self.keep(death_piece(tid, found.number, death).with_row(found.row));
        }
    }
}

impl<A: Allocator + Copy> KeptPieces<A> {
    /// Keeps the piece of a stop that is claimed.
    fn keep_stop<B: Allocator>(&mut self, alloc: A, calls: &Calls<B>, row: u32, config: &Config)
        requires { HasClaimedRow calls.now row }
        ensures { (before after : List pieces.Piece) →
            AreKept before after self.old.pieces.items self.old.short →
            AreKept before (after ++ stop_piece (show_of config.now) (claimed_record calls.now row) ∷ [])
            self.new.pieces.items self.new.short }
    {
        let Some(stop) = calls.claimed_row(row) else {
            unreachable!()
        };
        if self.short {
            return;
        }
        match piece_of(alloc, stop, &config.show()) {
            Ok(piece) => self.keep(piece.with_row(row)),
            Err(_) => self.short = true,
        }
    }
}

/// Restarts by the policy a row whose stop is claimed. Before that it calls the gate.
fn restart<A: Allocator, G: Gate>(
    calls: &mut Calls<A>,
    row: u32,
    config: &Config,
    worker: u32,
    gate: &G,
)
    requires row { HasClaimedRow calls.old row }
    requires record { claimed_record calls.old row
        ≡ content_after calls.old.view.roster calls.old.view.seen row }
    ensures table { KeepsTable calls.old calls.new }
    ensures restarts { Restarts config.now calls.old.view calls.new.view row }
{
    invariants::of_calls(calls);
    let Some(stop) = calls.claimed_row(row) else {
        unreachable!()
    };
    let how = policy(stop, config);
    gate.between(worker, stop.tid, stop.number);
    let Ok(()) = calls.restart_row(row, how) else {
        unreachable!()
    };
}
