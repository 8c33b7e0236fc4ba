//! A run of a case: the World of its rows, what is kept of each row, and the pieces so far.

ghost use Rattle.std.specs.Prelude.{[], ◌≡◌, List, IfOk};
ghost use Rattle.stop_table.specs.Entry.{Entry};
ghost use Rattle.trace_script.specs.CaseFile.{CaseContent};
ghost use Rattle.tracer_workers.specs.Config.{text_of};
ghost use Rattle.tracer_workers.specs.Scheduled.{IsRunOver, Stands};

use crate::config::Config;
use crate::scheduled::events;
use crate::scheduled::traced_row::{TracedRow, new_rows};
use record_printer::{Folder, Show, Text};
use std::alloc::{Allocator, Global};
use std::marker::Model;
use stop_board::World;
use stop_history::TRACERS;
use trace_options::NoMemory;
use trace_script::Case;

/// A run of a case.
#[derive(Drop)]
pub(crate) struct Run<'a, A: Allocator = Global> {
    pub(crate) alloc: A,
    pub(crate) config: Config,
    /// What the configuration prints. It is made once, and not at each stop.
    pub(crate) show: Show,
    pub(crate) world: World<A>,
    pub(crate) folder: Folder<A>,
    pub(crate) rows: Vec<TracedRow<'a, A>, A>,
}

impl<'a, A: Allocator> Model for Run<'a, A> {
    ghost use Rattle.std.specs.Coded.{codes};
    ghost use Rattle.trace_pages.specs.FlatMemory.{flat_code};
    ghost use Rattle.std.specs.Prelude.{◌≡◌};
    ghost use Rattle.tracer_workers.specs.Config.{show_of};
    ghost use Rattle.tracer_workers.specs.Scheduled.{RunState};

    ghost Value = { RunState };

    ghost coded = { Prim.hlevel (codes, flat_code) };

    ghost view = { λ r. record { config = r.config; world = r.world; folder = r.folder; rows = r.rows.items } };

    ghost invariant = { λ r. r.show ≡ show_of r.config };
}

impl<'a, A: Allocator + Copy> Run<'a, A> {
    /// A run of a case before any event.
    pub(crate) fn new(alloc: A, case: &'a Case<A>, config: &Config) -> Result<Run<'a, A>, NoMemory>
        ensures stands { IfOk result (λ run. Stands case.now run []) }
        ensures config { IfOk result (λ run. run.config ≡ config.now) }
    {
        let world = World::new(alloc, case.roster(), TRACERS)?;
        let folder = Folder::new(alloc, case.roster())?;
        let rows = new_rows(alloc, case, config)?;
        Ok(Run {
            alloc,
            config: *config,
            show: config.show(),
            world,
            folder,
            rows,
        })
    }

    /// The text of a run that is over.
    pub(crate) fn finish(self) -> Result<Text<A>, NoMemory>
        requires { (content : CaseContent) × (h : List Entry) × Stands content self h × IsRunOver content h }
        ensures { (content : CaseContent) (h : List Entry) → Stands content self.entry h → IsRunOver content h →
            IfOk result (λ text. text ≡ text_of self.entry.config content) }
    {
        events::finish(self.folder)
    }
}
