//! What a machine does.

ghost use Rattle.std.specs.Prelude.{◌≡◌, ◌<◌, ◌≤◌, [], ℕ, drop, length, IfOk};
ghost use Rattle.stop_history.specs.Roster.{row_at};
ghost use Rattle.trace_options.specs.Options.{AreValidOptions, option_bits};
ghost use Rattle.trace_record.specs.Content.{content_by};
ghost use Rattle.trace_record.specs.declared.death.Death.{Death};
ghost use Rattle.trace_record.specs.declared.stop.Stop.TheVariants as stop;
ghost use Rattle.trace_script.specs.Arrivals.{reached};
ghost use Rattle.trace_script.specs.Births.{ReportsBirths, children_left, children_reported};
ghost use Rattle.trace_script.specs.CaseFile.{script_at};
ghost use Rattle.trace_script.specs.Kept.{script_of};
ghost use Rattle.trace_script.specs.Left.{left_in};
ghost use Rattle.trace_script.specs.Machine.{IsAnswer, IsAtDeath, StaysAtStop};
ghost use Rattle.trace_script.specs.Registers.{first_regs};
ghost use Rattle.trace_script.specs.StopTrace.{advance, context_of, next_element, next_position, opening_position};
ghost use Rattle.trace_script.specs.StopTrace.{under_filter, under_options};
ghost use Rattle.trace_script.specs.declared.step.effect.Reached.TheVariants as reached_at;

use crate::case::Case;
use crate::limits::MOST_STEPS;
use crate::machine::Machine;
use crate::machine::births::births_by;
use crate::machine::next::Next;
use crate::machine::progress::Progress;
use crate::script::copies::{copy_image, copy_steps};
use crate::script::{Image, Script, Step};
use crate::setting::{Setting, has_option};
use crate::step::effect::Reached;
use crate::step::look_ahead::fault_ahead;
use crate::step::registers::first_regs;
use crate::step::steps_run::{put_memory_in, run_steps};
use crate::step::walk::Walk;
use std::alloc::Allocator;
use trace_options::{Filter, NoMemory, Options};
use trace_pages::Memory;
use trace_record::{Resume, Stop, StopRecord};

impl<A: Allocator + Copy> Machine<A> {
    /// The machine of a row of a case, before its first stop. The options are ones that a tracer takes (`check`). It
    /// copies the row's script, and makes the pages of all its programs: as much memory as they have.
    pub fn new(
        alloc: A,
        case: &Case<A>,
        row: u32,
        options: Options,
        filter: &Filter,
    ) -> Result<Machine<A>, NoMemory>
        requires row { row < length case.now.rows }
        requires options { AreValidOptions (option_bits options) }
        ensures { IfOk result (λ machine. machine ≡ opening_position
            (record { tid = (row_at case.now.rows row).tid; options = options; filter = filter.now })
            (script_at case.now.scripts row)) }
    {
        let setting = Setting {
            tid: case.roster().row(row).tid,
            options,
            filter: *filter,
        };
        Machine::of_script(alloc, setting, case.script(row))
    }

    /// The machine of a script, before its first stop.
    fn of_script(alloc: A, setting: Setting, script: &Script<A>) -> Result<Machine<A>, NoMemory>
        requires { length script.now.steps.items ≤ MOST_STEPS }
        ensures { IfOk result (λ machine. machine ≡ opening_position setting (script_of script.now)) }
    {
        let image = copy_image(&script.image)?;
        let steps = copy_steps(alloc, script.steps.as_slice())?;
        let filled = Vec::from_slice(alloc, script.filled.as_slice())?;
        let empties = empties_for(alloc, steps.as_slice())?;
        Ok(Machine {
            setting,
            number: 0,
            progress: Progress::New,
            image,
            steps,
            filled,
            empties,
        })
    }
}

/// Memory with no page, once for the first program and once for that of each exec.
fn empties_for<A: Allocator + Copy>(
    alloc: A,
    steps: &[Step<Memory<A>>],
) -> Result<Vec<Memory<A>, A>, NoMemory> {
    let mut empties = Vec::new(alloc);
    empties.push(Memory::new(alloc))?;
    for step in steps {
        if let Step::Exec { .. } = step {
            empties.push(Memory::new(alloc))?;
        }
    }
    Ok(empties)
}

impl<A: Allocator> Machine<A> {
    /// Runs the tracee on, to its next stop or its death. The first call ignores the restart and what the record
    /// holds: it loads the program. Where TRACEEXIT is set, a stop (`Stop::Ending`) comes before the death, with the
    /// registers and the memory as they were (ptrace(2), `PTRACE_EVENT_EXIT`); after it the death comes whatever the
    /// restart is, and the record is left as it is. It takes no memory.
    pub fn next(&mut self, how: Resume, held: &mut StopRecord<A>) -> Next
        ensures element { IsAnswer (next_element self.old how (context_of held.old)) result held.old held.new }
        ensures ended { IsAtDeath self.old → held.new ≡ held.old }
        ensures position { self.new ≡ next_position self.old how (context_of held.old) }
    {
        match self.progress {
            Progress::New => {
                load(&mut self.image, held, &mut self.empties);
                self.progress = Progress::Going { index: 0, place: 0 };
                self.number += 1;
                sign(self.setting.tid, self.number, held);
                Next::Stop
            }
            Progress::Going { index, place } => {
                let walk = Walk {
                    setting: &self.setting,
                    how,
                    filled: self.filled.as_slice(),
                };
                match go_on(
                    &walk,
                    self.steps.as_mut_slice(),
                    index,
                    place,
                    held,
                    &mut self.empties,
                ) {
                    Reached::Stopped(index, place) => {
                        self.progress = Progress::Going { index, place };
                        self.number += 1;
                        sign(self.setting.tid, self.number, held);
                        Next::Stop
                    }
                    Reached::AtExit(death) => {
                        self.progress = Progress::Ended(death);
                        let_go(&mut self.steps);
                        let_go(&mut self.filled);
                        let_go(&mut self.empties);
                        if !has_option(&self.setting, Options::TRACEEXIT) {
                            return Next::Death(death);
                        }
                        held.stop = Stop::Ending(death);
                        self.number += 1;
                        sign(self.setting.tid, self.number, held);
                        Next::Stop
                    }
                    Reached::Faulted(addr) => Next::Fault(addr),
                }
            }
            Progress::Ended(death) => Next::Death(death),
        }
    }
}

impl<A: Allocator> Machine<A> {
    /// Sets the options that the tracee stops by from its next stop on (ptrace(2), `PTRACE_SETOPTIONS`). They are ones
    /// that a tracer takes (`check`). What is left of the script stays the same, and so does the number of the last stop.
    /// Where they report births, stops name all the children that are left.
    pub fn set_options(&mut self, options: Options)
        requires { AreValidOptions (option_bits options) }
        ensures position { self.new ≡ under_options options self.old }
        ensures births { ReportsBirths self.new.setting →
            children_reported self.new.setting self.new.left ≡ children_left self.old.left }
    {
        self.setting.options = options;
    }

    /// Sets the filter that stops the tracee's calls from its next stop on: each seccomp stop has the data of the new one
    /// (seccomp(2), `SECCOMP_RET_TRACE`). What is left of the script stays the same otherwise, and so does the number of
    /// the last stop.
    pub fn set_filter(&mut self, filter: &Filter)
        ensures { self.new ≡ under_filter filter.now self.old }
    {
        self.setting.filter = *filter;
    }

    /// How many children the script creates from the machine's place on, whether a stop names them or not
    /// (`PTRACE_EVENT_FORK`, `PTRACE_EVENT_CLONE`). A birth is past once the tracee has come to its event, or would have
    /// stopped there. Steps after an exit of the script's are counted too, until it exits; after that it is 0.
    pub fn births_left(&self) -> u32
        ensures { result ≡ length (children_left self.now.left) }
    {
        let births = births_by(self.progress, self.steps.as_slice());
        births as u32
    }
}

/// Drops steps, bytes or memories, which nothing needs after the exit, and frees what they take.
fn let_go<T: Drop, A: Allocator>(items: &mut Vec<T, A>)
    ensures { items.new.items ≡ [] }
{
    items.clear();
    items.shrink_to_fit();
}

/// Loads the program, for the first stop.
fn load<A: Allocator>(
    image: &mut Image<Memory<A>>,
    held: &mut StopRecord<A>,
    empties: &mut Vec<Memory<A>, A>,
)
    ensures stop { held.new.stop ≡ stop.Start }
    ensures regs { held.new.regs ≡ first_regs image.old.rip image.old.rsp }
    ensures memory { held.new.memory ≡ image.old.memory }
{
    put_memory_in(image, held, empties);
    held.regs = first_regs(image.rip, image.rsp);
    held.stop = Stop::Start;
}

/// Sets the record's tid and number.
fn sign<A: Allocator>(tid: u32, number: u32, held: &mut StopRecord<A>)
    ensures { held.new ≡ content_by tid number held.old.stop held.old.regs held.old.memory }
{
    held.tid = tid;
    held.number = number;
}

/// Does the acts that are left of steps from a place in one of them on, unless a store on the way faults: then nothing
/// is done.
fn go_on<A: Allocator>(
    walk: &Walk<'_>,
    steps: &mut [Step<Memory<A>>],
    index: usize,
    place: u32,
    held: &mut StopRecord<A>,
    empties: &mut Vec<Memory<A>, A>,
) -> Reached
    ensures outcome { advance walk.now.setting.now walk.now.how
        (left_in walk.now.setting.now walk.now.filled.now (drop index steps.old) place) (context_of held.old)
        ≡ reached walk.now.setting.now walk.now.how result walk.now.filled.now steps.new held.new.stop
        (context_of held.new) }
    ensures len { length steps.new ≡ length steps.old }
    ensures fault { (address : ℕ) → result ≡ reached_at.Faulted address →
        (steps.new ≡ steps.old) × (held.new ≡ held.old) }
    ensures exits { (death : Death) → result ≡ reached_at.AtExit death → StaysAtStop held.old held.new }
{
    if let Some(addr) = fault_ahead(walk, steps, index, place, &held.memory) {
        return Reached::Faulted(addr);
    }
    run_steps(walk, steps, index, place, held, empties)
}
