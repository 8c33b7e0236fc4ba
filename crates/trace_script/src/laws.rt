//! Laws of the definitions: each function is its contract alone.

ghost use Rattle.std.specs.Prelude.{◌≡◌, ◌≢◌, ◌+◌, ◌*◌, ◌^◌, ℕ, List, Some, None, [], Ok, codes, length};
ghost use Rattle.std.specs.Prelude.{option_map, slice_get};
ghost use Rattle.trace_options.specs.SignalNames.{signal_name};
ghost use Rattle.trace_options.specs.Syscalls.{syscall_named};
ghost use Rattle.trace_record.specs.Resume.{IsResume};
ghost use Rattle.trace_record.specs.declared.death.Death.{Death};
ghost use Rattle.trace_record.specs.declared.resume.Resume.{Resume};
ghost use Rattle.trace_record.specs.Content.{Content};
ghost use Rattle.trace_pages.specs.FlatMemory.{SameAddresses};
ghost use Rattle.trace_pages.specs.declared.pages.TheConstants.{MOST_PAGES, PAGE_SIZE};
ghost use Rattle.trace_script.specs.Births.{AreGood, HaveValidSignals, IsGoodOutcome, ReportsBirths, ReportsNoBirths};
ghost use Rattle.trace_script.specs.Births.{born_by, children_reported};
ghost use Rattle.trace_script.specs.CaseFacts.{IsCase, IsScript};
ghost use Rattle.trace_script.specs.CaseFile.{CaseContent, case_of};
ghost use Rattle.trace_script.specs.CaseSpelling.{IsSpelled, case_spelling};
ghost use Rattle.trace_script.specs.Fills.{EndsDead, HasMappedFills, KeepsAddresses};
ghost use Rattle.trace_script.specs.Script.{Script};
ghost use Rattle.trace_script.specs.StopNumbers.{IsWithin};
ghost use Rattle.trace_script.specs.StopTrace.{Broken, Context, Dead, DeathIs, FaultIs, FollowsTrace, Obeys, Policy};
ghost use Rattle.trace_script.specs.StopTrace.{Position, StopIs, Turn, context_after, ended_trace, how_after};
ghost use Rattle.trace_script.specs.StopTrace.{next_element, next_position, opening_position, outcome_at};
ghost use Rattle.trace_script.specs.StopTrace.{position_after, trace_at, trace_of, with_stops};
ghost use Rattle.trace_script.specs.declared.calls.TheConstants.{CLONE, CLONE_THREAD_FLAGS, EXECVE, EXIT, FORK};
ghost use Rattle.trace_script.specs.declared.case.keyword.TheConstants.{KEYWORDS};
ghost use Rattle.trace_script.specs.declared.case.signals.TheConstants.{LAST_STANDARD, SIGKILL, SIGSTOP, SIGTSTP};
ghost use Rattle.trace_script.specs.declared.case.signals.TheConstants.{SIGTTIN, SIGTTOU};
ghost use Rattle.trace_script.specs.declared.limits.TheConstants.{MOST_BYTES, MOST_STEPS};
ghost use Rattle.trace_script.specs.declared.setting.Setting.{Setting};

/// A run is the trace: where each stop is the next element for the restart and the content taken up, and each restart
/// the policy's, the stops of the run are those with which the trace under the policy begins; and it ends as the run
/// ends.
pub fn runs_are_traces()
    ensures stops { (policy : Policy) (p : Position) (how : Resume) (x : Context) (turns : List Turn) →
        FollowsTrace p turns → Obeys policy how x turns → trace_at policy p how x
        ≡ with_stops turns
        (trace_at policy (position_after p turns) (how_after policy how turns) (context_after x turns)) }
    ensures death { (policy : Policy) (p : Position) (how : Resume) (x : Context) (death : Death) →
        next_element p how x ≡ DeathIs death → trace_at policy p how x ≡ ended_trace (Dead death) }
    ensures fault { (policy : Policy) (p : Position) (how : Resume) (x : Context) (address : ℕ) →
        next_element p how x ≡ FaultIs address → trace_at policy p how x ≡ ended_trace (Broken address) }
    ensures opening { (policy : Policy) (s : Setting) (script : Script) (how : Resume) (x : Context) →
        trace_of policy s script ≡ trace_at policy (opening_position s script) how x }
{}

/// The stops of a script are numbered 1, 2, 3 and so on, and a script of n steps makes at most 4 n + 2 stops: four in
/// a step, the first one, and where the steps run out the one before the death.
pub fn stops_are_numbered()
    ensures opening { (s : Setting) (script : Script) →
        IsWithin (2 + 4 * length script.steps) (opening_position s script) }
    ensures stays { (most : ℕ) (p : Position) (how : Resume) (x : Context) →
        IsWithin most p → IsWithin most (next_position p how x) }
    ensures setting { (p : Position) (how : Resume) (x : Context) → (next_position p how x).setting ≡ p.setting }
    ensures stop { (p : Position) (how : Resume) (x : Context) (content : Content) →
        next_element p how x ≡ StopIs content → (content.tid ≡ p.setting.tid) × (content.number ≡ p.number + 1)
        × ((next_position p how x).number ≡ content.number) }
{}

/// What comes next is a stop or a death that a tracee can have, and births come in order: where the setting reports
/// births, stops name the children of the script in their order; where it does not, no stop names a child.
pub fn stops_are_in_range()
    ensures next { (p : Position) (how : Resume) (x : Context) → IsResume how → AreGood p.left →
        IsGoodOutcome p.setting (children_reported p.setting p.left) (outcome_at p how x) }
    ensures opening { (s : Setting) (script : Script) → HaveValidSignals script.steps →
        AreGood (opening_position s script).left }
    ensures births { (s : Setting) (script : Script) → ReportsBirths s →
        children_reported s (opening_position s script).left ≡ born_by script.steps }
    ensures no_births { (s : Setting) (script : Script) → ReportsNoBirths s →
        children_reported s (opening_position s script).left ≡ [] }
{}

/// A script whose fills are mapped never faults, under any policy, and in any run in which nobody changes which
/// addresses are mapped.
pub fn mapped_fills_never_fault()
    ensures trace { (policy : Policy) (s : Setting) (script : Script) → HasMappedFills script →
        EndsDead (trace_of policy s script).ending }
    ensures run { (s : Setting) (script : Script) (x : Context) (turns : List Turn) (how : Resume) (now : Context)
        (address : ℕ) → HasMappedFills script → FollowsTrace (opening_position s script) turns →
        KeepsAddresses x turns →
        SameAddresses now.memory (context_after x turns).memory →
        next_element (position_after (opening_position s script) turns) how now ≢ FaultIs address }
{}

/// The steps that are calls of their own have the numbers of the table of system calls.
#[tactic(auto, unfolding(trace_options::specs::Syscalls::syscall_table))]
pub fn steps_are_known_calls()
    ensures clone { option_map (λ call. call.number) (syscall_named (codes "clone")) ≡ Some CLONE }
    ensures fork { option_map (λ call. call.number) (syscall_named (codes "fork")) ≡ Some FORK }
    ensures execve { option_map (λ call. call.number) (syscall_named (codes "execve")) ≡ Some EXECVE }
    ensures exit { option_map (λ call. call.number) (syscall_named (codes "exit")) ≡ Some EXIT }
{}

/// The signals that cannot arrive have the names of the table of signals, and the last signal is its last.
#[tactic(auto, unfolding(trace_options::specs::SignalNames::signal_table))]
pub fn signals_are_known()
    ensures kill { signal_name SIGKILL ≡ Some (codes "SIGKILL") }
    ensures stop { signal_name SIGSTOP ≡ Some (codes "SIGSTOP") }
    ensures tstp { signal_name SIGTSTP ≡ Some (codes "SIGTSTP") }
    ensures ttin { signal_name SIGTTIN ≡ Some (codes "SIGTTIN") }
    ensures ttou { signal_name SIGTTOU ≡ Some (codes "SIGTTOU") }
    ensures last { signal_name LAST_STANDARD ≡ Some (codes "SIGSYS") }
    ensures later { signal_name (LAST_STANDARD + 1) ≡ None }
{}

/// The limits of files, scripts and images, the bytes of a page (getpagesize(2)), the flags of the clone that makes a
/// thread (`<linux/sched.h>`, `CLONE_VM`, `CLONE_SIGHAND` and `CLONE_THREAD`), and how many words a line may begin
/// with.
pub fn numbers_are_fixed()
    ensures bytes { MOST_BYTES ≡ 2 ^ 24 }
    ensures steps { MOST_STEPS ≡ 2 ^ 16 }
    ensures pages { MOST_PAGES ≡ 256 }
    ensures page { PAGE_SIZE ≡ 4096 }
    ensures thread { CLONE_THREAD_FLAGS ≡ 0x100 + 0x800 + 0x10000 }
    ensures words { length KEYWORDS ≡ 11 }
{}

/// A case whose numbers a file can write, in a file that is not above the limit (`IsSpelled`), is read back from that
/// file. What `IsCase` says is known of every case that was read.
pub fn what_a_case_spells_is_read()
    ensures { (content : CaseContent) → IsCase content → IsSpelled content →
        case_of (case_spelling content) ≡ Ok content }
{}

/// What a tracee's thread needs to know of the script of a row: it is as `IsScript` says, with its births in order, its
/// fills mapped and at most 65,536 steps; and its signals are ones that a stop can have.
pub fn scripts_of_cases_are_in_range()
    ensures { (content : CaseContent) (row : ℕ) (script : Script) → IsCase content →
        slice_get content.scripts row ≡ Some script →
        IsScript content.rows row script × HaveValidSignals script.steps }
{}
