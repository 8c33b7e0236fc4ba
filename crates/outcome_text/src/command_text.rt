//! The text of a thread's command: its words, with one space between them.

ghost use Rattle.std.specs.Prelude.{◌≡◌, ◌++◌, ◌∷◌, [], ℕ, List, OnOk, decimal, string_bytes};
ghost use Rattle.std.specs.List.{join_with_byte};
ghost use Rattle.litmus_files.specs.CommandText.{board_call_words, command_text, tracee_word};
ghost use Rattle.outcome_text.specs.SpacedWords.{spaced};
ghost use Rattle.replay_files.specs.Spelling.{death_words, kind_word, stop_words};

use replay_files::{tid_at, write_number};
use std::alloc::Allocator;
use stop_board::{NoMemory, Row};
use stop_program::{BoardCall, ThreadCommand, Which};
use trace_record::{Death, Kind, Resume, Stop};

/// Writes a command, without the reply that it needs.
pub(crate) fn write_command<A: Allocator>(
    out: &mut String<A>,
    rows: &[Row],
    command: &ThreadCommand,
) -> Result<(), NoMemory>
    ensures { OnOk result (string_bytes out.new ≡ string_bytes out.old ++ command_text rows.now command.now) }
{
    write_call(out, rows, command.which, command.waits, command.call)
}

/// Writes a call about a tracee, of a command that waits or not.
pub(crate) fn write_call<A: Allocator>(
    out: &mut String<A>,
    rows: &[Row],
    which: Which,
    waits: bool,
    asked: BoardCall,
) -> Result<(), NoMemory>
    ensures { OnOk result (string_bytes out.new
        ≡ string_bytes out.old ++ join_with_byte 32 (board_call_words (tracee_word rows.now which) waits asked)) }
{
    match asked {
        BoardCall::Publish(stop) => {
            write_verb(out, "publish", rows, which)?;
            write_stop(out, stop)
        }
        BoardCall::State => write_verb(out, "state", rows, which),
        BoardCall::Look(tracer) => write_with_number(out, look_verb(waits), rows, which, tracer),
        BoardCall::Claim(tracer) => write_with_number(out, claim_verb(waits), rows, which, tracer),
        BoardCall::Resume(tracer, how) => {
            write_with_number(out, "resume", rows, which, tracer)?;
            write_restart(out, how)
        }
        BoardCall::Exit(death) => {
            write_verb(out, "exit", rows, which)?;
            write_death(out, death)
        }
        BoardCall::Kill => write_verb(out, "kill", rows, which),
        BoardCall::ExitGroup(code) => {
            write_with_number(out, "exit_group", rows, which, u32::from(code))
        }
    }
}

/// The first word of a claim.
fn claim_verb(waits: bool) -> &'static str
    ensures { (tracee : List ℕ) (tracer : ℕ) →
        board_call_words tracee waits (BoardCall.Claim tracer) ≡ result.now ∷ tracee ∷ decimal tracer ∷ [] }
{
    if waits { "wait" } else { "claim" }
}

/// The first word of a look.
fn look_verb(waits: bool) -> &'static str
    ensures { (tracee : List ℕ) (tracer : ℕ) →
        board_call_words tracee waits (BoardCall.Look tracer) ≡ result.now ∷ tracee ∷ decimal tracer ∷ [] }
{
    if waits { "look" } else { "peek" }
}

/// Writes a call's first word, and the tracee that it is about.
#[tactic(auto, using(replay_files::proofs::Written::in_two))]
fn write_verb<A: Allocator>(
    out: &mut String<A>,
    verb: &str,
    rows: &[Row],
    which: Which,
) -> Result<(), NoMemory>
    ensures { OnOk result (string_bytes out.new
        ≡ string_bytes out.old ++ (verb.now ++ spaced (tracee_word rows.now which ∷ []))) }
{
    out.push_str(verb)?;
    write_tracee(out, rows, which)?;
    Ok(())
}

/// Writes a call's first word, the tracee that it is about, and a number: the tracer that calls, or a code.
#[tactic(auto, using(replay_files::proofs::Written::in_two))]
fn write_with_number<A: Allocator>(
    out: &mut String<A>,
    verb: &str,
    rows: &[Row],
    which: Which,
    number: u32,
) -> Result<(), NoMemory>
    ensures { OnOk result (string_bytes out.new
        ≡ string_bytes out.old ++ (verb.now ++ spaced (tracee_word rows.now which ∷ decimal number ∷ []))) }
{
    write_verb(out, verb, rows, which)?;
    write_number(out, " ", number, "")?;
    Ok(())
}

fn write_tracee<A: Allocator>(
    out: &mut String<A>,
    rows: &[Row],
    which: Which,
) -> Result<(), NoMemory>
    ensures { OnOk result (string_bytes out.new ≡ string_bytes out.old ++ spaced (tracee_word rows.now which ∷ [])) }
{
    match which {
        Which::Row(row) => write_number(out, " ", tid_at(rows, row), "")?,
        Which::Any => out.push_str(" any")?,
        Which::Group(pgid) => write_number(out, " group ", pgid, "")?,
        Which::Last => out.push_str(" it")?,
    }
    Ok(())
}

#[tactic(auto, using(replay_files::proofs::Written::in_two))]
fn write_stop<A: Allocator>(out: &mut String<A>, stop: Stop) -> Result<(), NoMemory>
    ensures { OnOk result (string_bytes out.new ≡ string_bytes out.old ++ spaced (stop_words stop)) }
{
    match stop {
        Stop::Start => out.push_str(" start")?,
        Stop::Enter => out.push_str(" enter")?,
        Stop::Exit => out.push_str(" exit")?,
        Stop::Seccomp(data) => write_number(out, " seccomp ", u32::from(data), "")?,
        Stop::Fork(child) => write_number(out, " fork ", child, "")?,
        Stop::Clone(child) => write_number(out, " clone ", child, "")?,
        Stop::Exec(former) => write_number(out, " exec ", former, "")?,
        Stop::Signal(signal) => write_number(out, " signal ", u32::from(signal), "")?,
        Stop::Ending(death) => {
            out.push_str(" ending")?;
            write_death(out, death)?;
        }
    }
    Ok(())
}

/// Whether a death dumped core has no word.
fn write_death<A: Allocator>(out: &mut String<A>, death: Death) -> Result<(), NoMemory>
    ensures { OnOk result (string_bytes out.new ≡ string_bytes out.old ++ spaced (death_words death)) }
{
    match death {
        Death::Exited(code) => write_number(out, " exited ", u32::from(code), ""),
        Death::Signaled { signal, .. } => write_number(out, " killed ", u32::from(signal), ""),
    }
}

fn write_restart<A: Allocator>(out: &mut String<A>, how: Resume) -> Result<(), NoMemory>
    ensures { OnOk result (string_bytes out.new
        ≡ string_bytes out.old ++ spaced (kind_word how.kind ∷ decimal how.signal ∷ [])) }
{
    let signal = u32::from(how.signal);
    match how.kind {
        Kind::Syscall => write_number(out, " syscall ", signal, ""),
        Kind::Cont => write_number(out, " cont ", signal, ""),
    }
}
