//! The 64 bits of a word: its fields one above the other, each of its own width (the table is at `Word`).
//!
//! `pack` puts the fields together from the highest to the lowest. `unpack` takes them apart again, makes the word that
//! they name, and answers it only if that word packs to the very bits: so an unused bit that is set has no word.

ghost use Rattle.std.specs.Prelude.{◌≡◌, ◌↔◌, ◌<◌, ◌≤◌, ◌^◌, ◌%◌, ◌/◌, IfSome, Some, IsTrue};
ghost use Rattle.stop_history.specs.Layout.{kind_number, phase_fields, raw_of};
ghost use Rattle.stop_history.specs.Parts.{kept_in};
ghost use Rattle.stop_history.specs.Word as words;
ghost use Rattle.stop_history.specs.Word.{IsPhase, IsWord, Reports, reports_death, reports_stop};
ghost use Rattle.stop_history.specs.declared.phase.Phase.{Phase};

use crate::limits::{LAST_NUMBER, TRACERS};
use crate::phase::Phase;
use crate::word::Word;
use trace_options::LAST_SIGNAL;
use trace_record::{Kind, Resume};
use trace_status::{STOPPED, WaitStatus, decode};

/// The widths of the fields in bits, from the lowest bit on. Each field is right above the one before it; what
/// is above the signal is the tracer's.
pub(crate) const STATE_BITS: u32 = 3;

pub(crate) const BIRTHS_BITS: u32 = 8;

pub(crate) const NUMBER_BITS: u32 = 24;

pub(crate) const STATUS_BITS: u32 = 16;

pub(crate) const KIND_BITS: u32 = 1;

pub(crate) const SIGNAL_BITS: u32 = 7;

impl Word {
    /// The 64 bits of the word, which is in range.
    pub fn pack(self) -> u64
        ensures bits { result ≡ raw_of self }
        ensures range { IsWord self }
    {
        let parts = Parts::of(self.phase);
        let raw = u64::from(parts.tracer);
        let raw = raw << SIGNAL_BITS | u64::from(parts.signal);
        let raw = raw << KIND_BITS | u64::from(parts.kind);
        let raw = raw << STATUS_BITS | u64::from(parts.status);
        let raw = raw << NUMBER_BITS | u64::from(self.number);
        let raw = raw << BIRTHS_BITS | u64::from(self.births);
        raw << STATE_BITS | u64::from(parts.state)
    }

    /// The word of these bits. None where no word has them: for an unknown state, a bit set that the state does not
    /// use, a field out of range, a status of another kind than the state's, a fresh word other than the opening one.
    pub fn unpack(raw: u64) -> Option<Word>
        ensures word { IfSome result (λ word. IsWord word × (raw_of word ≡ raw)) }
        ensures each { (word : words.Word) → IsWord word → raw_of word ≡ raw → result ≡ Some word }
    {
        let fields = WordFields::of(raw);
        let word = word_of(fields.parts.phase()?, fields.births, fields.number)?;
        if word.pack() == raw { Some(word) } else { None }
    }

    /// The word of these bits, which are those of some word: `unpack` without its tests.
    pub fn unpack_known(raw: u64) -> Word
        requires { (word : words.Word) × IsWord word × (raw_of word ≡ raw) }
        ensures { IsWord result × (raw_of result ≡ raw) }
    {
        let fields = WordFields::of(raw);
        let Some(phase) = fields.parts.phase() else {
            unreachable!()
        };
        Word {
            phase,
            births: fields.births,
            number: fields.number,
        }
    }
}

/// The fields that the bits of a word have.
#[derive(Clone, Copy)]
struct WordFields {
    parts: Parts,
    births: u8,
    number: u32,
}

impl WordFields {
    fn of(raw: u64) -> WordFields
        ensures { (word : words.Word) → IsWord word → raw_of word ≡ raw
            → (kept_in result.parts ≡ phase_fields word.phase) × (result.births ≡ word.births)
            × (result.number ≡ word.number) }
    {
        let (state, rest) = split(raw, STATE_BITS);
        let (births, rest) = split(rest, BIRTHS_BITS);
        let (number, rest) = split(rest, NUMBER_BITS);
        let (status, rest) = split(rest, STATUS_BITS);
        let (kind, rest) = split(rest, KIND_BITS);
        let (signal, tracer) = split(rest, SIGNAL_BITS);
        WordFields {
            parts: Parts {
                state: state as u8,
                status: status as u16,
                kind: kind as u8,
                signal: signal as u8,
                tracer: tracer as u8,
            },
            births: births as u8,
            number: number as u32,
        }
    }
}

/// The lowest bits of a number, and the bits above them.
fn split(raw: u64, bits: u32) -> (u64, u64)
    requires { bits < 64 }
    ensures low { result.0 ≡ raw % 2 ^ bits }
    ensures high { result.1 ≡ raw / 2 ^ bits }
{
    (raw & ((1 << bits) - 1), raw >> bits)
}

/// The word of these fields, if they are in range. Any byte is a number of births: see `MOST_ROWS`.
fn word_of(phase: Phase, births: u8, number: u32) -> Option<Word>
    ensures word { IfSome result (λ word. word ≡ record { phase = phase; births = births; number = number }) }
    ensures each { IsWord (record { phase = phase; births = births; number = number })
        → result ≡ Some (record { phase = phase; births = births; number = number }) }
{
    let opening = births == 0 && number == 0;
    let in_range = number <= LAST_NUMBER && is_phase(phase);
    if in_range && (opening || phase != Phase::Fresh) {
        Some(Word {
            phase,
            births,
            number,
        })
    } else {
        None
    }
}

/// Whether a phase is in range.
fn is_phase(phase: Phase) -> bool
    ensures { IsTrue result ↔ IsPhase phase }
{
    match phase {
        Phase::Resumed(how) => how.signal <= LAST_SIGNAL,
        Phase::Stopped { status } => is_stop_status(status),
        Phase::Claimed { tracer } => u32::from(tracer) < TRACERS,
        Phase::Dead { status } => is_death_status(status),
        Phase::Fresh | Phase::Active | Phase::Reaped => true,
    }
}

/// Whether a raw wait status reports a stop (wait(2), `WIFSTOPPED`).
fn is_stop_status(status: u32) -> bool
    ensures { IsTrue result ↔ Reports reports_stop status }
{
    matches!(
        decode(0, status),
        Some(WaitStatus::Stopped(..) | WaitStatus::PtraceEvent(..) | WaitStatus::PtraceSyscall(_))
    )
}

/// Whether a raw wait status reports a death (wait(2), `WIFEXITED`, `WIFSIGNALED`).
fn is_death_status(status: u32) -> bool
    ensures { IsTrue result ↔ Reports reports_death status }
{
    matches!(
        decode(0, status),
        Some(WaitStatus::Exited(..) | WaitStatus::Signaled(..))
    )
}

/// The number of a phase, and what is kept of it. A field that the phase does not use is 0.
#[derive(Clone, Copy, Debug, PartialEq, Eq)]
pub(crate) struct Parts {
    pub(crate) state: u8,
    /// The raw status of a death, that of a stop without its low byte.
    pub(crate) status: u16,
    /// 0 for `Syscall`, 1 for `Cont`.
    pub(crate) kind: u8,
    pub(crate) signal: u8,
    pub(crate) tracer: u8,
}

impl Parts {
    ghost use Rattle.stop_history.specs.Layout.{kind_number, phase_fields};
    ghost use Rattle.stop_history.specs.Parts.{kept_in};
    ghost use Rattle.stop_history.specs.declared.limits.TheConstants.{TRACERS};
    ghost use Rattle.stop_history.specs.Word.{IsPhase};

    pub(crate) fn of(phase: Phase) -> Parts
        requires { IsPhase phase }
        ensures kept { kept_in result ≡ phase_fields phase }
        ensures ranges { (result.state < 8) × (result.kind < 2) × (result.signal ≤ LAST_SIGNAL)
            × (result.tracer < TRACERS) }
    {
        let unused = Parts {
            state: 0,
            status: 0,
            kind: 0,
            signal: 0,
            tracer: 0,
        };
        match phase {
            Phase::Fresh => unused,
            Phase::Resumed(how) => Parts {
                state: 1,
                kind: kind_number(how.kind),
                signal: how.signal,
                ..unused
            },
            Phase::Active => Parts { state: 2, ..unused },
            Phase::Stopped { status } => Parts {
                state: 3,
                status: (status >> 8) as u16,
                ..unused
            },
            Phase::Claimed { tracer } => Parts {
                state: 4,
                tracer,
                ..unused
            },
            Phase::Dead { status } => Parts {
                state: 5,
                status: status as u16,
                ..unused
            },
            Phase::Reaped => Parts { state: 6, ..unused },
        }
    }

    /// The phase of this number, by the fields that it uses.
    pub(crate) fn phase(self) -> Option<Phase>
        ensures { (phase : Phase) → IsPhase phase → kept_in self ≡ phase_fields phase → result ≡ Some phase }
    {
        match self.state {
            0 => Some(Phase::Fresh),
            1 => Some(Phase::Resumed(Resume {
                kind: if self.kind == 0 {
                    Kind::Syscall
                } else {
                    Kind::Cont
                },
                signal: self.signal,
            })),
            2 => Some(Phase::Active),
            3 => Some(Phase::Stopped {
                status: u32::from(self.status) << 8 | u32::from(STOPPED),
            }),
            4 => Some(Phase::Claimed {
                tracer: self.tracer,
            }),
            5 => Some(Phase::Dead {
                status: u32::from(self.status),
            }),
            6 => Some(Phase::Reaped),
            _ => None,
        }
    }
}

fn kind_number(kind: Kind) -> u8
    ensures { result ≡ kind_number kind }
{
    match kind {
        Kind::Syscall => 0,
        Kind::Cont => 1,
    }
}
