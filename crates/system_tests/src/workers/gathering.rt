//! Gathering by hand: the handles of one row, whose life is made stop by stop over the cells, and its pieces in
//! several orders.

ghost use Rattle.std.specs.Prelude.{◌≡◌, [], false, None};
ghost use Rattle.trace_record.specs.Death.{IsDeath};
ghost use Rattle.trace_record.specs.Resume.{IsResume};
ghost use Rattle.trace_record.specs.Stop.{IsStop, child_of};
ghost use Rattle.stop_table.specs.Tracer.{held_rows};

use crate::compare::same;
use record_printer::{Piece, Show, Text, death_piece, piece_of};
use refusing_allocator::RefusingAllocator;
use std::alloc::{Allocator, Global};
use stop_history::{LAST_NUMBER, Roster, Row};
use stop_table::laws::a_record_is_its_rows;
use stop_table::{GroupAlive, Taken, Tracee, Tracer, open};
use trace_options::CallSet;
use trace_record::{Death, Kind, Resume, Stop};
use tracer_workers::{RunError, gather};

/// A process of one thread.
const ROOT: Row = Row {
    tid: 200,
    tgid: 200,
    pgid: 200,
    parent: 0,
};

const SIGTERM: u8 = 15;

/// How it dies.
const KILLED: Death = Death::Signaled {
    signal: SIGTERM,
    core: false,
};

/// The lines of its life: a start, the signal, and the death by it.
const TEXT: &str = "200 --- SIGTERM ---\n200 +++ killed by SIGTERM +++\n";

/// More than a gathering of its pieces has growths.
const MOST: u64 = 100;

/// The handles of the one row's cells: of its tracee, which does not have it taken up, of the tracer that claims, and
/// of one that never does.
#[derive(Drop)]
struct Party<A: Allocator = Global> {
    tracee: Tracee<A>,
    tracer: Tracer<A>,
    idle: Tracer<A>,
    roster: Roster<A>,
    ghost tracee_table: { tracee.table_id ≡ tracer.table_id },
    ghost idle_table: { idle.table_id ≡ tracer.table_id },
    ghost tracee_roster: { tracee.view.roster ≡ roster },
    ghost tracer_roster: { tracer.view.roster ≡ roster },
    ghost idle_roster: { idle.view.roster ≡ roster },
    ghost rests: { tracee.view.taken ≡ false },
    ghost free: { held_rows tracer.view ≡ [] },
    ghost idles: { held_rows idle.view ≡ [] },
}

/// New cells of the row.
fn new_party<A: Allocator + Copy>(alloc: A) -> Option<Party<A>> {
    let Ok(roster) = Roster::new(alloc, &[ROOT]) else {
        return None;
    };
    let Ok(mut ends) = open(alloc, &roster, 2) else {
        return None;
    };
    let Some(tracee) = ends.tracees.pop() else {
        return None;
    };
    let Some(idle) = ends.tracers.pop() else {
        return None;
    };
    let Some(tracer) = ends.tracers.pop() else {
        return None;
    };
    Some(Party {
        tracee,
        tracer,
        idle,
        roster,
    })
}

impl<A: Allocator + Copy> Party<A> {
    /// The tracee makes its next stop.
    fn stop(self, stop: Stop) -> Option<Party<A>>
        requires { IsStop stop × (child_of stop ≡ None) }
    {
        let Party {
            mut tracee,
            tracer,
            idle,
            roster,
        } = self;
        a_record_is_its_rows();
        let _ = tracee.holds();
        let Some((_how, mut record)) = tracee.take_up() else {
            return None;
        };
        if record.number >= LAST_NUMBER {
            return None;
        }
        record.number += 1;
        record.stop = stop;
        tracee.publish(record);
        Some(Party {
            tracee,
            tracer,
            idle,
            roster,
        })
    }

    /// The tracee dies.
    fn die(self, death: Death) -> Option<Party<A>>
        requires { IsDeath death }
    {
        let Party {
            mut tracee,
            tracer,
            idle,
            roster,
        } = self;
        let Some((_how, record)) = tracee.take_up() else {
            return None;
        };
        match tracee.exit(record, death) {
            Ok(()) => Some(Party {
                tracee,
                tracer,
                idle,
                roster,
            }),
            Err(
                GroupAlive {
                    row: _,
                    content: _content,
                },
            ) => None,
        }
    }

    /// The tracer claims the row's stop and lets it run on; the piece of the stop.
    fn claim(self, alloc: A, how: Resume) -> Option<(Party<A>, Piece<A>)>
        requires { IsResume how }
    {
        let Party {
            tracee,
            mut tracer,
            idle,
            roster,
        } = self;
        if roster.len() == 0 {
            return None;
        }
        let claim = match tracer.claim(0) {
            Taken::Stop(claim) => claim,
            Taken::Ended {
                death: _death,
                number: _number,
            } => return None,
            Taken::Nothing(_shown) => return None,
        };
        let record = claim.record();
        let piece = piece_of(alloc, record, &show());
        tracer.resume(claim, how);
        let piece = piece.ok()?;
        if tracer.held() != 0 {
            return None;
        }
        Some((
            Party {
                tracee,
                tracer,
                idle,
                roster,
            },
            piece,
        ))
    }

    /// The tracer claims the row's death; its piece.
    fn reap(self) -> Option<(Party<A>, Piece<A>)> {
        let Party {
            tracee,
            mut tracer,
            idle,
            roster,
        } = self;
        if roster.len() == 0 {
            return None;
        }
        match tracer.claim(0) {
            Taken::Ended { death, number } => {
                if tracer.held() != 0 {
                    return None;
                }
                let party = Party {
                    tracee,
                    tracer,
                    idle,
                    roster,
                };
                Some((party, death_piece(ROOT.tid, number, death)))
            }
            Taken::Stop(claim) => {
                tracer.resume(claim, CONT);
                None
            }
            Taken::Nothing(_shown) => None,
        }
    }

    /// The tracee makes its next stop, at which the tracer claims it; the piece of the stop.
    fn serve(self, alloc: A, stop: Stop, how: Resume) -> Option<(Party<A>, Piece<A>)>
        requires { IsStop stop × (child_of stop ≡ None) × IsResume how }
    {
        self.stop(stop)?.claim(alloc, how)
    }

    /// The tracee is killed, and the tracer claims its death; its piece.
    fn end(self) -> Option<(Party<A>, Piece<A>)> {
        self.die(KILLED)?.reap()
    }

    /// Gathers the handles with these pieces.
    fn gathered(self, alloc: A, pieces: Vec<Piece<A>, A>) -> Option<Result<Text<A>, RunError>> {
        let Party {
            tracee,
            tracer,
            idle,
            roster,
        } = self;
        let Ok(mut tracers) = Vec::with_capacity(alloc, 2) else {
            return None;
        };
        tracers.push_reserved(tracer);
        tracers.push_reserved(idle);
        let Ok(mut tracees) = Vec::with_capacity(alloc, 1) else {
            return None;
        };
        tracees.push_reserved(tracee);
        match gather(alloc, &roster, tracers, tracees, pieces) {
            Ok((_tracer, text)) => Some(Ok(text)),
            Err(error) => Some(Err(error)),
        }
    }
}

const CONT: Resume = Resume {
    kind: Kind::Cont,
    signal: 0,
};

/// The signal is handed over.
const DELIVER: Resume = Resume {
    kind: Kind::Syscall,
    signal: SIGTERM,
};

/// Every call is shown.
fn show() -> Show {
    Show {
        limit: 32,
        calls: CallSet::all(),
    }
}

/// The whole life, and its pieces: of the start, of the signal, and of the death.
fn live<A: Allocator + Copy>(alloc: A) -> Option<(Party<A>, Piece<A>, Piece<A>, Piece<A>)> {
    let (party, first) = new_party(alloc)?.serve(alloc, Stop::Start, CONT)?;
    let (party, second) = party.serve(alloc, Stop::Signal(SIGTERM), DELIVER)?;
    let (party, death) = party.end()?;
    Some((party, first, second, death))
}

/// These pieces, in this order.
fn list<A: Allocator + Copy, const N: usize>(
    alloc: A,
    pieces: [Piece<A>; N],
) -> Option<Vec<Piece<A>, A>> {
    Vec::from_array(alloc, pieces).ok()
}

/// The row at its first stop.
fn stopped<A: Allocator + Copy>(alloc: A) -> Option<Party<A>> {
    new_party(alloc)?.stop(Stop::Start)
}

#[test]
fn the_last_piece_may_come_first(rt: HostRuntime) {
    let alloc = rt.alloc();
    let (party, first, second, death) = live(alloc).expect(&rt, "a life");
    let text = party
        .gathered(
            alloc,
            list(alloc, [death, second, first]).expect(&rt, "a list"),
        )
        .expect(&rt, "the handles")
        .ok()
        .expect(&rt, "a text");
    same(&rt, &text.as_bytes(), &TEXT.as_bytes());
}

#[test]
fn a_row_at_a_stop_is_lost(rt: HostRuntime) {
    let alloc = rt.alloc();
    let party = stopped(alloc).expect(&rt, "a stop");
    let answer = party
        .gathered(alloc, Vec::new(alloc))
        .expect(&rt, "the handles");
    same(&rt, &answer.err(), &Some(RunError::Lost));
}

#[test]
fn a_missing_piece_is_lost(rt: HostRuntime) {
    let alloc = rt.alloc();
    let (party, _first, second, death) = live(alloc).expect(&rt, "a life");
    let answer = party
        .gathered(alloc, list(alloc, [second, death]).expect(&rt, "a list"))
        .expect(&rt, "the handles");
    same(&rt, &answer.err(), &Some(RunError::Lost));
    let (party, first, second, _death) = live(alloc).expect(&rt, "a life");
    let answer = party
        .gathered(alloc, list(alloc, [first, second]).expect(&rt, "a list"))
        .expect(&rt, "the handles");
    same(&rt, &answer.err(), &Some(RunError::Lost));
}

#[test]
fn a_row_without_pieces_is_lost(rt: HostRuntime) {
    let alloc = rt.alloc();
    let (party, _first, _second, _death) = live(alloc).expect(&rt, "a life");
    let answer = party
        .gathered(alloc, Vec::new(alloc))
        .expect(&rt, "the handles");
    same(&rt, &answer.err(), &Some(RunError::Lost));
}

#[test]
fn a_piece_that_is_there_twice_is_lost(rt: HostRuntime) {
    let alloc = rt.alloc();
    let (_other, again, _second, _death) = live(alloc).expect(&rt, "a life");
    let (party, first, second, death) = live(alloc).expect(&rt, "a life");
    let answer = party
        .gathered(
            alloc,
            list(alloc, [first, second, again, death]).expect(&rt, "a list"),
        )
        .expect(&rt, "the handles");
    same(&rt, &answer.err(), &Some(RunError::Lost));
}

#[test]
fn a_strangers_piece_is_lost(rt: HostRuntime) {
    let alloc = rt.alloc();
    let (party, first, second, death) = live(alloc).expect(&rt, "a life");
    let strange = death_piece(999, 0, KILLED);
    let answer = party
        .gathered(
            alloc,
            list(alloc, [first, second, strange, death]).expect(&rt, "a list"),
        )
        .expect(&rt, "the handles");
    same(&rt, &answer.err(), &Some(RunError::Lost));
}

#[test]
fn each_growth_that_is_refused_is_reported(rt: HostRuntime) {
    let mut refused = 0u32;
    for granted in 0..MOST {
        let heap = RefusingAllocator::new(rt.alloc(), granted);
        let Some((party, first, second, death)) = live(&heap) else {
            continue;
        };
        let Some(pieces) = list(&heap, [death, second, first]) else {
            continue;
        };
        match party.gathered(&heap, pieces) {
            Some(Ok(text)) => {
                same(&rt, &text.as_bytes(), &TEXT.as_bytes());
                assert!(rt; !heap.has_refused());
                break;
            }
            Some(Err(error)) => {
                same(&rt, &error, &RunError::NoMemory);
                assert!(rt; heap.has_refused());
                refused = refused.wrapping_add(1);
            }
            None => {}
        }
    }
    // The folder's two lists, at least, and the text.
    same(&rt, &(refused, refused >= 3), &(refused, true));
}
