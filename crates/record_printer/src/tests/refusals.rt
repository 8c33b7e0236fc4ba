//! Each growth of a folder refused in turn: the call answers that it is out of memory then and only then, and a piece
//! that was refused can be added again.

use super::folder::{KILLED_TEXT, Middle, killed, order, root};
use crate::tests::compare::same;
use crate::{FoldError, Folder, Piece};
use refusing_allocator::RefusingAllocator;
use std::alloc::{AllocError, Allocator, Global};
use std::test::Fail;
use stop_history::{NoMemory, Roster};

/// More than a row here has growths.
const MOST: u64 = 100;

type Heap = RefusingAllocator<Global>;

/// A piece of the row with a call, or of the one that a signal kills.
fn made<A: Allocator + Copy>(alloc: A, tid: u32, number: u32) -> Result<Piece<A>, AllocError> {
    if tid == 100 {
        Middle::Pair.piece(alloc, number)
    } else {
        killed(alloc, number)
    }
}

/// The piece, which is made again where its own growth is refused.
fn piece<A: Allocator + Copy>(alloc: A, tid: u32, number: u32) -> Result<Piece<A>, AllocError> {
    match made(alloc, tid, number) {
        Ok(piece) => Ok(piece),
        Err(_) => made(alloc, tid, number),
    }
}

/// Adds a piece, and adds it again where a growth is refused. Whether that, and nothing else, is reported.
fn adds<'a>(
    heap: &'a Heap,
    folder: &mut Folder<&'a Heap>,
    tid: u32,
    number: u32,
) -> Result<bool, Fail> {
    let first = piece(heap, tid, number)?;
    let was_refused = heap.has_refused();
    let added = folder.add(first);
    if heap.has_refused() == was_refused {
        return Ok(added == Ok(()));
    }
    let again = folder.add(piece(heap, tid, number)?);
    Ok(added == Err(FoldError::NoMemory) && again == Ok(()))
}

/// Folds the pieces of a row to its text. Whether each growth that is refused, and nothing else, is reported.
fn folds(
    heap: &Heap,
    roster: &Roster,
    tid: u32,
    numbers: &[u32],
    text: &str,
) -> Result<bool, Fail> {
    let first = Folder::new(heap, roster);
    if first.is_err() != heap.has_refused() {
        return Ok(false);
    }
    let mut folder = match first {
        Ok(folder) => folder,
        Err(NoMemory) => Folder::new(heap, roster)?,
    };
    for number in numbers {
        if !adds(heap, &mut folder, tid, *number)? {
            return Ok(false);
        }
    }
    let was_refused = heap.has_refused();
    let finished = folder.finish();
    let is_refused = heap.has_refused() != was_refused;
    Ok(match finished {
        Ok(finished) => !is_refused && finished.as_bytes() == text.as_bytes(),
        Err(fault) => is_refused && fault == FoldError::NoMemory,
    })
}

#[test]
fn a_piece_that_was_refused_can_be_added(rt: HostRuntime) -> Result<(), Fail> {
    let call = Middle::Pair.text();
    let orders = [order(0), order(37), order(83), order(119)];
    for (tid, numbers, text) in [
        (200, [0, 2, 1].as_slice(), KILLED_TEXT),
        (100, &orders[0], call),
        (100, &orders[1], call),
        (100, &orders[2], call),
        (100, &orders[3], call),
    ] {
        let roster = Roster::new(rt.alloc(), &[root(tid)])?;
        let mut was_refused = true;
        for granted in 0..MOST {
            let heap = RefusingAllocator::new(rt.alloc(), granted);
            same(
                &rt,
                &(tid, granted, folds(&heap, &roster, tid, numbers, text)?),
                &(tid, granted, true),
            );
            was_refused = heap.has_refused();
        }
        same(&rt, &(tid, !was_refused), &(tid, true));
    }
    Ok(())
}
