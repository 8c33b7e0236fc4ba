//! Rows that the tests make rosters of: a root, its thread and its forked children.

use std::alloc::{AllocError, Allocator};
use stop_history::Row;

/// A process of one thread, of process group 77.
pub const ROOT: Row = Row {
    tid: 100,
    tgid: 100,
    pgid: 77,
    parent: 0,
};

/// A thread of the root's group.
pub const THREAD: Row = Row {
    tid: 101,
    tgid: 100,
    pgid: 77,
    parent: 100,
};

/// A forked child of the root.
pub const CHILD: Row = Row {
    tid: 101,
    tgid: 101,
    pgid: 77,
    parent: 100,
};

/// A row of these ids.
pub fn row(tid: u32, tgid: u32, pgid: u32, parent: u32) -> Row {
    Row {
        tid,
        tgid,
        pgid,
        parent,
    }
}

/// This many roots, with the thread ids from 1 on.
pub fn roots<A: Allocator>(alloc: A, count: u32) -> Result<Vec<Row, A>, AllocError> {
    let mut rows = Vec::new(alloc);
    for tid in 0..count {
        let tid = tid.wrapping_add(1);
        rows.push(row(tid, tid, 77, 0))?;
    }
    Ok(rows)
}

/// A root of thread id 1 and this many forked children of it, with the thread ids from 2 on.
pub fn family<A: Allocator>(alloc: A, children: u32) -> Result<Vec<Row, A>, AllocError> {
    let mut rows = roots(alloc, 1)?;
    for tid in 0..children {
        let tid = tid.wrapping_add(2);
        rows.push(row(tid, tid, 77, 1))?;
    }
    Ok(rows)
}
