//! The numbers of the system calls that a script makes by steps of their own (`<asm/unistd_64.h>`), and what a thread
//! is made with.

/// clone(2), of a new thread.
pub const CLONE: u64 = 56;

/// fork(2).
pub const FORK: u64 = 57;

/// execve(2).
pub const EXECVE: u64 = 59;

/// exit(2), of one thread.
pub const EXIT: u64 = 60;

/// The first argument of the clone that makes a thread: `CLONE_THREAD`, `CLONE_SIGHAND` and `CLONE_VM` (clone(2);
/// `<linux/sched.h>`).
pub const CLONE_THREAD_FLAGS: u64 = 0x10900;
