//! Which rows a wait may be answered, and texts in buffers.

use super::*;

/// `WSTOPPED`, `WEXITED` (`<sys/wait.h>`).
const STOPS: u32 = 2;

const DEATHS: u32 = 4;

#[test]
fn a_board_tells_which_rows_a_wait_may_be_answered(rt: HostRuntime) -> Result<(), Fail> {
    let roster = Roster::new(rt.alloc(), &ROWS)?;
    let mut board = Board::new(rt.alloc(), &roster)?;
    let mut rows = [9; 2];
    let any = |board: &Board, options, rows: &mut [u32]| board_waitable(
        board, P_ALL, 0, options, rows,
    );
    same(&rt, &any(&board, STOPS, &mut rows), &Ok(0));
    same(&rt, &board_publish(&mut board, 0, stop(5, 101)), &Ok(1));
    same(&rt, &board_exit(&mut board, 1, 0x0f), &Ok(()));
    same(&rt, &any(&board, STOPS, &mut rows), &Ok(1));
    same(&rt, &rows, &[0, 9]);
    same(&rt, &any(&board, STOPS | DEATHS, &mut rows), &Ok(2));
    same(&rt, &rows, &[0, 1]);
    same(
        &rt,
        &board_waitable(&board, P_PID, 101, DEATHS, &mut []),
        &Ok(1),
    );
    for (idtype, id, options, wanted) in [
        (P_PID, 101, STOPS, Error::ECHILD),
        (P_PGID, 78, STOPS, Error::ECHILD),
        (P_PID, 0, STOPS, Error::EINVAL),
        (3, 101, STOPS, Error::EINVAL),
        (P_ALL, 0, 0, Error::EINVAL),
        (P_ALL, 0, 16, Error::EINVAL),
    ] {
        let told = board_waitable(&board, idtype, id, options, &mut rows);
        same(
            &rt,
            &(idtype, id, options, told),
            &(idtype, id, options, Err(wanted)),
        );
    }
    same(&rt, &rows, &[0, 1]);
    Ok(())
}

#[test]
fn a_text_is_cut_to_its_buffer(rt: HostRuntime) {
    let mut to = [9; 6];
    same(&rt, &text_into(b"0.1.0", &mut to), &5);
    same(&rt, &to, b"0.1.0\0");
    let mut short = [9; 4];
    same(&rt, &text_into(b"0.1.0", &mut short), &5);
    same(&rt, &short, b"0.1\0");
    same(&rt, &text_into(b"0.1.0", &mut []), &5);
}
