//! Values of definitions that no test can reach by calls: a row would have to stop 16,777,215 times.

ghost use Rattle.std.specs.Prelude.{◌≡◌, Err, Ok, false, true};
ghost use Rattle.stop_board.specs.Sequential.{publish_by};
ghost use Rattle.stop_history.specs.declared.refused.Refused.TheVariants as refused;
ghost use Rattle.stop_history.specs.declared.state.State.TheVariants as state;

/// What a publish at and below the last number is answered.
fn at_the_last_number()
    ensures next { publish_by state.Running true 16777214 ≡ Ok 16777215 }
    ensures full { publish_by state.Running true 16777215 ≡ Err refused.Full }
    ensures child { publish_by state.Running false 16777215 ≡ Err refused.NotNext }
    ensures running { publish_by state.Reaped true 16777215 ≡ Err refused.NotRunning }
{}

#[test]
fn a_wrong_child_is_refused_before_a_number_above_the_last() {
    at_the_last_number();
}
