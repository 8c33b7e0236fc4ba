//! What a call answers C, and what it leaves in its handle.

ghost use Rattle.std.specs.Prelude.{◌≡◌, ◌<◌, ◌^◌, pos};
ghost use Rattle.pukzarn.specs.Call.{IsFoundInto, IsHandleClosed, IsInt, IsLong, IsPutIn, IsStatus, IsStatusInto};
ghost use Rattle.pukzarn.specs.Call.{negative};

use crate::handle::Handle;
use crate::handle_value::HandleValue;
use c_interface::Error;
use std::alloc::Global;

/// The negative number of an error.
pub fn negative(why: Error) -> i32
    ensures { result ≡ negative why }
{
    -i32::from(why.number())
}

/// 0, or the negative number of the error.
pub fn status(done: Result<(), Error>) -> i32
    ensures { IsStatus result done }
{
    match done {
        Ok(()) => 0,
        Err(why) => negative(why),
    }
}

/// 0, and the answer is written; or the negative number of the error.
pub fn told<T: Drop>(done: Result<T, Error>, to: &mut T) -> i32
    ensures { IsStatusInto result to.old to.new done }
{
    match done {
        Ok(answer) => {
            *to = answer;
            0
        }
        Err(why) => negative(why),
    }
}

/// 1, and what was found is written; 0 where there is nothing yet; or the negative number of the error.
pub fn found<T: Drop>(done: Result<Option<T>, Error>, to: &mut T) -> i32
    ensures { IsFoundInto result to.old to.new done }
{
    match done {
        Ok(Some(answer)) => {
            *to = answer;
            1
        }
        Ok(None) => 0,
        Err(why) => negative(why),
    }
}

/// A number of rows, or the negative number of the error.
pub fn number_of(done: Result<u32, Error>) -> i32
    ensures { IsInt result done }
{
    match done {
        Ok(number) => i32::try_from(number).unwrap_or(i32::MAX),
        Err(why) => negative(why),
    }
}

/// A number of rows.
pub fn count_of_rows(rows: usize) -> i32
    ensures { rows < 2 ^ 31 → result ≡ pos rows }
{
    i32::try_from(rows).unwrap_or(i32::MAX)
}

/// A number of bytes, or the negative number of the error.
pub fn count(done: Result<usize, Error>) -> i64
    ensures { IsLong result done }
{
    match done {
        Ok(count) => i64::try_from(count).unwrap_or(i64::MAX),
        Err(why) => i64::from(negative(why)),
    }
}

impl Handle {
    /// Puts a new end in, unless it could not be made, or there is no memory for it.
    pub fn keep(&mut self, alloc: Global, made: Result<HandleValue, Error>) -> i32
        requires { IsHandleClosed self.now }
        ensures { IsPutIn (λ end. end) made self.new result }
    {
        let end = match made {
            Ok(end) => end,
            Err(why) => return negative(why),
        };
        let Ok(boxed) = Box::new(alloc, end) else {
            return negative(Error::ENOMEM);
        };
        self.fill(boxed);
        0
    }
}
