//! Each growth of a case and of a machine refused in turn: the call answers that it is out of memory then and only then.

mod case;
mod machine;
