//! What a tracee's end has in hand of its row.

ghost use Rattle.std.specs.Prelude.{◌≡◌, MatchOption, false};
ghost use Rattle.c_interface.specs.Hand.{is_taken};
ghost use Rattle.c_interface.specs.declared.hand.Hand.TheVariants as hand;

use std::alloc::Global;
use std::mem::replace;
use trace_record::{Resume, StopRecord};

/// A row that is taken up: how it runs on, and the record of its last stop, which is the end's until the next stop or
/// the exit.
#[derive(Drop)]
pub struct InHand {
    pub how: Resume,
    pub stopped: StopRecord<Global>,
}

/// What an end has of its row.
#[derive(Drop)]
pub enum Hand {
    /// The row is not taken up.
    AtRest,
    /// It is.
    Taken(InHand),
    /// It has ended.
    Ended,
}

impl Hand {
    /// Takes the row out, which is at rest then. None where the row is not taken up: nothing has changed.
    pub(crate) fn take(&mut self) -> Option<InHand>
        ensures { MatchOption result ((is_taken self.old ≡ false) × (self.new ≡ self.old))
            (λ held. (self.old ≡ hand.Taken held) × (self.new ≡ hand.AtRest)) }
    {
        match replace(self, Hand::AtRest) {
            Hand::Taken(held) => Some(held),
            Hand::AtRest => None,
            Hand::Ended => {
                *self = Hand::Ended;
                None
            }
        }
    }
}
