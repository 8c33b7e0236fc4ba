//! The start and the end of a call, with the parts of its line.

ghost use Rattle.std.specs.Prelude.{◌≡◌, ◌≤◌, length, option_map};
ghost use Rattle.record_printer.specs.CallParts.{IsPlace, end_in, front, start_in};
ghost use Rattle.record_printer.specs.StopNote.{hidden_start};

use std::alloc::{Allocator, Global};
use std::marker::Model;

/// How a call starts: its line up to its result.
///
/// The parts of the line stand in one vector, since a note is made for each stop: first the line with a gap for the
/// argument whose bytes come out of the call, and behind it the address of that argument.
#[derive(Drop)]
pub(crate) struct CallStart<A: Allocator = Global> {
    /// Whether calls of this number are printed.
    shown: bool,
    number: u64,
    text: Vec<u8, A>,
    /// Where the gap is.
    gap: usize,
    /// Where the address begins; None where no bytes come out of the call.
    address: Option<usize>,
}

impl<A: Allocator> Model for CallStart<A> {
    ghost use Rattle.std.specs.Prelude.{◌≤◌, length};
    ghost use Rattle.record_printer.specs.CallParts.{IsPlace, front, start_in};
    ghost use Rattle.record_printer.specs.Note.{CallStart};

    ghost Value = { CallStart };

    ghost view = { λ s. record (start_in s.number s.text.items s.gap s.address) { shown = s.shown } };

    ghost invariant = { λ s. IsPlace s.address s.text.items × (s.gap ≤ length (front s.address s.text.items)) };
}

impl<A: Allocator> CallStart<A> {
    /// The start of a call that is not printed.
    pub(crate) fn hidden(alloc: A, number: u64) -> CallStart<A>
        ensures { result ≡ hidden_start number }
    {
        CallStart {
            shown: false,
            number,
            text: Vec::new(alloc),
            gap: 0,
            address: None,
        }
    }

    /// The start of a call that is printed, by the place of the gap in its line, and that of the address behind it.
    pub(crate) fn printed(
        number: u64,
        text: Vec<u8, A>,
        gap: usize,
        address: Option<usize>,
    ) -> CallStart<A>
        requires { IsPlace address text.items × (gap ≤ length (front address text.items)) }
        ensures { result ≡ start_in number text.items gap address }
    {
        CallStart {
            shown: true,
            number,
            text,
            gap,
            address,
        }
    }

    /// Whether calls of this number are printed.
    pub(crate) fn is_shown(&self) -> bool
        ensures { result ≡ self.now.shown }
    {
        self.shown
    }

    /// The number of the call.
    pub(crate) fn number(&self) -> u64
        ensures { result ≡ self.now.number }
    {
        self.number
    }

    /// The line up to the argument whose bytes come out of the call, or up to the result where there is none.
    pub(crate) fn before(&self) -> &[u8]
        ensures { result.now ≡ self.now.before }
    {
        &self.text.as_slice()[..self.gap]
    }

    /// The address of that argument, which is printed where the bytes are not all there.
    pub(crate) fn out(&self) -> Option<&[u8]>
        ensures { option_map (λ text. text.now) result ≡ self.now.out }
    {
        let start = self.address?;
        Some(&self.text.as_slice()[start..])
    }

    /// The line from there to the result.
    pub(crate) fn after(&self) -> &[u8]
        ensures { result.now ≡ self.now.after }
    {
        let text = self.text.as_slice();
        match self.address {
            Some(end) => &text[self.gap..end],
            None => &text[self.gap..],
        }
    }
}

/// How a call ends: its result without a line feed, and behind that, in the same vector, the bytes that came out of the
/// call as they are printed.
#[derive(Drop)]
pub(crate) struct CallEnd<A: Allocator = Global> {
    number: u64,
    text: Vec<u8, A>,
    /// Where the bytes that came out begin; None where they are not all there.
    out: Option<usize>,
}

impl<A: Allocator> Model for CallEnd<A> {
    ghost use Rattle.record_printer.specs.CallParts.{IsPlace, end_in};
    ghost use Rattle.record_printer.specs.Note.{CallEnd};

    ghost Value = { CallEnd };

    ghost view = { λ e. end_in e.number e.text.items e.out };

    ghost invariant = { λ e. IsPlace e.out e.text.items };
}

impl<A: Allocator> CallEnd<A> {
    /// The end of a call, by its result and the place behind it of the bytes that came out.
    pub(crate) fn new(number: u64, text: Vec<u8, A>, out: Option<usize>) -> CallEnd<A>
        requires { IsPlace out text.items }
        ensures { result ≡ end_in number text.items out }
    {
        CallEnd { number, text, out }
    }

    /// The number of the call.
    pub(crate) fn number(&self) -> u64
        ensures { result ≡ self.now.number }
    {
        self.number
    }

    /// The bytes that came out of the call, as they are printed, where they are all there.
    pub(crate) fn out(&self) -> Option<&[u8]>
        ensures { option_map (λ text. text.now) result ≡ self.now.out }
    {
        let start = self.out?;
        Some(&self.text.as_slice()[start..])
    }

    /// The result, without a line feed.
    pub(crate) fn result(&self) -> &[u8]
        ensures { result.now ≡ self.now.result }
    {
        let text = self.text.as_slice();
        match self.out {
            Some(end) => &text[..end],
            None => text,
        }
    }
}
