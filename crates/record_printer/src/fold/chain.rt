//! The stops that came before their turn and follow one another after a number.

ghost use Rattle.std.specs.Prelude.{◌≡◌, ◌+◌, ◌<◌, ◌≤◌, ℕ, None, IfSome};
ghost use Rattle.record_printer.specs.Chain.{IsChain, notes_behind, notes_len, notes_until};
ghost use Rattle.record_printer.specs.KeptFold.{HasRoom, fold_of};
ghost use Rattle.record_printer.specs.Early.{early_note};
ghost use Rattle.record_printer.specs.RowFold.{fold_after_all};

use crate::fold::room::TextRoom;
use crate::fold::row_fold::RowFold;
use crate::piece::note::Note;
use std::alloc::Allocator;
use std::collections::BTreeMap;

/// Stops up to a number, and the room for them.
#[derive(Clone, Copy)]
pub(crate) struct Chain {
    /// The number of the last of them. The one after it may be no `u32`.
    pub(crate) last: u32,
    pub(crate) room: TextRoom,
}

/// The stops after the number `done` that are there, of which none has a number above `last`, and this room with
/// theirs. None where that is no `usize`.
pub(crate) fn chain_from<A: Allocator>(
    early: &BTreeMap<u32, Note<A>, A>,
    done: u32,
    last: u32,
    room: TextRoom,
) -> Option<Chain>
    requires done { done ≤ last }
    requires above { (n : ℕ) → last < n → early_note early.now n ≡ None }
    ensures chain { IfSome result (λ chain. IsChain (early_note early.now) (done + 1) (chain.last + 1)) }
    ensures within { IfSome result (λ chain. chain.last ≤ last) }
    ensures lines { IfSome result (λ chain. chain.room.lines
        ≡ room.lines + notes_len (notes_until (early_note early.now) (done + 1) (chain.last + 1))) }
    ensures behind { IfSome result (λ chain. chain.room.behind
        ≡ room.behind + notes_behind (notes_until (early_note early.now) (done + 1) (chain.last + 1))) }
{
    let mut chain = Chain { last: done, room };
    for before in done..last {
        match early.get(&(before + 1)) {
            Some(note) => {
                chain = Chain {
                    last: before + 1,
                    room: chain.room.with(note)?,
                };
            }
            None => return Some(chain),
        }
    }
    Some(chain)
}

/// Folds the stops after the number `done` up to `last`, which no longer wait then.
pub(crate) fn fold_chain<A: Allocator>(
    fold: &mut RowFold<A>,
    early: &mut BTreeMap<u32, Note<A>, A>,
    done: u32,
    last: u32,
)
    requires forward { done ≤ last }
    requires below { (n : ℕ) → n < done + 1 → early_note early.old n ≡ None }
    requires room { HasRoom fold.old (notes_len (notes_until (early_note early.old) (done + 1) (last + 1)))
        (notes_behind (notes_until (early_note early.old) (done + 1) (last + 1))) }
    ensures fold { fold_of fold.new
        ≡ fold_after_all (fold_of fold.old) (notes_until (early_note early.old) (done + 1) (last + 1)) }
    ensures gone { (n : ℕ) → n < last + 1 → early_note early.new n ≡ None }
    ensures left { (n : ℕ) → last + 1 ≤ n → early_note early.new n ≡ early_note early.old n }
{
    for before in done..last {
        if let Some(note) = early.remove(&(before + 1)) {
            fold.take(note);
        }
    }
}
