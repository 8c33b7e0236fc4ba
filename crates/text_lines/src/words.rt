//! The words of a line, taken one after the other.

ghost use Rattle.std.specs.Prelude.{◌≡◌, ◌==◌, ◌∷◌, [], Err, IfErr, IfOk, MatchOption, Ok, if◌then◌else◌, length};
ghost use Rattle.std.specs.Prelude.{option_map};
ghost use Rattle.text_lines.specs.declared.fault.LineFault.TheVariants.{UnknownWord};
ghost use Rattle.text_lines.specs.Lines.{words_in};
ghost use Rattle.text_lines.specs.Ranges.{if_said};
ghost use Rattle.text_lines.specs.Words.{exactly, split_at, words_left};

use crate::fault::LineFault;
use crate::lines::cut_word;

/// The words of a line that were not taken yet, or the first of them. Those of a copy can be taken again.
#[derive(Clone, Copy, Debug)]
pub struct Words<'a> {
    /// What is left of the line.
    pub(crate) rest: &'a [u8],
    /// How many words are taken of it at most.
    pub(crate) most: usize,
}

impl<'a> Words<'a> {
    /// The words of a line. It has no more words than bytes.
    #[inline]
    pub fn of(line: &'a [u8]) -> Words<'a>
        ensures { words_left result ≡ words_in line.now }
    {
        Words {
            rest: line,
            most: line.len(),
        }
    }

    /// Takes the next word. None where no word is left.
    #[inline]
    #[tactic(auto, using(crate::proofs::Cuts::taken), unfolding(crate::specs::Words::words_left))]
    pub fn next_word(&mut self) -> Option<&'a [u8]>
        ensures { MatchOption result ((words_left self.old ≡ []) × (words_left self.new ≡ []))
            (λ word. words_left self.old ≡ word.now ∷ words_left self.new) }
    {
        if self.most == 0 {
            return None;
        }
        let (word, after) = cut_word(self.rest)?;
        self.rest = after;
        self.most -= 1;
        Some(word)
    }

    /// Whether no word is left.
    #[inline]
    pub fn is_empty(self) -> bool
        ensures { result ≡ (length (words_left self.entry) == 0) }
    {
        let mut left = self;
        left.next_word().is_none()
    }

    /// The word that is left. UnknownWord where there is none, or more than one.
    #[inline]
    pub fn one(self) -> Result<&'a [u8], LineFault>
        ensures { if_said (λ w. w.now ∷ []) result ≡ exactly 1 (words_left self.entry) }
    {
        let mut left = self;
        let first = left.word()?;
        left.end()?;
        Ok(first)
    }

    /// The two words that are left. UnknownWord where there are fewer or more.
    #[inline]
    pub fn two(self) -> Result<(&'a [u8], &'a [u8]), LineFault>
        ensures { if_said (λ w. w.0.now ∷ w.1.now ∷ []) result ≡ exactly 2 (words_left self.entry) }
    {
        let mut left = self;
        let first = left.word()?;
        let second = left.word()?;
        left.end()?;
        Ok((first, second))
    }

    /// The three words that are left. UnknownWord where there are fewer or more.
    #[inline]
    pub fn three(self) -> Result<(&'a [u8], &'a [u8], &'a [u8]), LineFault>
        ensures { if_said (λ w. w.0.now ∷ w.1.now ∷ w.2.now ∷ []) result ≡ exactly 3 (words_left self.entry) }
    {
        let mut left = self;
        let first = left.word()?;
        let second = left.word()?;
        let third = left.word()?;
        left.end()?;
        Ok((first, second, third))
    }

    /// The four words that are left. UnknownWord where there are fewer or more.
    #[inline]
    pub fn four(self) -> Result<(&'a [u8], &'a [u8], &'a [u8], &'a [u8]), LineFault>
        ensures { if_said (λ w. w.0.now ∷ w.1.now ∷ w.2.now ∷ w.3.now ∷ []) result ≡ exactly 4 (words_left self.entry) }
    {
        let mut left = self;
        let first = left.word()?;
        let second = left.word()?;
        let third = left.word()?;
        let fourth = left.word()?;
        left.end()?;
        Ok((first, second, third, fourth))
    }

    /// Takes the next word. UnknownWord where no word is left.
    #[inline]
    pub fn word(&mut self) -> Result<&'a [u8], LineFault>
        ensures word { IfOk result (λ word. words_left self.old ≡ word.now ∷ words_left self.new) }
        ensures none { IfErr result (λ fault. (fault ≡ UnknownWord) × (words_left self.old ≡ [])) }
    {
        match self.next_word() {
            Some(word) => Ok(word),
            None => Err(LineFault::UnknownWord),
        }
    }

    /// UnknownWord where a word is left.
    #[inline]
    pub fn end(self) -> Result<(), LineFault>
        ensures { result ≡ (if length (words_left self.entry) == 0 then Ok tt else Err UnknownWord) }
    {
        let mut left = self;
        match left.next_word() {
            None => Ok(()),
            Some(_) => Err(LineFault::UnknownWord),
        }
    }

    /// The words before the first one that is `word`, and those after it. None where none is.
    pub fn split_at(self, word: &[u8]) -> Option<(Words<'a>, Words<'a>)>
        ensures { option_map (λ parts. (words_left parts.0, words_left parts.1)) result
            ≡ split_at word.now (words_left self.entry) }
    {
        let mut left = self;
        let mut count = 0;
        while let Some(next) = left.next_word() {
            if next == word {
                let before = Words {
                    rest: self.rest,
                    most: count,
                };
                return Some((before, left));
            }
            count += 1;
        }
        None
    }
}
