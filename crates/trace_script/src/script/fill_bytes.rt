//! The bytes of a fill.

ghost use Rattle.std.specs.Prelude.{◌≡◌};
ghost use Rattle.trace_script.specs.Kept.{fill_of};

use crate::script::Fill;

impl Fill {
    /// Its bytes, among those of all fills of its script (`Script::filled`).
    pub fn bytes(self, filled: &[u8]) -> &[u8]
        ensures { result.now ≡ (fill_of filled.now self).bytes }
    {
        let (_, rest) = filled.split_at(filled.len().min(self.start as usize));
        &rest[..rest.len().min(self.len as usize)]
    }
}
