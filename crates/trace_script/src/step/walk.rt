//! What stays the same while a machine goes through the acts that are left of its script.

use crate::setting::Setting;
use trace_record::Resume;

/// A walk through acts, from a restart on to the next stop or the death: what none of them changes.
#[derive(Clone, Copy)]
pub(crate) struct Walk<'a> {
    pub(crate) setting: &'a Setting,
    /// The restart that the tracee takes up.
    pub(crate) how: Resume,
    /// The bytes of all fills of the script.
    pub(crate) filled: &'a [u8],
}
