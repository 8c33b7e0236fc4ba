//! Words in memory: each little-endian, one after the other.

ghost use Rattle.std.specs.Prelude.{◌≡◌, ◌+◌, ◌^◌, ◌<◌, ◌≤◌, All, slice_range};
ghost use Rattle.std.specs.Int.{w64, to_le_bytes};
ghost use Rattle.std.specs.List.{flat_map};

/// The bytes of the words.
pub(crate) fn write_words(words: &[u64; 27]) -> [u8; 216]
    ensures { result ≡ flat_map (to_le_bytes w64) words.now }
{
    let mut bytes = [0; 216];
    for i in 0..27 {
        bytes[8 * i..8 * i + 8].copy_from_slice(&words[i].to_le_bytes());
    }
    bytes
}

/// The words that the bytes tell.
pub(crate) fn read_words(bytes: &[u8; 216]) -> [u64; 27]
    ensures told { flat_map (to_le_bytes w64) result ≡ bytes.now }
    ensures fit { All (λ word. word < 2 ^ 64) result }
{
    let mut words = [0; 27];
    for i in 0..27 {
        words[i] = word_at(bytes, 8 * i);
    }
    words
}

/// The word that the eight bytes from `at` tell.
fn word_at(bytes: &[u8; 216], at: usize) -> u64
    requires { at + 8 ≤ 216 }
    ensures { to_le_bytes w64 result ≡ slice_range bytes.now at (at + 8) }
{
    let mut word = [0; 8];
    word.copy_from_slice(&bytes[at..at + 8]);
    u64::from_le_bytes(word)
}
