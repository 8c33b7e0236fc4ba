//! Laws of the definitions: each function is its contract alone.

ghost use Rattle.std.specs.Prelude.{◌≡◌, ◌↔◌, ◌<◌, ◌≤◌, ◌+◌, ◌-◌, ◌^◌, ◌++◌, ℕ, List, length, take};
ghost use Rattle.trace_pages.specs.FlatMemory.{Absent, FlatMemory, Full, IsPiece, MapsPage, SameAddresses};
ghost use Rattle.trace_pages.specs.FlatMemory.{StoresBytes, Top, byte_at, mapped, run, run_end, stored};

/// A run has all its bytes where its end says so, and otherwise ends before the address that is not mapped, or with
/// the address space.
pub fn runs_end_where_they_say()
    ensures full { (memory : FlatMemory) (address most : ℕ) →
        run_end memory address most ≡ Full ↔ (length (run memory address most) ≡ most) }
    ensures absent { (memory : FlatMemory) (address most first : ℕ) →
        run_end memory address most ≡ Absent first → address + length (run memory address most) ≡ first }
    ensures top { (memory : FlatMemory) (address most : ℕ) → address ≤ 2 ^ 64 →
        run_end memory address most ≡ Top → address + length (run memory address most) ≡ 2 ^ 64 }
{}

/// A run that ends within a piece is the piece's first bytes, and a longer one is the piece and then the run from the
/// next page on.
pub fn runs_are_made_of_pieces()
    ensures bytes { (memory : FlatMemory) (address most : ℕ) (piece : List ℕ) → address < 2 ^ 64 →
        IsPiece memory address piece → length piece ≤ most →
        run memory address most ≡ piece ++ run memory (address + length piece) (most - length piece) }
    ensures end { (memory : FlatMemory) (address most : ℕ) (piece : List ℕ) → address < 2 ^ 64 →
        IsPiece memory address piece → length piece ≤ most →
        run_end memory address most ≡ run_end memory (address + length piece) (most - length piece) }
    ensures within { (memory : FlatMemory) (address most : ℕ) (piece : List ℕ) → address < 2 ^ 64 →
        IsPiece memory address piece → most ≤ length piece → run memory address most ≡ take most piece }
    ensures whole { (memory : FlatMemory) (address most : ℕ) (piece : List ℕ) → address < 2 ^ 64 →
        IsPiece memory address piece → most ≤ length piece → run_end memory address most ≡ Full }
{}

/// Two memories with the same byte at each address are one. So a page that is mapped, or bytes that are stored,
/// determine the memory after the change.
pub fn changes_determine_memory()
    ensures same { (memory other : FlatMemory) →
        ((address : ℕ) → byte_at memory address ≡ byte_at other address) → memory ≡ other }
    ensures map { (before after : FlatMemory) (page : ℕ) →
        MapsPage before after page ↔ (after ≡ mapped before page) }
    ensures store { (before after : FlatMemory) (address : ℕ) (bytes : List ℕ) →
        StoresBytes before after address bytes ↔ (after ≡ stored before address bytes) }
{}

/// A store that is done maps no address and takes none away. Where the same addresses are mapped, each run ends alike.
pub fn stores_keep_addresses()
    ensures addresses { (memory : FlatMemory) (address : ℕ) (bytes : List ℕ) →
        run_end memory address (length bytes) ≡ Full → SameAddresses (stored memory address bytes) memory }
    ensures ends { (memory other : FlatMemory) (address most : ℕ) →
        SameAddresses memory other → run_end memory address most ≡ run_end other address most }
{}
