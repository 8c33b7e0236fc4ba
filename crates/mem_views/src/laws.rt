//! Laws of the definitions: each function is its contract alone.

ghost use Rattle.std.specs.Prelude.{◌≡◌, ℕ, List};
ghost use Rattle.std.specs.List.{flat_map};
ghost use Rattle.mem_views.specs.ByteView.{ArePieces, Cut};
ghost use Rattle.mem_views.specs.declared.iovecs.TheConstants.{ENTRY_SIZE, IOV_MAX};

/// The pieces of a byte view, joined in order, are its bytes.
pub fn pieces_join_to_the_bytes()
    ensures { (cut : Cut) (pieces : List (List ℕ)) → ArePieces cut pieces
        → flat_map (λ piece. piece) pieces ≡ cut.rest }
{}

/// The numbers of readv(2) and `struct iovec`: entries of an array, and bytes of an entry.
pub fn numbers_are_fixed()
    ensures entries { IOV_MAX ≡ 1024 }
    ensures bytes { ENTRY_SIZE ≡ 16 }
{}
