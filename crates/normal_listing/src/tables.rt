ghost use Rattle.std.specs.Prelude.{◌≡◌, ◌+◌, ◌<◌, ◌≤◌, ℕ, length, slice_index};
ghost use Rattle.std.specs.List.{All};
ghost use Rattle.normal_listing.specs.Places.{IsSymbol};
ghost use Rattle.normal_listing.specs.Words.{IsLeafDigit};

// Each symbol at its own index.
fn same_symbols() -> [u8; 32]
    ensures length { length result ≡ 32 }
    ensures same { (s : ℕ) → s < 32 → slice_index result s ≡ s }
{
    let mut symbols = [0; 32];
    for s in 0..32usize {
        symbols[s] = s as u8;
    }
    symbols
}

/// The table for `SpellingWord::renamed` that puts these numbers in place of the leaves 1, 2 and so on, and keeps the symbols
/// of vertices.
pub fn leaf_symbols(leaves: &[u8]) -> [u8; 32]
    requires few { length leaves.now ≤ 9 }
    requires digits { All IsLeafDigit leaves.now }
    ensures leaves { (k : ℕ) → k < length leaves.now → slice_index result (k + 1) ≡ slice_index leaves.now k }
    ensures vertices { (g : ℕ) → g < 22 → slice_index result (10 + g) ≡ 10 + g }
    ensures symbols { (s : ℕ) → IsSymbol s → IsSymbol (slice_index result s) }
{
    let mut symbols = same_symbols();
    for (at, leaf) in leaves.iter().enumerate() {
        symbols[at + 1] = *leaf;
    }
    symbols
}
