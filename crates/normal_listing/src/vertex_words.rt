ghost use Rattle.std.specs.Prelude.{◌≡◌, ◌+◌, ◌<◌, ◌≤◌, ◌∷◌, [], ℕ, length, slice_index_or};
ghost use Rattle.std.specs.List.{All, flat_map};
ghost use Rattle.normal_listing.specs.Vertices.{numbered};

use crate::SpellingWord;

/// The word of a vertex: the symbol of its generator, and the words of its inputs in the order of its label's word.
pub fn vertex_word(generator: u8, order: &[u8], words: &[SpellingWord]) -> SpellingWord
    requires generator { generator < 22 }
    requires numbers { All (λ i. (0 < i) × (i ≤ length words.now)) order.now }
    requires short { 1 + length (flat_map (numbered words.now) order.now) ≤ 25 }
    ensures word { result ≡ (10 + generator) ∷ flat_map (numbered words.now) order.now }
{
    let mut word = SpellingWord::symbol(10 + generator);
    for number in order {
        word = word.then(words[*number as usize - 1]);
    }
    word
}
