ghost use Rattle.std.specs.Prelude.{◌≤◌};

/// The most leaves that a tree with a flat key may have.
pub const MOST_LEAVES: usize = 16;

const MOST_VERTICES: usize = 15;

const NUMBERS: usize = 17;

/// The labels from the root of a tree down to one of its leaves or vertices: at most 15, in a fixed array.
#[derive(Clone, Copy)]
pub struct FlatWord {
    letters: [u16; MOST_VERTICES],
    len: u8,
    ghost short: { len ≤ 15 },
}

impl FlatWord {
    ghost use Rattle.std.specs.Prelude.{◌≡◌, ◌<◌, ◌++◌, ◌∷◌, [], length};
    ghost use Rattle.shuffle_trees.specs.FlatKeys as spec;

    /// The word of the root. It takes no memory.
    pub fn empty() -> FlatWord
        ensures { spec.letters result ≡ [] }
    {
        FlatWord {
            letters: [0; MOST_VERTICES],
            len: 0,
        }
    }

    /// The word, which has less than 15 letters, with a letter behind it. It takes no memory.
    pub fn with(self, letter: u16) -> FlatWord
        requires { length (spec.letters self) < 15 }
        ensures { spec.letters result ≡ spec.letters self ++ letter ∷ [] }
    {
        let mut longer = self;
        longer.letters[longer.len as usize] = letter;
        longer.len += 1;
        longer
    }

    /// How many letters there are. It takes no memory.
    pub fn len(&self) -> u8
        ensures is { result ≡ length (spec.letters self.now) }
        ensures few { result ≤ 15 }
    {
        self.len
    }

    /// The letters. It takes no memory.
    pub fn letters(&self) -> &[u16]
        ensures letters { result.now ≡ spec.letters self.now }
        ensures few { length result.now ≤ 15 }
    {
        &self.letters[..self.len as usize]
    }
}

/// What the orders see of a tree with at most 16 leaves, in fixed arrays, so that a walk can fill it without taking memory: the
/// words by the numbers of their leaves, the leaf row, and the labels of the vertices in preorder.
#[derive(Drop)]
pub struct FlatKey {
    words: [FlatWord; NUMBERS],
    row: [u16; MOST_LEAVES],
    leaves: usize,
    labels: [u16; MOST_VERTICES],
    vertices: usize,
    ghost few_leaves: { leaves ≤ 16 },
    ghost few_vertices: { vertices ≤ 15 },
}

impl FlatKey {
    ghost use Rattle.std.specs.Prelude.{◌≡◌, ◌<◌, ◌++◌, ◌∷◌, [], length, map, slice_set};
    ghost use Rattle.shuffle_trees.specs.FlatKeys as spec;

    /// The key without leaves and vertices. It takes no memory.
    pub fn new() -> FlatKey
        ensures words { length (spec.words_by_number result) ≡ 17 }
        ensures row { spec.flat_row result ≡ [] }
        ensures labels { spec.flat_labels result ≡ [] }
    {
        FlatKey {
            words: [FlatWord::empty(); NUMBERS],
            row: [0; MOST_LEAVES],
            leaves: 0,
            labels: [0; MOST_VERTICES],
            vertices: 0,
        }
    }

    /// Puts a leaf behind the row, and its word at its number, which is at most 16. There are less than 16 leaves before. It takes
    /// no memory.
    pub fn put_leaf(&mut self, number: u8, word: FlatWord)
        requires number { number ≤ 16 }
        requires room { length (spec.flat_row self.old) < 16 }
        ensures words { spec.words_by_number self.new ≡ slice_set (spec.words_by_number self.old) number (spec.letters word) }
        ensures row { spec.flat_row self.new ≡ spec.flat_row self.old ++ number ∷ [] }
        ensures labels { spec.flat_labels self.new ≡ spec.flat_labels self.old }
    {
        self.words[number as usize] = word;
        self.row[self.leaves] = u16::from(number);
        self.leaves += 1;
    }

    /// Puts the label of a vertex behind the others, of which there are less than 15. It takes no memory.
    pub fn put_vertex(&mut self, label: u16)
        requires { length (spec.flat_labels self.old) < 15 }
        ensures words { spec.words_by_number self.new ≡ spec.words_by_number self.old }
        ensures row { spec.flat_row self.new ≡ spec.flat_row self.old }
        ensures labels { spec.flat_labels self.new ≡ spec.flat_labels self.old ++ label ∷ [] }
    {
        self.labels[self.vertices] = label;
        self.vertices += 1;
    }

    /// The words of the leaves 1, 2 and so on, as many as there are leaves. It takes no memory.
    pub fn words(&self) -> &[FlatWord]
        ensures words { map spec.letters result.now ≡ spec.flat_words self.now }
        ensures few { length result.now ≤ 16 }
    {
        &self.words[1..self.leaves + 1]
    }

    /// The leaf numbers from left to right. It takes no memory.
    pub fn row(&self) -> &[u16]
        ensures row { result.now ≡ spec.flat_row self.now }
        ensures few { length result.now ≤ 16 }
    {
        &self.row[..self.leaves]
    }

    /// The labels of the vertices in preorder. It takes no memory.
    pub fn vertices(&self) -> &[u16]
        ensures vertices { result.now ≡ spec.flat_labels self.now }
        ensures few { length result.now ≤ 15 }
    {
        &self.labels[..self.vertices]
    }
}
