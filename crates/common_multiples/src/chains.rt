ghost use Rattle.std.specs.Prelude.{◌≡◌, ◌<◌, ◌≤◌, ℕ, slice_index};
ghost use Rattle.common_multiples.specs.Listing.{IsInverse, IsNextStep, IsOneToOne, chains_of};
ghost use Rattle.common_multiples.specs.Merging as spec;

// Two chains of leaves: which leaf is at each place of them, from 1 on, and the place of each leaf in them, 0 if it has none.
#[derive(Drop)]
pub(crate) struct Chains {
    pub(crate) first: [u8; 256],
    pub(crate) first_length: u8,
    pub(crate) on_first: [u8; 256],
    pub(crate) second: [u8; 256],
    pub(crate) second_length: u8,
    pub(crate) on_second: [u8; 256],
}

// The place of each leaf in the chain, 0 if it has none.
fn places_in(chain: &[u8; 256], length: u8) -> [u8; 256]
    requires once { IsOneToOne length (slice_index chain.now) }
    ensures places { IsInverse length (slice_index chain.now) (slice_index result) }
{
    let mut places = [0; 256];
    for at in 0..length {
        places[chain[at as usize + 1] as usize] = at + 1;
    }
    places
}

impl Chains {
    // The two chains, in each of which no leaf stands twice.
    pub(crate) fn of(
        first: [u8; 256],
        first_length: u8,
        second: [u8; 256],
        second_length: u8,
    ) -> Chains
        requires first { IsOneToOne first_length (slice_index first) }
        requires second { IsOneToOne second_length (slice_index second) }
        ensures first { (result.first ≡ first) × (result.first_length ≡ first_length) }
        ensures second { (result.second ≡ second) × (result.second_length ≡ second_length) }
        ensures on_first { IsInverse first_length (slice_index first) (slice_index result.on_first) }
        ensures on_second { IsInverse second_length (slice_index second) (slice_index result.on_second) }
    {
        Chains {
            first,
            first_length,
            on_first: places_in(&first, first_length),
            second,
            second_length,
            on_second: places_in(&second, second_length),
        }
    }

    // The leaf that comes next by the first chain, and the places that come next behind it, where the places `i` and `j` of the
    // chains come next now. None where the first chain is at its end, or its leaf waits for the second.
    pub(crate) fn by_first(&self, i: usize, j: usize) -> Option<(u8, usize, usize)>
        ensures step { IsNextStep (spec.by_first (chains_of self.now) i j) result }
    {
        if i > self.first_length as usize {
            return None;
        }
        let leaf = self.first[i];
        match self.on_second[leaf as usize] as usize {
            0 => Some((leaf, i + 1, j)),
            other if other == j => Some((leaf, i + 1, j + 1)),
            _ => None,
        }
    }

    // The leaf that comes next by the second chain alone, and the places that come next behind it.
    pub(crate) fn by_second(&self, i: usize, j: usize) -> Option<(u8, usize, usize)>
        ensures step { IsNextStep (spec.by_second (chains_of self.now) i j) result }
    {
        if j > self.second_length as usize {
            return None;
        }
        let leaf = self.second[j];
        match self.on_first[leaf as usize] {
            0 => Some((leaf, i, j + 1)),
            _ => None,
        }
    }
}
