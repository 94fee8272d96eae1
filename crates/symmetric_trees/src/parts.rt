ghost use Rattle.std.specs.Prelude.{◌≡◌, ◌≢◌, ◌<◌, ◌^◌, ℕ, length, map};
ghost use Rattle.std.specs.List.{AllPairs, sum_by};
ghost use Rattle.operad_ideals.specs.Sorting as plain;
ghost use Rattle.symmetric_trees.specs.Generators.{kind_of, part_of};
ghost use Rattle.symmetric_trees.specs.Spelling.{meaning_of};

use crate::{Part, PartKind, Sign};

/// What is sorted by a number that belongs to it.
pub trait Keyed {
    ghost key_of: { Self → ℕ };

    /// The number.
    fn key(&self) -> u8
        ensures { result ≡ key_of self.now };
}

impl Keyed for u8 {
    ghost key_of = { λ number. number };

    fn key(&self) -> u8 {
        *self
    }
}

// The sign of the permutation that sorts the items.
fn order_sign<T: Keyed>(items: &[T]) -> Sign
    ensures { meaning_of result ≡ plain.order_sign (map T.key_of items.now) }
{
    let mut sign = Sign::Plus;
    let mut rest = items;
    while let [first, others @ ..] = rest {
        let key = first.key();
        let lesser = others.iter().filter(|other| other.key() < key).count();
        sign = sign.times(Sign::of_count(lesser));
        rest = others;
    }
    sign
}

// Sorts the items of one part by their keys, unless the part is free, and answers the sign.
fn sort_part<T: Keyed>(kind: PartKind, items: &mut [T]) -> Sign
    requires { AllPairs (λ one other. T.key_of one ≢ T.key_of other) items.old }
    ensures order { items.new ≡ plain.sort_part T.key_of (kind_of kind) items.old }
    ensures sign { meaning_of result ≡ plain.part_sign (kind_of kind) (map T.key_of items.old) }
{
    match kind {
        PartKind::Sym => {
            items.sort_unstable_by_key(|item| item.key());
            Sign::Plus
        }
        PartKind::Alt => {
            let sign = order_sign(items);
            items.sort_unstable_by_key(|item| item.key());
            sign
        }
        PartKind::Free => Sign::Plus,
    }
}

/// Sorts the items of each symmetric and each skew part by their keys, which differ from each other; those of a free part stay. The
/// parts have as many inputs as there are items. Answers the product of the signs of the permutations that sort the skew parts.
pub fn sort_parts<T: Keyed>(parts: &[Part], items: &mut [T]) -> Sign
    requires few { length items.old < 2 ^ 63 }
    requires sizes { sum_by (λ part. part.size) parts.now ≡ length items.old }
    requires apart { AllPairs (λ one other. T.key_of one ≢ T.key_of other) items.old }
    ensures order { items.new ≡ plain.sort_parts T.key_of (map part_of parts.now) items.old }
    ensures sign { meaning_of result ≡ plain.parts_sign (map part_of parts.now) (map T.key_of items.old) }
{
    let mut sign = Sign::Plus;
    let mut from = 0;
    for part in parts {
        let to = from + part.size as usize;
        sign = sign.times(sort_part(part.kind, &mut items[from..to]));
        from = to;
    }
    sign
}
