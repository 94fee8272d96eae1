ghost use Rattle.std.specs.Prelude.{◌≡◌, ◌≤◌, length, map};
ghost use Rattle.shuffle_insertions.specs.Counting as spec;
ghost use Rattle.shuffle_transfer.specs.LabelCounts.{kind_orders};
ghost use Rattle.shuffle_transfer.specs.Labels.{words_of};
ghost use Rattle.symmetric_trees.specs.Generators.{IsArity, SizesFit, kind_of, part_of};

use symmetric_trees::{Generator, Part, PartKind};

// The product of the numbers from 1 to this one, at most 6.
fn factorial(number: u8) -> u16
    requires { number ≤ 6 }
    ensures { result ≡ spec.factorial number }
{
    let mut product = 1;
    for factor in 0..number {
        product *= u16::from(factor) + 1;
    }
    product
}

// How many orders of the inputs of a part one label stands for.
fn orders_of(part: Part) -> u16
    requires { part.size ≤ 6 }
    ensures { result ≡ kind_orders (kind_of part.kind) part.size }
{
    match part.kind {
        PartKind::Free => 1,
        PartKind::Sym | PartKind::Alt => factorial(part.size),
    }
}

// How many labels a generator has: the number of orders of its inputs, divided part by part. It takes no memory.
pub fn count_labels(generator: &Generator) -> u16
    requires arity { IsArity generator.now.arity }
    requires sizes { SizesFit generator.now }
    ensures { result ≡ length (words_of (map part_of generator.now.parts)) }
{
    let mut count = factorial(generator.arity);
    for part in generator.parts.as_slice() {
        count /= orders_of(*part);
    }
    count
}
