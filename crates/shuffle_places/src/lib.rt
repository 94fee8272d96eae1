//! Places in shuffle trees: connected sets of vertices, divisors, frames, small common multiples. Definitions and laws, without code.
#![tactic(auto)]

ghost use Rattle.shuffle_places.specs.Laws.{InsertionsCommute, MultiplesFit, MultiplesListed, PlaceFrames, PlaceSets, PlacesListed};
ghost use Rattle.shuffle_places.specs.PlaceOrder.{MultiplesRise, PlacesRise};
ghost use Rattle.shuffle_places.specs.RootLaws.{DivisorsSplit, InputPlaces, RootPlaces};

/// Law: a connected set of vertices is the set of exactly one place.
pub fn place_sets()
    ensures law { PlaceSets }
{}

/// Law: the divisor of a place inserted into its frame gives the tree, and an insertion has a place with its frame.
pub fn place_frames()
    ensures law { PlaceFrames }
{}

/// Law: the places with a given divisor, each once.
pub fn places_listed()
    ensures law { PlacesListed }
{}

/// Law: the small common multiples of two trees, each once.
pub fn multiples_listed()
    ensures law { MultiplesListed }
{}

/// Law: the places with a divisor are listed in the order of places, rising.
pub fn places_rise()
    ensures law { PlacesRise }
{}

/// Law: the small common multiples in one tree are listed in the order of their first places, and then of their second ones.
pub fn multiples_rise()
    ensures law { MultiplesRise }
{}

/// Law: small common multiples of shuffle trees over labels are over the labels.
pub fn multiples_fit()
    ensures law { MultiplesFit }
{}

/// Law: two insertions at places without a common vertex commute.
pub fn insertions_commute()
    ensures law { InsertionsCommute }
{}

/// Law: a tree has a divisor at its root exactly where trees at the divisor's leaves make it up, with rising least leaves;
/// an insertion there puts these trees at the leaves of what is inserted.
pub fn root_places()
    ensures law { RootPlaces }
{}

/// Law: a place in an input is a place of the tree, and an insertion there is one in the input.
pub fn input_places()
    ensures law { InputPlaces }
{}

/// Law: each place of a tree begins at the root or lies in one input.
pub fn divisors_split()
    ensures law { DivisorsSplit }
{}
