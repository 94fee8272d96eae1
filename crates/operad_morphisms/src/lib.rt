//! Maps between operads given by the images of their generators: definitions and laws, without code.
#![tactic(auto)]

ghost use Rattle.operad_morphisms.specs.Laws.{IdentityMap, ImagesCompose, ImagesOfLabelledTrees, MapsCompose, Morphism, ObligationCount};

/// Law: the image of composed trees or elements is the composition of their images, and the image of a tree in a context is
/// each tree of its image in each context of the context's image.
pub fn images_compose()
    ensures law { ImagesCompose }
{}

/// Law: the image of a labelled tree is a sum of trees labelled by the same numbers; images depend on coefficients alone,
/// and relabelling the leaves before or after makes no difference.
pub fn images_of_labelled_trees()
    ensures law { ImagesOfLabelledTrees }
{}

/// Law: the images of all rules lie in the ideal of the second presentation exactly where the image of each element of the
/// first ideal does.
pub fn morphism()
    ensures law { Morphism }
{}

/// Law: the obligations are the symmetry rules, by generator and then by position, and then the relations with terms, by
/// number; each stands there once, and nothing else does. Generators are counted from 0, inputs and relations from 1.
pub fn obligation_count()
    ensures law { ObligationCount }
{}

/// Law: the image under one map after another is the image of the image.
pub fn maps_compose()
    ensures law { MapsCompose }
{}

/// Law: the image of an element under the identity is that element.
pub fn identity_map()
    ensures law { IdentityMap }
{}
