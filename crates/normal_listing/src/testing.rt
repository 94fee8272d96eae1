ghost use Rattle.std.specs.Prelude.{◌≡◌, ◌<◌, length};
ghost use Rattle.std.specs.List.{All};
ghost use Rattle.labelled_trees.specs.Trees.{Tree};
ghost use Rattle.shuffle_places.specs.RootPlaces.{IsShuffleAmong};
ghost use Rattle.normal_listing.specs.Vertices.{IsShuffleLead, passes, vertex};

use crate::labels::Lead;
use division::divides_inputs;
use tree_store::{Store, TreeId};

/// Whether none of the leads divides at its root the vertex with this label and these inputs. `parts` is room for the parts
/// of a tree; its contents don't matter. It takes no memory.
pub fn is_undivided(
    store: &Store,
    leads: &[Lead],
    label: u16,
    inputs: &[TreeId],
    parts: &mut [TreeId],
) -> bool
    requires leads { All (IsShuffleLead store.now) leads.now }
    requires inputs { All (λ id. id < length store.now) inputs.now }
    requires among { IsShuffleAmong 255 (vertex store.now label inputs.now) }
    requires room { 255 < length parts.old }
    ensures passes { result ≡ passes store.now leads.now label inputs.now }
    ensures room { length parts.new ≡ length parts.old }
{
    for lead in leads {
        if divides_inputs(store, lead.id, lead.arity, label, inputs, parts) {
            return false;
        }
    }
    true
}
