//! Division of sums of shuffle trees by monic elements, over the ids of a shelf.
//!
//! `dividing` finds the first element of a list whose leading tree divides a tree, `tails` and `kept` make the trees that a
//! step from there leads to: they belong to the shelf, so it has room for them. `gathering` collects all trees that steps can
//! reach from given ones; `cones` sorts them and gives each the rule of its step; `rows` reduces sums over them, with counted
//! and logged steps. `growing` adds an element to what was gathered. `basis` keeps monic sums with different leading trees,
//! `index` their positions by root label and arity, and a `cofactor` records a step.
#![tactic(auto)]

mod basis;
mod building;
mod cofactor;
mod cones;
mod divider;
mod dividing;
mod extending;
mod gathering;
mod given;
mod growing;
mod index;
mod kept;
mod laws;
mod laying;
mod ranks;
mod reducer;
mod root;
mod rows;
mod rules;
mod tails;

pub use basis::Basis;
pub use building::{build, replace_input};
pub use cofactor::Cofactor;
pub use cones::{Cone, cone_of};
pub use dividing::first_divider;
pub use extending::extend_dividers;
pub use gathering::{gather, meet, meet_all, step};
pub use given::{Given, given_of};
pub use growing::add_element;
pub use kept::make_tail;
pub use laws::{dividers_decide_freeness, tails_are_insertions};
pub use laying::{divides_inputs, divides_root};
pub use reducer::Reducer;
pub use rows::{RowFail, reduce_row, sweep_row};
pub use tails::insert_at_root;
