//! An unfinished proof over numbers: the policy from which it is sought, its terms, places and uses of rules, and the
//! conditions that it leaves over or that wait for a variable. Constants, predicates and formulas are numbered by who asks.
//!
//! It is believed by nobody: a proof is checked by `proof_verifier` before it is given out. What is proved here is that each
//! call is safe and ends, whatever the numbers are: those of nothing stand for a part without meaning.
#![tactic(auto)]

mod conditions;
mod draft;
mod formulas;
mod parts;
mod places;
mod policy;
mod terms;

pub use conditions::Weight;
pub use draft::{Asked, Draft};
pub use formulas::{Constant, Entry, Fact, NOTHING, Node, Shape, Sort, Stated, Term};
pub use parts::{
    Binding, Bound, Frame, Hypothesis, Instance, Lengths, Link, Missing, Order, Parameter, Part,
    Place, Predicate, Rule, Undo, Use, Variable, Waiting,
};
pub use policy::{Chain, FALSITY, FIRST_PREDICATE, ORDER, Policy};
