//! The names of the objects that a request reaches: X.711, section 7.5, type Scope.
#![tactic(auto)]

pub mod entries;
pub mod laws;
pub mod levels;
pub mod refusal;
pub mod subtrees;
pub mod walking;

pub use entries::entries_in_scope;
pub use refusal::ScopeRefusal;
pub use subtrees::Subtrees;
pub use walking::in_scope;
