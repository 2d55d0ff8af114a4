//! What each command prints, as a function of the tree of the server that answers it.
//!
//! It is proved from the laws of a command and a connection. Nothing of it runs: each public function has a law as its contract.
#![tactic(auto)]

mod laws;

pub use laws::{
    changed_names_lead_there, ends_of_gets_have_causes, ends_of_jobs_have_causes,
    found_files_are_there, lists_are_of_the_trees, numbers_fit_in_fields, paths_in_one_tree,
    texts_are_of_the_node, texts_are_of_the_trees,
};
