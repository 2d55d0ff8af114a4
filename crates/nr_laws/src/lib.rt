//! What holds of every run of both ends of a link: the laws of a caller and of a peer, proved from the definitions alone.
//!
//! It stands on `nr_reduce`, whose definitions say which runs are right, and on what that stands on. Nothing of it runs: each
//! public function has a law as its contract. `docs/LAWS.md` puts each law's sentence beside its premises.
#![tactic(auto)]

mod completion;
mod handover;
mod items;
mod laws;
mod payloads;
mod regions;

pub use completion::{calls_complete, matched_links_stay, segments_keep_the_rules};
pub use handover::{plain_links, replies_are_plain, replies_handed_over};
pub use items::server_output_is_items;
pub use laws::{
    chunk_outcomes, grant, once, once_each, places, reopening, server_credits, sides_agree,
    sides_stay_bounded, touches,
};
pub use payloads::{answers_convey, executed_payloads, messages_in_segments, sends_convey};
pub use regions::{offered_memory, offered_regions, regions_handed_back, sent_bytes};
