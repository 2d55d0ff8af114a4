//! A law of shared requesters.

ghost use Rattle.nr_shared.specs.Laws.{FitsFromOpening};

/// If a requester is shared as it was opened, its history fits each link that it was opened for. So clauses on runs, which speak of each
/// link that the history fits, speak of these.
pub fn opened_requesters_fit()
    ensures { FitsFromOpening }
{}
