//! The law of links.

ghost use Rattle.nr_world.specs.Laws.{OtherLinksStand};

/// What is done on one link leaves the others: if it adds marks of its own link alone and changes no other link's pipes, a link that stood for
/// the drill before stands for the drill after.
pub fn other_links_stand()
    ensures { OtherLinksStand }
{}
