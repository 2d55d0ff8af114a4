//! Laws of the links of a session.

ghost use Rattle.nr_shared_laws.specs.BothSides.{BothSidesGoOn, SessionChangesTakeEffectOnce};
ghost use Rattle.nr_shared_laws.specs.Sessions.{OutcomesComeOnce, RepresentedLinksGoOn, SessionLinksGoOn, SessionStagsAreDead};

/// The links of a history that keeps the law are links of one client: each was opened with what the client knew when it left the link before it, and
/// at that link's end nothing happened since but that answers that had come were handed over, forgotten or revoked.
pub fn session_links_go_on()
    ensures { SessionLinksGoOn }
{}

/// Of a session's calls no outcome is handed over twice, on whichever of its links, whatever the servers send.
pub fn outcomes_come_once()
    ensures { OutcomesComeOnce }
{}

/// What was offered on a link of a session is out of reach on each later one: an access by its STag ends that link, and changes nothing.
pub fn session_stags_are_dead()
    ensures { SessionStagsAreDead }
{}

/// The links of a history that a requester stands for were opened in range, unless it ran out of memory, and they are links of one client. So it is with
/// those of a requester that `close` gives back.
pub fn represented_links_go_on()
    ensures { RepresentedLinksGoOn }
{}

/// A run of both sides of a session's links, in which the client's marks there are those of the session, each server keeps its law, and each side receives what
/// the other sends: there too the links are links of one client, and each is matched with those before it.
pub fn both_sides_go_on()
    ensures { BothSidesGoOn }
{}

/// In such a run the one journal has at most one entry of a number and an xid, whatever links were lost; and a call of the session that completed with a change
/// has its one entry. Premises: no other client has the session's number, and the servers add to one journal and keep calls.
pub fn session_changes_take_effect_once()
    ensures { SessionChangesTakeEffectOnce }
{}
