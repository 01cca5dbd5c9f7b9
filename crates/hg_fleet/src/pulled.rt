//! What a fleet answers.
use hg_history::Fault;
use hg_peer::PeerRefusal;
use hg_replica::Change;
use hg_world::Answer;

/// What a world of peers answers to an event.
pub type PeerAnswer = Answer<Change, PeerRefusal, Fault>;

/// What became of a pull.
#[derive(Drop)]
pub struct Pulled {
    /// What the giver's offer was answered.
    pub offered: PeerAnswer,

    /// What the taking of the message was answered, where one was offered.
    pub taken: Option<PeerAnswer>,
}
