//! A run under way: what the sessions share, and each session with its replies.

use script_text::Reply;
use session_state::Session;
use shared_history::LoneDb;
use tuple_codec::Digester;

/// A session, and what it has answered so far.
#[derive(Drop)]
pub struct Speaker<D: Digester> {
    pub session: Session<D>,
    pub replies: Vec<Reply>,
}

/// A run under way: what the sessions share, and the sessions by their places.
#[derive(Drop)]
pub struct Running<D: Digester> {
    pub lone: LoneDb<D>,
    pub speakers: Vec<Speaker<D>>,
}
