use crate::status::Status;
use xa_domain::stamp::Record;
use xa_domain::{CutLife, EndedLife};
use xa_events::Event;
use xa_link::Yard;

/// What a run hands back: how it ended, the homes, in which each event stands with its stamp, the history, which is the
/// events of all homes in order, and by server its lives that ended, the one that went on at a halt, and its starter.
/// There are none of these of `server`, and where the words, the configuration, the input or the script were refused.
/// Where stamps or memory came to their end there may be none, or what there was by then; the history may then be empty
/// though the homes aren't.
pub struct Outcome<Y: Yard> {
    pub status: Status,
    pub homes: Record,
    pub history: Vec<Event>,
    pub lives: Vec<Vec<EndedLife<Y::Line>>>,
    pub cut: Vec<Option<CutLife<Y::Line>>>,
    pub starters: Vec<Y::Start>,
}
