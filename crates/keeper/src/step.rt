// What a keeper does with a message that it does not refuse.
use protocol::message::Message;
use protocol::record::Record;

// It answers and keeps its record as it is, or it stores a new record and answers.
#[derive(Clone, Copy)]
pub enum Step<V> {
    Answered(Message<V>),
    Stored(Record<V>, Message<V>),
}
