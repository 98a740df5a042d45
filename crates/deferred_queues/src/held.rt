use tw_base::Message;

/// A deferred message, and how many messages the node had deferred before it.
#[derive(Clone, Copy)]
pub struct Held {
    pub arrival: u64,
    pub message: Message,
}
