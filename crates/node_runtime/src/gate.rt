/// What a worker calls before each of its turns. It has no meaning.
pub trait Gate {
    fn at(&self, worker: u32, turn: u64);
}

/// The gate that lets every worker pass.
#[derive(Clone, Copy)]
pub struct OpenGate;

impl Gate for OpenGate {
    fn at(&self, _worker: u32, _turn: u64) {}
}
