/// The protocols that are told: each keeps at a block's home which nodes have copies of it.
#[derive(Clone, Copy)]
pub enum Directory {
    Stache,
    /// A recall for a reader leaves the owner a copy.
    StacheD,
    /// At most two caches hold a block read-only.
    StacheL,
}
