use engine_workers::Engine;

/// By which engine messages are decided.
#[derive(Clone, Copy)]
pub enum EngineChoice {
    /// None is named. What is fastest where decisions are light: one thread decides on the book itself, while others read and write.
    NotNamed,
    /// The one that is named.
    Named(Engine),
}
