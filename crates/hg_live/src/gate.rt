//! What is called before a publication.

/// Is called under a node's lock before each publication. It may wait; readers don't.
///
/// It must not call the node that it is of, by what takes the lock: the thread that has the lock would wait for itself.
/// It may look.
pub trait Gate {
    /// What is done there.
    fn at_publish(&self);
}

/// A gate that does nothing.
#[derive(Clone, Copy)]
pub struct OpenGate;

impl Gate for OpenGate {
    fn at_publish(&self) {}
}
