//! Whether a node has a configured function, at it or below.

/// A node that tells whether a function is configured at it or below.
pub(crate) trait Configured {
    /// Whether a function is configured here or below: then shares are searched for by the values
    /// of the node.
    fn is_configured(&self) -> bool;
}

/// Whether a function is configured at one of the nodes or below.
pub(crate) fn is_any_configured<C: Configured>(nodes: &[C]) -> bool {
    for node in nodes {
        if node.is_configured() {
            return true;
        }
    }
    false
}
