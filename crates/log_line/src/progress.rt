//! The progress of an audit.

/// Receives the progress of an audit.
pub trait Progress {
    /// Called after a line is read: `lines` were read so far.
    fn lines_read(&mut self, lines: u64);

    /// Called after a call is judged: `calls` were judged so far.
    fn calls_judged(&mut self, calls: u64);
}
