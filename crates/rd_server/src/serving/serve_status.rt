//! How a server ends.

/// How a server ends. If several apply, memory precedes a link, and a link precedes the output.
#[derive(Clone, Copy, Debug, PartialEq, Eq)]
pub enum ServeStatus {
    /// Every worker was served to the end, and the line of their sums was written.
    Done,
    /// A receive of one of the ends failed.
    Link,
    /// The output failed.
    Write,
    /// Memory ran out.
    Memory,
}
