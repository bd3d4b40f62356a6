//! The line that a server prints at its start.
use crate::about::NAME_AND_VERSION;
use crate::plans::HostPlan;
use rd_base::{Peer, Starved, peer_text};
use std::alloc::Global;
use std::fmt::Write;

/// Returns the addresses, separated by commas.
fn addresses_text(alloc: Global, addresses: &[Peer]) -> Result<String, Starved> {
    let mut text = String::new(alloc);
    for (k, address) in addresses.iter().enumerate() {
        if k > 0 {
            text.push(',')?;
        }
        text.push_str(peer_text(alloc, address)?.as_str())?;
    }
    Ok(text)
}

impl HostPlan {
    /// Returns the line that is printed at the start.
    ///
    /// It has the name, the version, the addresses, the number of workers of each address, the
    /// share of a source, the limit of query options, and the number above which the run begins.
    ///
    /// # Errors
    ///
    /// `Starved` if memory runs out.
    pub fn start_line(&self, alloc: Global, begin: u64) -> Result<String, Starved> {
        let listen = addresses_text(alloc, self.listen.as_slice())?;
        let HostPlan {
            workers,
            share,
            criteria,
            ..
        } = self;
        let mut line = String::from_str(alloc, NAME_AND_VERSION)?;
        write!(line, ": listen={listen} workers={workers}")?;
        if !self.tcp.is_empty() {
            let tcp = addresses_text(alloc, self.tcp.as_slice())?;
            write!(line, " tcp={tcp} connections={}", self.connections)?;
        }
        write!(line, " share={share} criteria={criteria} begin={begin}\n")?;
        Ok(line)
    }
}
