//! Text that is to be written.

use crate::waiting::Waiting;
use rd_base::{Bytes, Peer, Sink, Starved, write_all};
use std::alloc::Global;
use std::mem;

/// The maximum number of requests that wait for their answers.
const MAX_WAITING: usize = 16;

/// Text that is to be written, and has not been written.
#[derive(Drop)]
pub(crate) struct Pages {
    /// The text for the output.
    pub out: Bytes,
    /// The text for the error sink.
    pub err: Bytes,
    /// The requests that wait for their answers, in the order in which they were received. Their
    /// text follows `out`.
    waiting: Vec<Waiting>,
    /// The allocator of their memory.
    alloc: Global,
}

impl Pages {
    /// Creates empty pages.
    pub(crate) fn new(alloc: Global) -> Pages {
        Pages {
            out: Bytes::new(alloc),
            err: Bytes::new(alloc),
            waiting: Vec::new(alloc),
            alloc,
        }
    }

    /// Appends a line to the output, after the requests that wait.
    pub(crate) fn put_line(&mut self, line: &[u8]) -> Result<(), Starved> {
        let Some(last) = self.waiting.last_mut() else {
            self.out.append(line)?;
            return self.out.push(b'\n');
        };
        last.put_line(line)?;
        let is_long = last.is_long();
        self.release_if(is_long)
    }

    /// Appends the line of a request that waits for its answer. If too many wait, those stop
    /// waiting first.
    pub(crate) fn put_request(&mut self, request: Waiting) -> Result<(), Starved> {
        if self.waiting.len() == MAX_WAITING {
            self.release()?;
        }
        self.waiting.push(request)?;
        Ok(())
    }

    /// Gives the word of an answer to the first request that waits for it.
    pub(crate) fn answer(&mut self, peer: Peer, token: &[u8], word: u32) -> Result<(), Starved> {
        let place = self
            .waiting
            .iter()
            .position(|request| request.is_answered(peer, token));
        let Some(place) = place else {
            return Ok(());
        };
        let text = self.waiting.remove(place).text(self.alloc, word)?;
        if place == 0 {
            return self.out.append(text.as_slice());
        }
        let before = &mut self.waiting[place - 1];
        before.put_text(text.as_slice())?;
        let is_long = before.is_long();
        self.release_if(is_long)
    }

    /// Ends the waiting of all requests if too much text follows one of them.
    fn release_if(&mut self, is_long: bool) -> Result<(), Starved> {
        if is_long {
            return self.release();
        }
        Ok(())
    }

    /// Ends the waiting of all requests.
    pub(crate) fn release(&mut self) -> Result<(), Starved> {
        let waiting = mem::replace(&mut self.waiting, Vec::new(self.alloc));
        'requests: for request in &waiting {
            let text = request.text(self.alloc, 0)?;
            self.out.append(text.as_slice())?;
        }
        Ok(())
    }

    /// Appends a line that says why a packet was not read.
    pub(crate) fn say(&mut self, alloc: Global, packet: u64, why: &str) -> Result<(), Starved> {
        let line = format!(in alloc; "packet {packet}: {why}\n")?;
        self.err.append(line.as_bytes())
    }

    /// Writes the text, and empties it. Returns whether the output accepted it. Text that the error
    /// sink does not accept is lost.
    pub(crate) fn write<K: Sink, E: Sink>(&mut self, out: &mut K, err: &mut E) -> bool {
        let _ = write_all(err, self.err.as_slice());
        self.err.truncate(0);
        let is_written = write_all(out, self.out.as_slice());
        self.out.truncate(0);
        is_written
    }
}
