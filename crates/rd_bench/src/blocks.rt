//! The table of transfers: uploads in blocks of two sizes, and kept answers with bodies of two
//! sizes.

use bench_rows::{Sample, Trouble};
use message_model::Block;
use rd_base::{Bytes, Host, Key, Moment, Peer, Tag};
use std::alloc::Global;
use std::sync::Arc;
use transfers::{Answer, Answers, Transfers, Upload};

/// The number of kept answers.
const KEPT: u16 = 64;

/// The octets of the largest block.
const PIECE: [u8; 1_024] = [b'x'; 1_024];

/// Returns the peer at a port.
fn peer_at(port: u16) -> Peer {
    Peer {
        host: Host::V4([192, 0, 2, 10]),
        port,
    }
}

/// Returns the key of the requests.
fn key(alloc: Global) -> Result<Key, Trouble> {
    Ok(Key::of(Bytes::copy_of(alloc, b"\x02\x02\x05ep=n1")?))
}

/// A table for uploads in blocks of one size.
#[derive(Drop)]
pub struct Uploads {
    table: Transfers,
    alloc: Global,
    key: Key,
    /// The length of a block in octets, 16 or 1,024.
    size: u64,
    /// The exponent of that size.
    szx: u8,
    /// The number of the last block.
    last: u32,
}

impl Uploads {
    /// Makes one upload. Returns the length of the whole body in octets.
    fn upload(&mut self) -> u64 {
        let piece = PIECE.as_slice().get(..self.size as usize).unwrap_or(b"");
        let mut whole = 0;
        'blocks: for num in 0..=self.last {
            let block = Block {
                num,
                more: num < self.last,
                szx: self.szx,
            };
            let found = self.table.upload(
                self.alloc,
                Moment(1_000),
                peer_at(1),
                &self.key,
                &block,
                piece,
            );
            if let Upload::Whole(body) = found {
                whole = body.len() as u64;
            }
        }
        self.table.end_upload(peer_at(1), &self.key);
        whole
    }
}

impl Sample for Uploads {
    const CALLS: u64 = 100;

    fn make(alloc: Global, size: u64) -> Result<Uploads, Trouble> {
        let key = key(alloc)?;
        let table = Transfers::make(alloc)?;
        let (szx, last) = if size == 16 { (0, 511) } else { (6, 7) };
        Ok(Uploads {
            table,
            alloc,
            key,
            size,
            szx,
            last,
        })
    }

    fn round(&mut self) -> Result<u64, Trouble> {
        let mut octets = 0;
        'uploads: for _ in 0..Self::CALLS {
            octets = u64::wrapping_add(octets, self.upload());
        }
        Ok(octets)
    }
}

/// A table with as many kept answers as there is room for, each of a peer at its own port.
#[derive(Drop)]
pub struct KeptBodies {
    table: Transfers,
    key: Key,
}

impl Sample for KeptBodies {
    const CALLS: u64 = 2_000;

    fn make(alloc: Global, size: u64) -> Result<KeptBodies, Trouble> {
        let body = body_of(alloc, size)?;
        let mut table = Transfers::make(alloc)?;
        'answers: for port in 0..KEPT {
            let answer = Answer {
                peer: peer_at(port),
                key: key(alloc)?,
                body: Arc::try_clone(&body)?,
                tag: Tag([0; 8]),
            };
            let more = Answers::of(Vec::from_array(alloc, [answer])?);
            let ready = table.ready(alloc, Moment(1_000), more)?;
            table.adopt(ready);
        }
        let key = key(alloc)?;
        Ok(KeptBodies { table, key })
    }

    /// Reads kept answers, always the one that was used longest ago. Returns the sum of their
    /// lengths in octets.
    fn round(&mut self) -> Result<u64, Trouble> {
        let mut octets = 0;
        'calls: for call in 0..Self::CALLS {
            let port = (call % KEPT as u64) as u16;
            if let Some((body, _)) = self
                .table
                .kept_block(Moment(1_000), peer_at(port), &self.key)
            {
                octets = u64::wrapping_add(octets, body.len() as u64);
            }
        }
        Ok(octets)
    }
}

/// Returns a body of a multiple of 1,024 octets.
fn body_of(alloc: Global, size: u64) -> Result<Arc<Bytes>, Trouble> {
    let mut octets = Bytes::new(alloc);
    'octets: for _ in 0..size / 1_024 {
        octets.append(PIECE.as_slice())?;
    }
    Ok(Arc::new(alloc, octets)?)
}
