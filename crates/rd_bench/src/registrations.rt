//! Bodies of registrations, and their drafts.
ghost use Rattle.std.specs.Prelude.{◌≡◌, IfOk};
ghost use Rattle.version_board.specs.Samples.{sample_params};

use bench_rows::{Sample, Trouble};
use rd_base::{Host, Name, Pairs, Peer, RegParams, Starved, Text};
use registration::{Draft, DraftFault, build};
use std::alloc::Global;

/// The peer that registers.
pub const PEER: Peer = Peer {
    host: Host::V4([192, 0, 2, 10]),
    port: 5683,
};

/// Returns the parameters of registrations, without a base.
///
/// # Errors
///
/// `Starved` if memory runs out.
pub fn params_of(alloc: Global) -> Result<RegParams, Starved>
    ensures { IfOk result (λ params. params ≡ sample_params) }
{
    Ok(RegParams {
        name: Name {
            ep: Text::copy_of(alloc, "node")?,
            sector: None,
        },
        lt: 600,
        base: None,
        attrs: Pairs::of(Vec::new(alloc)),
    })
}

/// Returns a body with this number of links.
///
/// # Errors
///
/// `Starved` if memory runs out.
pub fn body_of(alloc: Global, size: u64) -> Result<String, Trouble> {
    let mut body = String::new(alloc);
    for number in 0..size {
        if !body.is_empty() {
            body.push(',')?;
        }
        let link = format!(in alloc; "</s{number}>;rt=\"temp{number}\"")?;
        body.push_str(link.as_str())?;
    }
    Ok(body)
}

/// Returns the draft of a body.
///
/// # Errors
///
/// `Starved` if memory runs out; `Outside` if the body is refused.
pub fn draft_of(alloc: Global, body: &str) -> Result<Draft, Trouble> {
    match build(alloc, params_of(alloc)?, PEER, body.as_bytes()) {
        Ok(draft) => Ok(draft),
        Err(DraftFault::Starved) => Err(Trouble::Starved),
        Err(_) => Err(Trouble::Outside),
    }
}

/// A body of which drafts are built.
#[derive(Drop)]
pub struct Body {
    body: String,
    alloc: Global,
}

impl Sample for Body {
    const CALLS: u64 = 20;

    fn make(alloc: Global, size: u64) -> Result<Body, Trouble> {
        Ok(Body {
            body: body_of(alloc, size)?,
            alloc,
        })
    }

    /// Builds drafts. Returns how many links they have.
    fn round(&mut self) -> Result<u64, Trouble> {
        let mut links = 0;
        for _ in 0..Self::CALLS {
            let draft = draft_of(self.alloc, self.body.as_str())?;
            links = u64::wrapping_add(links, draft.items.len() as u64);
        }
        Ok(links)
    }
}
