//! The uploads of a table, in the order in which they began.
ghost use Rattle.std.specs.Prelude.{◌≡◌, ◌≢◌, ◌<◌, ◌≤◌, ◌==◌, ◌++◌, Bool, not, ◌&&◌, length};
ghost use Rattle.std.specs.Prelude.{filter, find, option_map, IfOk, OnOk, OnErr};
ghost use Rattle.std.specs.List.{position};
ghost use Rattle.std.specs.Vec.{vec_len, vec_capacity};
ghost use Rattle.rd_base.specs.Firsts.{changed_first};
ghost use Rattle.message_model.specs.Uploads.{max_uploads, collected_before, is_one_too_many};
ghost use Rattle.event_model.specs.Uploads.{Upload as LiveUpload};
ghost use Rattle.transfers.specs.Uploading.{is_of, is_live_as, live_body, young_uploads};
ghost use Rattle.transfers.specs.Uploading.{other_uploads, with_block, begun, taken};
ghost use Rattle.transfers.specs.Uploading.{without_upload};
ghost use Rattle.transfers.specs.BlockAnswers.{answer_to};

use crate::collecting::begins_at;
use crate::{Collected, Upload};
use message_model::{Block, MAX_BODY, MAX_UPLOADS};
use rd_base::{Bytes, Key, Moment, Peer, Starved};
use std::alloc::Global;

/// Returns the index of the upload of this peer and request key, if it has not expired.
fn live_index(uploads: &Vec<Collected>, now: Moment, peer: Peer, key: &Key) -> Option<usize>
    ensures { result ≡ position (is_live_as now.0 (peer, key.now)) uploads.now.items }
{
    uploads
        .iter()
        .position(|upload| upload.is_live_as(now, peer, key))
}

/// Returns the octets of the upload with an index, if there is one. The index is that of the first
/// upload that passes a test.
fn body_at<'a>(uploads: &'a Vec<Collected>, index: Option<usize>) -> Option<&'a [u8]>
    requires { (test : LiveUpload → Bool) × (index ≡ position test uploads.now.items) }
    ensures { (test : LiveUpload → Bool)
        → index ≡ position test uploads.now.items
        → option_map (λ s. s.now) result
        ≡ option_map (λ u. u.body) (find test uploads.now.items) }
{
    match index {
        Some(at) => Some(uploads[at].body()),
        None => None,
    }
}

/// Returns the number of uploads that have not expired.
fn count_live(uploads: &Vec<Collected>, now: Moment) -> usize
    ensures { result ≡ length (young_uploads now.0 uploads.now.items) }
{
    uploads.iter().filter(|upload| upload.is_young(now)).count()
}

/// Returns what is stored before a block: nothing before the first, otherwise the octets of the
/// upload, if the block begins after them. Returns `None` if the block is out of order.
fn collected<'a>(body: Option<&'a [u8]>, block: &Block) -> Option<&'a [u8]>
    ensures { option_map (λ s. s.now) result
        ≡ collected_before block.now (option_map (λ s. s.now) body.entry) }
{
    if block.num == 0 {
        return Some(&[]);
    }
    let Some(octets) = body else {
        return None;
    };
    if begins_at(block, octets.len() as u64) {
        return Some(octets);
    }
    None
}

/// Returns whether a block begins an upload that more blocks follow, while the most uploads allowed
/// are in progress.
fn is_one_too_many(
    uploads: &Vec<Collected>,
    now: Moment,
    block: &Block,
    body: Option<&[u8]>,
) -> bool
    ensures { result
        ≡ is_one_too_many block.now (option_map (λ s. s.now) body.entry)
        (length (young_uploads now.0 uploads.now.items)) }
{
    block.num == 0 && block.more && body.is_none() && MAX_UPLOADS <= count_live(uploads, now)
}

/// Returns the stored octets followed by those of the last block.
fn joined(alloc: Global, collected: &[u8], piece: &[u8]) -> Result<Bytes, Starved>
    ensures { IfOk result (λ b. b ≡ collected.now ++ piece.now) }
{
    let mut whole = Vec::with_capacity(alloc, collected.len() + piece.len())?;
    whole.extend_from_slice(collected)?;
    whole.extend_from_slice(piece)?;
    Ok(Bytes::of(whole))
}

/// Drops the uploads that have expired, and that of this peer and request key.
fn keep_others(uploads: &mut Vec<Collected>, now: Moment, peer: Peer, key: &Key)
    ensures items { uploads.new.items ≡ other_uploads now.0 (peer, key.now) uploads.old.items }
    ensures capacity { vec_capacity uploads.new ≡ vec_capacity uploads.old }
{
    uploads.retain(|upload| upload.is_young(now) && !upload.is_of(peer, key));
}

/// Drops the upload of this peer and request key.
pub(crate) fn drop_upload(uploads: &mut Vec<Collected>, peer: Peer, key: &Key)
    ensures items { uploads.new.items ≡ without_upload (peer, key.now) uploads.old.items }
    ensures capacity { vec_capacity uploads.new ≡ vec_capacity uploads.old }
{
    uploads.retain(|upload| !upload.is_of(peer, key));
}

/// Begins the upload of this peer and request key again, with a first block. `Starved` leaves
/// everything unchanged.
#[tactic(auto, unfolding(crate::specs::Uploading::begun))]
fn begin(
    uploads: &mut Vec<Collected>,
    now: Moment,
    peer: Peer,
    key: &Key,
    piece: &[u8],
) -> Result<(), Starved>
    requires { length (other_uploads now.0 (peer, key.now) uploads.old.items)
        < vec_capacity uploads.old }
    ensures ok { OnOk result
        (uploads.new.items ≡ begun now.0 (peer, key.now) piece.now uploads.old.items) }
    ensures err { OnErr result (uploads.new.items ≡ uploads.old.items) }
    ensures capacity { vec_capacity uploads.new ≡ vec_capacity uploads.old }
{
    let upload = Collected::begin(*uploads.allocator(), now, peer, key, piece)?;
    keep_others(uploads, now, peer, key);
    uploads.push_reserved(upload);
    Ok(())
}

/// Appends a block to the upload with an index, if there is one. The index is that of the first
/// upload that passes a test. `Starved` leaves everything unchanged.
fn go_on(
    uploads: &mut Vec<Collected>,
    now: Moment,
    index: Option<usize>,
    piece: &[u8],
) -> Result<(), Starved>
    requires { (test : LiveUpload → Bool) × (index ≡ position test uploads.old.items) }
    ensures ok { (test : LiveUpload → Bool)
        → index ≡ position test uploads.old.items
        → OnOk result (uploads.new.items
        ≡ changed_first test (with_block piece.now now.0) uploads.old.items) }
    ensures err { OnErr result (uploads.new.items ≡ uploads.old.items) }
    ensures capacity { vec_capacity uploads.new ≡ vec_capacity uploads.old }
{
    let Some(at) = index else {
        return Ok(());
    };
    uploads[at].go_on(now, piece)?;
    Ok(())
}

/// Stores a block that more follow, given the index of the upload of its peer and request key, if
/// that has not expired. `Starved` leaves everything unchanged.
#[tactic(auto, unfolding(crate::specs::Uploading::gone_on))]
fn take(
    uploads: &mut Vec<Collected>,
    now: Moment,
    peer: Peer,
    key: &Key,
    index: Option<usize>,
    block: &Block,
    piece: &[u8],
) -> Result<(), Starved>
    requires room { length (other_uploads now.0 (peer, key.now) uploads.old.items)
        < vec_capacity uploads.old }
    requires index { index ≡ position (is_live_as now.0 (peer, key.now)) uploads.old.items }
    ensures ok { OnOk result
        (uploads.new.items ≡ taken block.now now.0 (peer, key.now) piece.now uploads.old.items) }
    ensures err { OnErr result (uploads.new.items ≡ uploads.old.items) }
    ensures capacity { vec_capacity uploads.new ≡ vec_capacity uploads.old }
{
    if block.num == 0 {
        return begin(uploads, now, peer, key, piece);
    }
    go_on(uploads, now, index, piece)
}

/// Returns the answer to a block, given the stored octets of its upload. The last block is joined
/// to them.
#[tactic(auto, unfolding(crate::specs::BlockAnswers::answer_to))]
fn judge(
    uploads: &Vec<Collected>,
    alloc: Global,
    now: Moment,
    block: &Block,
    piece: &[u8],
    body: Option<&[u8]>,
) -> Upload
    ensures { result ≢ Upload.Starved
        → result
        ≡ answer_to block.now piece.now (option_map (λ s. s.now) body.entry)
        (length (young_uploads now.0 uploads.now.items)) }
{
    let Some(octets) = collected(body, block) else {
        return Upload::OutOfOrder;
    };
    if octets.len() + piece.len() > MAX_BODY {
        return Upload::TooLarge;
    }
    if is_one_too_many(uploads, now, block, body) {
        return Upload::FullUploads;
    }
    if block.more {
        return Upload::More;
    }
    match joined(alloc, octets, piece) {
        Ok(whole) => Upload::Whole(whole),
        Err(_) => Upload::Starved,
    }
}

/// Adds a block to an upload. `More` means that it was stored and more follow. Any other answer
/// leaves everything unchanged.
#[tactic(auto, unfolding(crate::specs::Uploading::live_body))]
pub(crate) fn upload(
    uploads: &mut Vec<Collected>,
    alloc: Global,
    now: Moment,
    peer: Peer,
    key: &Key,
    block: &Block,
    piece: &[u8],
) -> Upload
    requires room { max_uploads ≤ vec_capacity uploads.old }
    requires few { vec_len uploads.old ≤ max_uploads }
    ensures answer { result ≢ Upload.Starved
        → result
        ≡ answer_to block.now piece.now (live_body now.0 (peer, key.now) uploads.old.items)
        (length (young_uploads now.0 uploads.old.items)) }
    ensures more { result ≡ Upload.More
        → uploads.new.items ≡ taken block.now now.0 (peer, key.now) piece.now uploads.old.items }
    ensures other { result ≢ Upload.More → uploads.new.items ≡ uploads.old.items }
    ensures few { vec_len uploads.new ≤ max_uploads }
    ensures capacity { vec_capacity uploads.new ≡ vec_capacity uploads.old }
{
    let index = live_index(uploads, now, peer, key);
    let body = body_at(uploads, index);
    let answer = judge(uploads, alloc, now, block, piece, body);
    let Upload::More = answer else {
        return answer;
    };
    match take(uploads, now, peer, key, index, block, piece) {
        Ok(()) => Upload::More,
        Err(_) => Upload::Starved,
    }
}
