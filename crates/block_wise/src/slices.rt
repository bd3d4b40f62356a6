//! Blocks of a body.

ghost use Rattle.std.specs.Prelude.{◌≡◌, ◌≤◌, ◌<◌, IfSome};
ghost use Rattle.std.specs.Option.{option_map};
ghost use Rattle.message_model.specs.Blocks as blocks;

/// Returns the size of a block with this exponent, in octets (RFC 7959 section 2.2).
///
/// # Requires
///
/// The exponent is below 7, which is reserved.
pub fn block_size(szx: u8) -> usize
    requires { szx < blocks.reserved_szx }
    ensures value { result ≡ blocks.block_size szx }
    ensures most { result ≤ 1024 }
{
    1usize << (szx + 4)
}

/// Returns the block with this number, and whether more follow (RFC 7959 section 2.2).
#[tactic(auto, unfolding(message_model::specs::Blocks::block_of))]
fn block_of(body: &[u8], num: u32, szx: u8) -> Option<(&[u8], bool)>
    requires { szx < blocks.reserved_szx }
    ensures { option_map (λ x. (x.0.now, x.1)) result ≡ blocks.block_of body.now num szx }
{
    let size = block_size(szx);
    let start = num as usize * size;
    if num > 0 && body.len() <= start {
        return None;
    }
    let rest = &body[start..];
    if size < rest.len() {
        return Some((&rest[..size], true));
    }
    Some((rest, false))
}

/// Returns the block of a body with this number and size exponent, and whether more follow (RFC
/// 7959 section 2.2).
///
/// Returns `None` if the number is above 0 and the block would begin at the end of the body or
/// after it. Every body has a block of number 0, the empty body too.
///
/// # Requires
///
/// The exponent is below 7, which is reserved.
pub fn slice_of(body: &[u8], num: u32, szx: u8) -> Option<(&[u8], bool)>
    requires { szx < blocks.reserved_szx }
    ensures block { option_map (λ x. (x.0.now, x.1)) result ≡ blocks.block_of body.now num szx }
    ensures piece { IfSome result
        (λ x. blocks.IsPiece body.now num (blocks.block_size szx) x.0.now x.1) }
{
    block_of(body, num, szx)
}
