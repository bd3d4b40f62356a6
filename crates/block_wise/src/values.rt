//! The values of Block options.

ghost use Rattle.std.specs.Prelude.{◌≡◌, ◌≤◌, ◌<◌, length, take, Some, None, IfOk, OnErr};
ghost use Rattle.message_model.specs.Numbers as numbers;
ghost use Rattle.message_model.specs.Blocks as blocks;

use crate::uint_values::{put_uint, uint_of};
use message_model::Block;

/// The error of a value with the size exponent 7, which is reserved (RFC 7959 section 2.2).
#[derive(Clone, Copy, Debug, PartialEq, Eq)]
pub struct Szx7;

/// Returns the block that the value of a Block option encodes (RFC 7959 section 2.2).
///
/// The value has 20 bits of number, one that says whether more follow, and three of size exponent.
///
/// # Requires
///
/// The value has at most three octets.
///
/// # Errors
///
/// `Szx7` if the exponent is the reserved 7.
#[tactic(auto, unfolding(message_model::specs::Blocks::block_read))]
pub fn block_read(value: &[u8]) -> Result<Block, Szx7>
    requires { length value.now ≤ 3 }
    ensures block { IfOk result (λ b. blocks.block_read value.now ≡ Some b) }
    ensures sound { IfOk result (λ b. blocks.IsBlock b) }
    ensures spelled { IfOk result
        (λ b. blocks.block_value b ≡ numbers.uint_bytes (numbers.uint_of value.now)) }
    ensures reserved { OnErr result (blocks.block_read value.now ≡ None) }
{
    let bits = uint_of(value);
    if bits % 8 == 7 {
        return Err(Szx7);
    }
    Ok(Block {
        num: bits / 16,
        more: bits / 8 % 2 == 1,
        szx: (bits % 8) as u8,
    })
}

/// Returns the bit that says whether more blocks follow (RFC 7959 section 2.2).
fn more_bit(more: bool) -> u32
    ensures value { result ≡ blocks.more_bit more }
    ensures few { result < 2 }
{
    if more { 1 } else { 0 }
}

/// Puts the value of a Block option that encodes this block, in the fewest octets, and returns how
/// many these are (RFC 7959 section 2.2).
///
/// [`block_read`] reads the block back.
///
/// # Requires
///
/// The number is below 2^20, and the exponent below the reserved 7.
#[tactic(auto, unfolding(message_model::specs::Blocks::block_value))]
pub fn block_write(block: &Block, into: &mut [u8; 3]) -> usize
    requires { blocks.IsBlock block.now }
    ensures few { result ≤ 3 }
    ensures value { take result into.new ≡ blocks.block_value block.now }
    ensures read_back { blocks.block_read (take result into.new) ≡ Some block.now }
{
    put_uint(
        into,
        block.num * 16 + more_bit(block.more) * 8 + u32::from(block.szx),
    )
}
