//! Numbers and blocks as the values of options, and the blocks of a body.

use block_wise::{Block, block_read, block_size, block_write, slice_of, uint_of, uint_write};
use message_model::MAX_SZX;
use vector_words::Line;

/// The greatest number of a block (RFC 7959 section 2.2).
const LAST_BLOCK: u64 = 1_048_575;

/// The greatest number of three octets.
const LAST_NUMBER: u64 = 16_777_215;

/// Answers `uint HEX`: the number of a value.
pub(crate) fn uint(line: &mut Line<'_>) {
    let value = line.datagram(line.said);
    if value.len() <= 3 {
        line.put_number(u64::from(uint_of(value.as_slice())));
    } else {
        line.refuse();
    }
}

/// Answers `uint_octets NUMBER`: the value of a number.
pub(crate) fn uint_octets(line: &mut Line<'_>) {
    let mut octets = [0u8; 3];
    let size = uint_write(line.number(LAST_NUMBER) as u32, &mut octets);
    line.put_datagram(&octets[..size]);
}

/// Writes the number of the block in a value, whether more follow, and its exponent.
fn put_block(line: &mut Line<'_>, block: &Block) {
    line.put_number(u64::from(block.num));
    line.put(if block.more { " more " } else { " last " });
    line.put_number(u64::from(block.szx));
}

/// Answers `block HEX`: the number of the block in a value, whether more follow, and its exponent.
pub(crate) fn block(line: &mut Line<'_>) {
    let value = line.datagram(line.said);
    if value.len() > 3 {
        line.refuse();
    } else if let Ok(block) = block_read(value.as_slice()) {
        put_block(line, &block);
    } else {
        line.put("reserved exponent");
    }
}

/// Answers `block_octets NUMBER more|last EXPONENT`: the value of a block.
pub(crate) fn block_octets(line: &mut Line<'_>) {
    let num = line.number(LAST_BLOCK) as u32;
    let more = line.word();
    if more != "more" && more != "last" {
        line.refuse();
    }
    let block = Block {
        num,
        more: more == "more",
        szx: line.number(u64::from(MAX_SZX)) as u8,
    };
    let mut octets = [0u8; 3];
    let size = block_write(&block, &mut octets);
    line.put_datagram(&octets[..size]);
}

/// Answers `block_size EXPONENT`: the length of a block in octets.
pub(crate) fn size(line: &mut Line<'_>) {
    let szx = line.number(u64::from(MAX_SZX)) as u8;
    line.put_number(block_size(szx) as u64);
}

/// Answers `slice NUMBER EXPONENT BODY`: the block of a body, and whether more follow.
pub(crate) fn slice(line: &mut Line<'_>) {
    let num = line.number(LAST_BLOCK) as u32;
    let szx = line.number(u64::from(MAX_SZX)) as u8;
    let body = line.octets(line.said);
    match slice_of(body.as_slice(), num, szx) {
        Some((piece, more)) => {
            line.put(if more { "more " } else { "last " });
            line.put_octets(piece);
        }
        None => line.put("none"),
    }
}
