//! The gap ack blocks of a SACK in order.

ghost use Rattle.std.specs.Prelude.{◌≡◌, ◌≤◌, ◌+◌, ◌↔◌, [], ◌∷◌, ◌++◌, IfOk, OnOk, IsTrue};
ghost use Rattle.std.specs.List.{filter, All};
ghost use Rattle.std.specs.List.Sorted.{IsNonDecreasingBy};
ghost use Rattle.dcsctp_wire.specs.CleanBlocks.{blocks_of_bytes, is_range, IsRange, BeginsBefore, AddsGapBlock, AreJoined, AreCleaned};

use super::{GapAckBlock, SackChunk};
use std::alloc::{AllocError, Global};

// Does it name a TSN, and only TSNs after the cumulative one?
fn is_range(block: GapAckBlock) -> bool
    ensures { result ≡ is_range block }
{
    1 <= block.start && block.start <= block.end
}

// Adds the block, if it is a range.
fn add_range(blocks: &mut Vec<GapAckBlock>, block: GapAckBlock) -> Result<(), AllocError>
    ensures { OnOk result (blocks.new.items ≡ blocks.old.items ++ filter is_range (block ∷ [])) }
{
    if is_range(block) {
        blocks.push(block)?;
    }
    Ok(())
}

// The blocks that are ranges, as they come.
fn read_blocks(alloc: Global, sack: &SackChunk<'_>) -> Result<Vec<GapAckBlock>, AllocError>
    ensures { IfOk result
        (λ blocks. blocks.items ≡ filter is_range (blocks_of_bytes sack.now.gap_ack_blocks.now)) }
{
    let mut blocks = Vec::new(alloc);
    for index in 0..sack.gap_ack_block_count() {
        add_range(&mut blocks, sack.gap_ack_block(index))?;
    }
    Ok(blocks)
}

// Of two blocks, of which the second doesn't begin before the first: do their TSNs follow one another without a gap?
fn touches(first: GapAckBlock, second: GapAckBlock) -> bool
    ensures { IsTrue result ↔ (second.start ≤ first.end + 1) }
{
    u32::from(second.start) <= u32::from(first.end) + 1
}

// Adds a block to these, of which `current` is the last and doesn't begin after it. Returns the block that is
// last then.
fn add_block(
    joined: &mut Vec<GapAckBlock>,
    current: GapAckBlock,
    block: GapAckBlock,
) -> Result<GapAckBlock, AllocError>
    requires { BeginsBefore current block }
    ensures added { IfOk result
        (λ last. AddsGapBlock (joined.old.items ++ current ∷ []) block
        (joined.new.items ++ last ∷ [])) }
    ensures range { IfOk result IsRange }
    ensures start { IfOk result (λ last. last.start ≤ block.start) }
{
    if touches(current, block) {
        return Ok(GapAckBlock {
            start: current.start,
            end: current.end.max(block.end),
        });
    }
    joined.push(current)?;
    Ok(block)
}

// Joins the blocks that touch, if they ascend.
fn join_blocks(alloc: Global, ascending: &[GapAckBlock]) -> Result<Vec<GapAckBlock>, AllocError>
    requires ranges { All IsRange ascending.now }
    requires ascending { IsNonDecreasingBy (λ block. block.start) ascending.now }
    ensures { IfOk result (λ blocks. AreJoined ascending.now blocks.items) }
{
    let mut joined = Vec::new(alloc);
    let Some((first, rest)) = ascending.split_first() else {
        return Ok(joined);
    };
    let mut current = *first;
    for block in rest {
        current = add_block(&mut joined, current, *block)?;
    }
    joined.push(current)?;
    Ok(joined)
}

/// The gap ack blocks of a SACK in ascending order, whatever their order in the chunk (RFC 9260, section
/// 3.3.4). Between two of them at least one TSN is missing.
///
/// A block that begins at 0, or ends before it begins, is left out. For a SACK without blocks nothing is
/// allocated.
pub fn clean_sack(alloc: Global, sack: &SackChunk<'_>) -> Result<Vec<GapAckBlock>, AllocError>
    ensures { IfOk result
        (λ blocks. AreCleaned (blocks_of_bytes sack.now.gap_ack_blocks.now) blocks.items) }
{
    let mut blocks = read_blocks(alloc, sack)?;
    blocks.sort_unstable_by_key(|block: &GapAckBlock| block.start);
    join_blocks(alloc, &blocks)
}
