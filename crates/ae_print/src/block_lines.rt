//! The lines of blocks.
ghost use Rattle.std.specs.Prelude.{◌≡◌};
ghost use Rattle.ae_nums.specs.Writer.{Puts};
ghost use Rattle.flow_tree.specs.Depth.{depths_of};
ghost use Rattle.ae_print.specs.GraphText.{block_line, block_lines};

use crate::pieces::{push_number, push_word};
use ae_nums::{LineWriter, Text};
use ae_ports::{Failed, Sink};
use flow_graph::{Block, Graph};

/// The line of a block.
fn line_of_block(depth: u32, block: &Block) -> Text
    ensures { result ≡ block_line depth block.now }
{
    let mut line = Text::new();
    push_word(&mut line, b"block ", block.leader);
    push_word(&mut line, b" ", block.last);
    push_number(&mut line, b" depth ", depth as u64);
    line.push(b"\n");
    line
}

/// Writes the lines of the blocks, whose depths these are.
pub fn write_blocks<K: Sink>(
    graph: &Graph,
    depths: &[u32],
    lines: &mut LineWriter<'_, K>,
) -> Result<(), Failed>
    requires { depths.now ≡ depths_of graph.now }
    ensures { Puts K.told K.faults K.same_rest lines.old lines.new (block_lines graph.now) result }
{
    for (number, block) in graph.blocks().iter().enumerate() {
        lines.write(line_of_block(depths[number], block).bytes())?;
    }
    Ok(())
}
