/// No block is deeper than this, whatever loops stand round it.
pub const DEPTH_LIMIT: u32 = 6;
