//! Where loops begin and end.
ghost use Rattle.std.specs.Prelude.{◌≡◌, count_by, nat_le, nat_lt};
ghost use Rattle.std.specs.List.Sorted.{IsNonDecreasing};

use std::alloc::{AllocError, Global};
use std::collections::BTreeMap;

/// The first and the last addresses of loops, each in order.
#[derive(Drop)]
pub struct Spans {
    pub heads: Vec<u32>,
    pub ends: Vec<u32>,
}

impl Spans {
    ghost use Rattle.std.specs.Prelude.{◌+◌, IfOk};
    ghost use Rattle.std.specs.List.Sorted.{IsPermutation};
    ghost use Rattle.std.specs.BTreeMap.{IsOrdered, keys, values};
    ghost use Rattle.std.specs.Ordering.{nat_cmp};
    ghost use Rattle.flow_tree.specs.Inner.Spans.{SpansAreInOrder, begun_by, ended_before};

    /// The spans from each key of the map to its value.
    pub fn from_sources(alloc: Global, sources: &BTreeMap<u32, u32>) -> Result<Self, AllocError>
        ensures heads { IfOk result (λ spans. spans.heads.items ≡ keys sources.now) }
        ensures ends { IfOk result (λ spans. IsPermutation (values sources.now) spans.ends.items) }
        ensures rise { IsOrdered nat_cmp sources.now }
        ensures order { IfOk result (λ spans. IsNonDecreasing spans.ends.items) }
    {
        let heads: Vec<u32> = sources.keys().copied().collect(alloc)?;
        let mut ends: Vec<u32> = sources.values().copied().collect(alloc)?;
        ends.sort()?;
        Ok(Spans { heads, ends })
    }

    /// How many spans the address lies in.
    pub fn count_at(&self, address: u32) -> usize
        requires { SpansAreInOrder self.now }
        ensures { ended_before self.now address + result ≡ begun_by self.now address }
    {
        begun_by(&self.heads, address) - ended_before(&self.ends, address)
    }
}

/// How many of the addresses, which are in order, are at the address or before it.
fn begun_by(heads: &[u32], address: u32) -> usize
    requires { IsNonDecreasing heads.now }
    ensures { result ≡ count_by (λ head. nat_le head address) heads.now }
{
    heads.partition_point(|head| *head <= address)
}

/// How many of the addresses, which are in order, are before the address.
fn ended_before(ends: &[u32], address: u32) -> usize
    requires { IsNonDecreasing ends.now }
    ensures { result ≡ count_by (λ end. nat_lt end address) ends.now }
{
    ends.partition_point(|end| *end < address)
}
