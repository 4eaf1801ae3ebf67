//! A few addresses in fixed room.
ghost use Rattle.std.specs.Prelude.{◌≡◌, [], length, nat_eq};
ghost use Rattle.std.specs.Set.{is_member};
ghost use Rattle.flow_tree.specs.Inner.Heads.{with_head};

use crate::DEPTH_LIMIT;
use std::marker::Model;

const ROOM: usize = DEPTH_LIMIT as usize;

/// At most as many addresses as a block can be deep, in the order in which they came.
#[derive(Drop)]
pub struct Heads {
    addresses: [u32; ROOM],
    count: usize,
}

impl Model for Heads {
    ghost use Rattle.std.specs.Prelude.{ℕ, ◌≤◌, List, take};

    ghost Value = { List ℕ };

    ghost view = { λ heads. take heads.count heads.addresses };

    ghost invariant = { λ heads. heads.count ≤ 6 };
}

impl Heads {
    pub fn new() -> Self
        ensures { result ≡ [] }
    {
        Heads {
            addresses: [0; ROOM],
            count: 0,
        }
    }

    pub fn len(&self) -> u32
        ensures { result ≡ length self.now }
    {
        self.count as u32
    }

    fn contains(&self, address: u32) -> bool
        ensures { result ≡ is_member nat_eq self.now address }
    {
        self.addresses[..self.count]
            .iter()
            .any(|head| address == *head)
    }

    /// Adds the address, unless it is there or the room is full.
    pub fn add(&mut self, address: u32)
        ensures { self.new ≡ with_head self.old address }
    {
        if !self.contains(address) && self.count < ROOM {
            self.addresses[self.count] = address;
            self.count += 1;
        }
    }
}
