//! The memory that a pass over the data works in.
ghost use Rattle.std.specs.Borrow.{Array, Lends, sem, u8 as byte};
ghost use Rattle.std.specs.Prelude.{◌≡◌, ◌↔◌, length, vec_capacity, IfOk, IsTrue};
ghost use Rattle.verity_plan.specs.PlanCounts.{store_length_of};
ghost use Rattle.verity_pass.specs.contracts.store.Store.{the_row};

use std::alloc::{AllocError, Global};
use std::marker::Model;
use verity_plan::Plan;

/// The memory of a pass over the data: an open block for each level, a data block, and a hash block to compare with.
/// Contracts see its length in bytes, and for how many bytes it has memory.
#[derive(Drop)]
pub struct Store {
    bytes: Vec<u8>,
}

impl Model for Store {
    ghost use Rattle.std.specs.Prelude.{length, vec_capacity};
    ghost use Rattle.verity_pass.specs.Stores.{StoreFields};

    ghost Value = { StoreFields };

    ghost view = { λ store. record { length = length store.bytes.items; room = vec_capacity store.bytes } };
}

impl Store {
    /// A store for a plan, with memory for just its length. The error is out of memory.
    pub fn new(alloc: Global, plan: &Plan) -> Result<Store, AllocError>
        ensures length { IfOk result (λ store. store.length ≡ store_length_of plan.now) }
        ensures room { IfOk result (λ store. store.room ≡ store_length_of plan.now) }
    {
        let length = plan.store_length();
        let mut bytes = Vec::with_capacity(alloc, length)?;
        while bytes.len() < length {
            bytes.push_reserved(0);
        }
        Ok(Store { bytes })
    }

    /// Whether the store has the length that a plan wants.
    pub fn fits(&self, plan: &Plan) -> bool
        ensures { IsTrue result ↔ (self.now.length ≡ store_length_of plan.now) }
    {
        self.bytes.len() == plan.store_length()
    }

    /// Lends its bytes. Through them it can't be made to grow.
    pub(crate) fn lend(&mut self) -> &mut [u8]
        ensures* kept { sem 𝓛 (Lends the_row (Array byte 0) self.entry result (λ _. self.old)) }
        ensures len { length result.now ≡ self.old.length }
    {
        &mut self.bytes
    }
}
