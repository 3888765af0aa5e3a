//! Sets of numbers, kept in their order.
//!
//! A `Numbers` is a search tree of blocks of numbers that its users see as a finite map from its numbers to nothing,
//! and beside it the number of new numbers that it still has room for. To put a number in or to take one out costs the
//! logarithm of how many there are.
//!
//! A set has at least a node for each 24 of the numbers that it has and has room for, and one more, whatever the order
//! in which they come and go: room that a number leaves serves any other one. Where no node waits, blocks that stand
//! side by side are packed together, which gives back a quarter of the nodes.
ghost use Rattle.std.specs.Prelude.{◌≡◌, ℕ, ◌+◌, ◌*◌, ◌^◌, ◌<◌, ◌≤◌, ◌⊎◌, IsOk, IsSome, IfOk, IfSome, OnOk, OnErr, MatchOption};
ghost use Rattle.std.specs.FinMap as map;
ghost use Rattle.std.specs.Vec.{vec_capacity, vec_len};
ghost use Rattle.tsn_table.specs.Tree.{HasRoom, share};

use crate::packing::{pack, put_packed};
use crate::tree::{Node, Tree, copy_in, fill_pool, first_in, take_from};
use std::alloc::{AllocError, Global};
use std::marker::Model;

/// A set of numbers. `map` has the numbers as its keys, and `spare` is how many new numbers can come in with no more
/// memory.
#[derive(Debug)]
pub struct Numbers {
    tree: Tree,
    // nodes that wait, with a place for each node of the tree
    pool: Vec<Box<Node>>,
    // how many new numbers were promised room, and how many have room whenever numbers go
    room: usize,
    kept: usize,
    // how many numbers there are, and how many nodes in the tree and in the pool
    count: usize,
    nodes: usize,
}

impl Model for Numbers {
    ghost use base.Stored.{coded_unit};
    ghost use Rattle.std.specs.Vec.{vec_capacity, vec_len};
    ghost use Rattle.tsn_table.specs.View.{TableView, table_code};

    ghost Value = { TableView (Unit {0}) };

    ghost coded = { table_code coded_unit };

    ghost use Rattle.tsn_table.specs.Kept.{IsKept};
    ghost use Rattle.tsn_table.specs.Rising.{map_of};
    ghost use Rattle.tsn_table.specs.Tree.{numbers_of};

    ghost view = { λ a. record { map = map_of (numbers_of a.tree); spare = a.room } };

    ghost invariant = { λ a. IsKept a.tree (vec_len a.pool) (vec_capacity a.pool) a.room a.count a.nodes };
}

// Written out, so that a proof of what holds a set does not go by whether its tree is empty.
impl Drop for Numbers {
    fn drop(self) {
        let Numbers {
            tree: _,
            pool: _,
            room: _,
            kept: _,
            count: _,
            nodes: _,
        } = self;
    }
}

// How many numbers a set counts on for each of its nodes but one.
const SHARE: usize = 24;

// For how many new numbers so many nodes are enough, beside the numbers that are there.
fn room_of(nodes: usize, count: usize) -> usize
    ensures { 0 < result → HasRoom result count nodes }
{
    nodes
        .saturating_sub(1)
        .saturating_mul(SHARE)
        .saturating_sub(count)
}

// How many nodes are enough for so many new numbers beside those that are there, none where they can't be counted.
fn nodes_for(room: usize, count: usize) -> Option<usize>
    ensures { IfSome result (HasRoom room count) }
{
    let numbers = room.checked_add(count)?;
    Some(numbers / SHARE + 2)
}

// How many nodes a copy has of a set whose tree has so many, and that has so many numbers: no more than these want.
fn nodes_of_copy(nodes: usize, count: usize) -> usize
    ensures no_fewer { nodes ≤ result }
    ensures enough { HasRoom 0 count result }
{
    if count == 0 {
        return nodes;
    }
    nodes.max(count / SHARE + 2)
}

impl Numbers {
    /// The set of no number. It takes no memory and has room for none.
    pub fn new(alloc: Global) -> Self
        ensures map { result.map ≡ map.empty }
        ensures spare { result.spare ≡ 0 }
    {
        Numbers {
            tree: Tree::Empty,
            pool: Vec::new(alloc),
            room: 0,
            kept: 0,
            count: 0,
            nodes: 0,
        }
    }

    /// The least number that is `from` or more, none where there is none.
    pub fn first_from(&self, from: u64) -> Option<u64>
        ensures there { IfSome result (λ id. (from ≤ id) × IsSome (map.get self.now.map id)) }
        ensures least { (id : ℕ) → from ≤ id → IsSome (map.get self.now.map id) → MatchOption result ⊥ (λ least. least ≤ id) }
    {
        first_in(&self.tree, from, None)
    }

    /// Makes room for at least `count` new numbers. It is refused only for want of memory, and never where there is
    /// that room already; refused, it leaves the set as it was.
    pub fn reserve(&mut self, count: usize) -> Result<(), AllocError>
        ensures map { self.new.map ≡ self.old.map }
        ensures ok { OnOk result (count ≤ self.new.spare) }
        ensures err { OnErr result (self.new.spare ≡ self.old.spare) }
        ensures spare { self.old.spare ≤ self.new.spare }
        ensures enough { count ≤ self.old.spare → IsOk result }
    {
        if count <= self.room && count < self.kept / 2 {
            return Ok(());
        }
        self.kept = self.kept.max(count.saturating_mul(2).saturating_add(2));
        if self.room < count {
            if room_of(self.nodes, self.count) < count {
                let Some(nodes) = nodes_for(count, self.count) else {
                    return Err(AllocError);
                };
                let waiting = self.pool.len();
                let filled = fill_pool(&mut self.pool, self.nodes, nodes, count);
                self.nodes += self.pool.len() - waiting;
                filled?;
            }
            self.room = count;
        }
        Ok(())
    }

    /// Puts a number in. A new number needs room and takes room for one; a number that is there takes none. It takes no
    /// memory.
    #[tactic(auto, using(crate::proofs::Rising::put_is, crate::proofs::Rising::rising_put_is, crate::proofs::Rising::put_nothing))]
    pub fn put(&mut self, id: u64)
        requires { IsSome (map.get self.old.map id) ⊎ (1 ≤ self.old.spare) }
        ensures map { self.new.map ≡ map.insert self.old.map id tt }
        ensures room { self.old.spare ≤ self.new.spare + 1 }
    {
        // with no room the number is there
        if self.room == 0 {
            return;
        }
        let mut came = false;
        put_packed(&mut self.tree, id, &mut self.pool, self.nodes, &mut came);
        if came {
            self.count += 1;
            self.room -= 1;
        }
    }

    /// Takes a number out, if it is there. It leaves room for one, whichever that is.
    #[tactic(auto, using(crate::proofs::Rising::without_is, crate::proofs::Rising::rising_without_is, crate::proofs::Levels::low))]
    pub fn take(&mut self, id: u64)
        ensures map { self.new.map ≡ map.remove self.old.map id }
        ensures room { self.old.spare ≤ self.new.spare }
        ensures back { IsSome (map.get self.old.map id) → 1 ≤ self.new.spare }
    {
        let mut gone = false;
        take_from(&mut self.tree, id, &mut self.pool, &mut gone);
        if gone {
            self.count -= 1;
            self.room = self.room.max(1);
            self.let_go();
        }
    }

    // Lets a node go where the others are enough for the room that is kept. Where no node waits, and half of them would
    // be enough, the tree is packed, so that later ones can go.
    fn let_go(&mut self)
        ensures map { self.new.map ≡ self.old.map }
        ensures spare { self.new.spare ≡ self.old.spare }
    {
        let kept = self.room.max(self.kept);
        if self.pool.is_empty() {
            if kept < room_of(self.nodes / 2, self.count) {
                pack(&mut self.tree, &mut self.pool, self.nodes);
            }
        } else if kept < room_of(self.nodes - 1, self.count) {
            self.pool.pop();
            self.nodes -= 1;
        }
    }

    /// A set of the same numbers that has room for no new one. Refused only for want of memory.
    pub fn copy(&self) -> Result<Numbers, AllocError>
        ensures map { IfOk result (λ copy. copy.map ≡ self.now.map) }
        ensures spare { IfOk result (λ copy. copy.spare ≡ 0) }
    {
        let alloc = *self.pool.allocator();
        let tree = copy_in(&self.tree, alloc)?;
        let nodes = self.nodes - self.pool.len();
        let wanted = nodes_of_copy(nodes, self.count);
        let mut pool = Vec::with_capacity(alloc, wanted)?;
        fill_pool(&mut pool, nodes, wanted, 0)?;
        Ok(Numbers {
            tree,
            nodes: nodes + pool.len(),
            pool,
            room: 0,
            kept: 0,
            count: self.count,
        })
    }
}
