//! A tree packed into few nodes.
//!
//! The nodes of the tree are put in a vine, a tree with no left sides, from the right, and where the numbers of one go
//! into the block of the next, they do, and a node goes to the pool. Then the vine is made a tree again whose sides are
//! as high as each other, or differ by one. All nodes are touched once, and no memory is taken.
ghost use Rattle.std.specs.Prelude.{◌≡◌, ◌+◌, ◌*◌, ◌<◌, ◌≤◌, ◌++◌, length};
ghost use Rattle.std.specs.Vec.{vec_capacity, vec_len};
ghost use Rattle.tsn_table.specs.Blocks.{numbers_in, one_if};
ghost use Rattle.tsn_table.specs.Levels.{height_of, Differs, IsHeightFor, IsLevel};
ghost use Rattle.tsn_table.specs.Rising.{IsRising, put_number};
ghost use Rattle.tsn_table.specs.Tree.{nodes_below, nodes_of, numbers_below, numbers_of, share, IsPacked, IsVine};

use crate::tree::{Node, Tree, put_in};
use std::mem;

/// Packs the blocks of a tree, which has so many nodes with those of the pool. Where it has fewer than 24 numbers for
/// each of its nodes but one, a quarter of them at least goes to the pool.
pub(crate) fn pack(tree: &mut Tree, pool: &mut Vec<Box<Node>>, nodes: usize)
    requires nodes { nodes ≡ nodes_of tree.old + vec_len pool.old }
    requires place { nodes ≤ vec_capacity pool.old }
    ensures numbers { numbers_of tree.new ≡ numbers_of tree.old }
    ensures nodes { nodes_of tree.new + vec_len pool.new ≡ nodes_of tree.old + vec_len pool.old }
    ensures capacity { vec_capacity pool.new ≡ vec_capacity pool.old }
    ensures level { IsLevel tree.new }
    ensures quarter { length (numbers_of tree.old) + share < share * nodes_of tree.old
        → nodes_of tree.old + 4 * vec_len pool.old ≤ 4 * vec_len pool.new }
{
    let mut vine = vine_of(mem::replace(tree, Tree::Empty), Tree::Empty, pool);
    *tree = raised(&mut vine, nodes - pool.len());
}

/// Puts a number into a tree, and says whether it came in. The tree is packed first where no node waits.
#[tactic(auto, using(crate::proofs::Levels::low))]
pub(crate) fn put_packed(
    tree: &mut Tree,
    id: u64,
    pool: &mut Vec<Box<Node>>,
    nodes: usize,
    came: &mut bool,
)
    requires rising { IsRising (numbers_of tree.old) }
    requires level { IsLevel tree.old }
    requires nodes { nodes ≡ nodes_of tree.old + vec_len pool.old }
    requires place { nodes ≤ vec_capacity pool.old }
    requires few { length (numbers_of tree.old) + share < share * nodes }
    ensures level { IsLevel tree.new }
    ensures numbers { numbers_of tree.new ≡ put_number id (numbers_of tree.old) }
    ensures longer { length (numbers_of tree.new) ≡ length (numbers_of tree.old) + one_if came.new }
    ensures nodes { nodes ≡ nodes_of tree.new + vec_len pool.new }
    ensures capacity { vec_capacity pool.new ≡ vec_capacity pool.old }
{
    if pool.is_empty() {
        pack(tree, pool, nodes);
    }
    put_in(tree, id, pool, came);
}

// The nodes of a tree in a vine, before another vine.
fn vine_of(tree: Tree, behind: Tree, pool: &mut Vec<Box<Node>>) -> Tree
    requires vine { IsVine behind }
    requires packed { IsPacked behind }
    requires place { nodes_of tree + nodes_of behind + vec_len pool.old ≤ vec_capacity pool.old }
    ensures vine { IsVine result }
    ensures packed { IsPacked result }
    ensures numbers { numbers_of result ≡ numbers_of tree ++ numbers_of behind }
    ensures nodes { nodes_of result + vec_len pool.new ≡ nodes_of tree + nodes_of behind + vec_len pool.old }
    ensures capacity { vec_capacity pool.new ≡ vec_capacity pool.old }
{
    match tree {
        Tree::Empty => behind,
        Tree::Fork(mut node) => {
            let left = mem::replace(&mut node.left, Tree::Empty);
            let right = mem::replace(&mut node.right, Tree::Empty);
            let behind = vine_of(right, behind, pool);
            let vine = before(node, behind, pool);
            vine_of(left, vine, pool)
        }
    }
}

// A node that has no sides before a vine, where the block of the vine's first node goes into its own one if it can.
fn before(mut node: Box<Node>, behind: Tree, pool: &mut Vec<Box<Node>>) -> Tree
    requires left { nodes_of node.value.left ≡ 0 }
    requires right { nodes_of node.value.right ≡ 0 }
    requires vine { IsVine behind }
    requires packed { IsPacked behind }
    requires place { nodes_of behind + vec_len pool.old < vec_capacity pool.old }
    ensures vine { IsVine result }
    ensures packed { IsPacked result }
    ensures numbers { numbers_of result ≡ numbers_in node.value.block ++ numbers_of behind }
    ensures nodes { nodes_of result + vec_len pool.new ≡ nodes_of behind + 1 + vec_len pool.old }
    ensures capacity { vec_capacity pool.new ≡ vec_capacity pool.old }
{
    node.left = Tree::Empty;
    match behind {
        Tree::Fork(mut next) if node.block.has_place_for(&next.block) => {
            node.block.append(&next.block);
            node.right = mem::replace(&mut next.right, Tree::Empty);
            pool.push_reserved(next);
        }
        vine => node.right = vine,
    }
    Tree::Fork(node)
}

// The level tree of so many nodes, the first ones of a vine.
#[tactic(auto, using(crate::proofs::Levels::joined))]
fn raised(vine: &mut Tree, count: usize) -> Tree
    requires vine { IsVine vine.old }
    requires enough { count ≤ nodes_of vine.old }
    ensures vine { IsVine vine.new }
    ensures numbers { numbers_of vine.old ≡ numbers_of result ++ numbers_of vine.new }
    ensures count { nodes_of result ≡ count }
    ensures nodes { nodes_of vine.old ≡ count + nodes_of vine.new }
    ensures level { IsLevel result }
    ensures height { IsHeightFor count (height_of result) }
{
    if count == 0 {
        return Tree::Empty;
    }
    let half = count / 2;
    let left = raised(vine, half);
    let Tree::Fork(mut node) = mem::replace(vine, Tree::Empty) else {
        unreachable!();
    };
    *vine = mem::replace(&mut node.right, Tree::Empty);
    let right = raised(vine, count - half - 1);
    Tree::Fork(between(node, left, right))
}

// The node between two sides that are level and differ by one at most.
fn between(mut node: Box<Node>, left: Tree, right: Tree) -> Box<Node>
    requires level { IsLevel left × IsLevel right }
    requires low { (height_of left < 240) × (height_of right < 240) }
    requires near { (height_of left ≤ height_of right + 1) × (height_of right ≤ height_of left + 1) }
    ensures level { Differs 1 result.value }
    ensures sides { (result.value.left ≡ left) × (result.value.right ≡ right) × (result.value.block ≡ node.value.block) }
{
    node.left_height = left.height();
    node.right_height = right.height();
    node.left = left;
    node.right = right;
    node
}
