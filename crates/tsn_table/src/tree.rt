//! A search tree of blocks of numbers.
//!
//! What is promised of a tree is said of its numbers in their order, of how many nodes it has, and of its heights: each
//! node tells the heights of its sides, and they differ by one at most (Adelson-Velsky and Landis). So a way down is
//! short, and so is the row of calls that goes down it: a tree is at most twice as high as its nodes' count has digits
//! in base two, and one more (proofs/Levels.antt).
ghost use Rattle.std.specs.Prelude.{◌≡◌, ◌≢◌, max, ◌⊎◌, ◌+◌, ◌<◌, ◌≤◌, ◌++◌, ◌∷◌, [], false, true, IfNone, IfOk, MatchOption, OnOk, length};
ghost use Rattle.std.specs.Option.{option_or};
ghost use Rattle.std.specs.Vec.{vec_capacity, vec_len};
ghost use Rattle.tsn_table.specs.Blocks.{most_more, numbers_in, one_if};
ghost use Rattle.tsn_table.specs.Levels.{height_below, height_of, Differs, Falls, IsEven, IsLevel, MayDiffer, Rises, Turns};
ghost use Rattle.tsn_table.specs.Rising.{IsRising, first_from, put_number, without_number};
ghost use Rattle.tsn_table.specs.Sides.{Belongs};
ghost use Rattle.tsn_table.specs.Tree.{nodes_below, nodes_of, numbers_below, numbers_of};

use crate::block::{Block, Put, first_among};
use std::alloc::{AllocError, Global};
use std::mem;

/// A tree: its root, if it has one.
#[cycle(tree)]
#[derive(Debug, Drop)]
pub(crate) enum Tree {
    Empty,
    Fork(Box<Node>),
}

/// A block of numbers, with the lesser ones on its left and the greater ones on its right.
#[cycle(tree)]
#[derive(Debug, Drop)]
pub(crate) struct Node {
    pub(crate) block: Block,
    // how high the sides are
    pub(crate) left_height: u8,
    pub(crate) right_height: u8,
    pub(crate) left: Tree,
    pub(crate) right: Tree,
}

// Where a number belongs: on a side of a node's block, or in it.
enum Side {
    Left,
    Here,
    Right,
}

impl Tree {
    /// How high the tree is.
    pub(crate) fn height(&self) -> u8
        requires level { IsLevel self.now }
        requires low { height_of self.now < 240 }
        ensures { result ≡ height_of self.now }
    {
        match self {
            Tree::Empty => 0,
            Tree::Fork(node) => height_at(node),
        }
    }
}

// How high the tree of the node is.
#[inline]
fn height_at(node: &Node) -> u8
    requires left { node.now.left_height ≡ height_of node.now.left }
    requires right { node.now.right_height ≡ height_of node.now.right }
    requires low { height_below node.now < 252 }
    ensures { result ≡ height_below node.now }
{
    node.left_height.max(node.right_height) + 1
}

// A side is one higher than it was. It tells whether it is the higher side now.
#[inline]
fn rises(other: u8, side: &mut u8) -> bool
    requires { side.old < 250 }
    ensures height { side.new ≡ side.old + 1 }
    ensures higher { result ≡ true → other < side.new }
    ensures lower { result ≡ false → side.new ≤ other }
{
    *side += 1;
    *side > other
}

// A side is one lower than it was. It tells whether it was another height than the other side.
#[inline]
fn falls(other: u8, side: &mut u8) -> bool
    requires { 0 < side.old }
    ensures height { side.new + 1 ≡ side.old }
    ensures uneven { result ≡ true → side.old ≢ other }
    ensures even { result ≡ false → side.old ≡ other }
{
    let height = *side;
    *side = height - 1;
    height != other
}

// The node above its left side comes down on the right of that side's node, which takes the place above it.
fn turned_right(mut node: Box<Node>, mut left: Box<Node>) -> Box<Node>
    requires left { Differs 2 left.value }
    requires right { (node.value.right_height ≡ height_of node.value.right) × IsLevel node.value.right }
    requires near { (height_of left.value.right ≤ height_of node.value.right + 1)
        × (height_of node.value.right ≤ height_of left.value.right + 1) }
    requires low { (height_of left.value.right < 250) × (height_of node.value.right < 250) }
    ensures numbers { numbers_below result.value ≡ numbers_below left.value
        ++ (numbers_in node.value.block ++ numbers_of node.value.right) }
    ensures nodes { nodes_below result.value ≡ nodes_below left.value + nodes_of node.value.right + 1 }
    ensures left { (result.value.left ≡ left.value.left) × (result.value.left_height ≡ left.value.left_height) }
    ensures level { IsLevel result.value.right }
    ensures right { (result.value.right_height ≡ height_of result.value.right)
        × (height_of result.value.right ≡ max (height_of left.value.right) (height_of node.value.right) + 1) }
{
    node.left_height = left.right_height;
    node.left = mem::replace(&mut left.right, Tree::Empty);
    left.right_height = height_at(&node);
    left.right = Tree::Fork(node);
    left
}

// The node above its right side comes down on the left of that side's node, which takes the place above it.
fn turned_left(mut node: Box<Node>, mut right: Box<Node>) -> Box<Node>
    requires right { Differs 2 right.value }
    requires left { (node.value.left_height ≡ height_of node.value.left) × IsLevel node.value.left }
    requires near { (height_of right.value.left ≤ height_of node.value.left + 1)
        × (height_of node.value.left ≤ height_of right.value.left + 1) }
    requires low { (height_of right.value.left < 250) × (height_of node.value.left < 250) }
    ensures numbers { numbers_below result.value ≡ numbers_of node.value.left
        ++ (numbers_in node.value.block ++ numbers_below right.value) }
    ensures nodes { nodes_below result.value ≡ nodes_of node.value.left + nodes_below right.value + 1 }
    ensures right { (result.value.right ≡ right.value.right) × (result.value.right_height ≡ right.value.right_height) }
    ensures level { IsLevel result.value.left }
    ensures left { (result.value.left_height ≡ height_of result.value.left)
        × (height_of result.value.left ≡ max (height_of node.value.left) (height_of right.value.left) + 1) }
{
    node.right_height = right.left_height;
    node.right = mem::replace(&mut right.left, Tree::Empty);
    right.left_height = height_at(&node);
    right.left = Tree::Fork(node);
    right
}

// The same numbers, with a left side that is not the lower one.
fn leaning_left(mut node: Box<Node>) -> Box<Node>
    requires level { Differs 1 node.value }
    requires low { height_below node.value < 250 }
    ensures numbers { numbers_below result.value ≡ numbers_below node.value }
    ensures nodes { nodes_below result.value ≡ nodes_below node.value }
    ensures level { Differs 2 result.value }
    ensures leans { height_of result.value.right ≤ height_of result.value.left }
    ensures height { height_below result.value ≡ height_below node.value }
{
    if node.right_height <= node.left_height {
        return node;
    }
    match mem::replace(&mut node.right, Tree::Empty) {
        Tree::Empty => node,
        Tree::Fork(right) => turned_left(node, right),
    }
}

// The same numbers, with a right side that is not the lower one.
fn leaning_right(mut node: Box<Node>) -> Box<Node>
    requires level { Differs 1 node.value }
    requires low { height_below node.value < 250 }
    ensures numbers { numbers_below result.value ≡ numbers_below node.value }
    ensures nodes { nodes_below result.value ≡ nodes_below node.value }
    ensures level { Differs 2 result.value }
    ensures leans { height_of result.value.left ≤ height_of result.value.right }
    ensures height { height_below result.value ≡ height_below node.value }
{
    if node.left_height <= node.right_height {
        return node;
    }
    match mem::replace(&mut node.left, Tree::Empty) {
        Tree::Empty => node,
        Tree::Fork(left) => turned_right(node, left),
    }
}

// The same numbers where one side is too high for the other: the node of that side is above now.
fn turned(mut node: Box<Node>) -> Box<Node>
    requires level { Differs 2 node.value }
    requires apart { (node.value.left_height ≡ node.value.right_height + 2) ⊎ (node.value.right_height ≡ node.value.left_height + 2) }
    requires low { height_below node.value < 250 }
    ensures numbers { numbers_below result.value ≡ numbers_below node.value }
    ensures nodes { nodes_below result.value ≡ nodes_below node.value }
    ensures level { Differs 1 result.value }
    ensures even { height_of result.value.left ≡ height_of result.value.right → height_below result.value + 1 ≡ height_below node.value }
    ensures uneven { height_of result.value.left ≢ height_of result.value.right → height_below result.value ≡ height_below node.value }
{
    if node.left_height > node.right_height {
        match mem::replace(&mut node.left, Tree::Empty) {
            Tree::Empty => node,
            Tree::Fork(left) => turned_right(node, leaning_left(left)),
        }
    } else {
        match mem::replace(&mut node.right, Tree::Empty) {
            Tree::Empty => node,
            Tree::Fork(right) => turned_left(node, leaning_right(right)),
        }
    }
}

// Turns a tree of which one side is too high for the other, and tells whether both are as high as each other then.
#[inline(always)]
fn level(tree: &mut Tree) -> bool
    requires near { MayDiffer 2 tree.old }
    requires low { height_of tree.old < 250 }
    ensures numbers { numbers_of tree.new ≡ numbers_of tree.old }
    ensures nodes { nodes_of tree.new ≡ nodes_of tree.old }
    ensures level { IsLevel tree.new }
    ensures even { IsEven tree.old → (result ≡ true) × (height_of tree.new ≡ height_of tree.old) }
    ensures uneven { (IsEven tree.old → ⊥) → height_of tree.old ≡ height_of tree.new + one_if result }
{
    let Tree::Fork(node) = tree else {
        return true;
    };
    match node.left_height.abs_diff(node.right_height) {
        0 => true,
        1 => false,
        _ => turn(tree),
    }
}

// Turns the tree, and tells the same.
#[inline(never)]
fn turn(tree: &mut Tree) -> bool
    requires near { MayDiffer 2 tree.old }
    requires apart { Turns tree.old }
    requires low { height_of tree.old < 250 }
    ensures numbers { numbers_of tree.new ≡ numbers_of tree.old }
    ensures nodes { nodes_of tree.new ≡ nodes_of tree.old }
    ensures level { IsLevel tree.new }
    ensures even { IsEven tree.old → (result ≡ true) × (height_of tree.new ≡ height_of tree.old) }
    ensures uneven { (IsEven tree.old → ⊥) → height_of tree.old ≡ height_of tree.new + one_if result }
{
    match mem::replace(tree, Tree::Empty) {
        Tree::Empty => true,
        Tree::Fork(node) => {
            let node = turned(node);
            let level = node.left_height == node.right_height;
            *tree = Tree::Fork(node);
            level
        }
    }
}

/// The least number that is `from` or more, and else `above`.
pub(crate) fn first_in(mut tree: &Tree, from: u64, mut above: Option<u64>) -> Option<u64>
    requires rising { IsRising (numbers_of tree.now) }
    ensures { result ≡ option_or (first_from from (numbers_of tree.now)) above }
{
    // the numbers of the last block that begins below `from`
    let mut before: &[u64] = &[];
    while let Tree::Fork(node) = tree {
        if node.block.least() < from {
            before = node.block.more();
            tree = &node.right;
        } else {
            above = Some(node.block.least());
            tree = &node.left;
        }
    }
    first_among(before, from, above)
}

// On which side of the node's block a number belongs, unless it belongs in the block or that side is empty.
#[inline]
fn side_of(node: &Node, id: u64) -> Side
    requires rising { IsRising (numbers_below node.now) }
    ensures { Belongs id node.now result }
{
    if id < node.block.least() {
        match &node.left {
            Tree::Empty => Side::Here,
            Tree::Fork(_) => Side::Left,
        }
    } else if node.block.ends_below(id) {
        match &node.right {
            Tree::Empty => Side::Here,
            Tree::Fork(_) => Side::Right,
        }
    } else {
        Side::Here
    }
}

// Puts a node and what is below it before all of a tree, and tells whether the tree is higher now.
#[cycle(before)]
fn put_before(tree: &mut Tree, first: Box<Node>) -> bool
    requires level { IsLevel tree.old }
    requires low { height_of tree.old < 240 }
    requires sole { (first.value.left ≡ Tree.Empty) × (first.value.right ≡ Tree.Empty) × (first.value.left_height ≡ 0)
        × (first.value.right_height ≡ 0) }
    ensures numbers { numbers_of tree.new ≡ numbers_below first.value ++ numbers_of tree.old }
    ensures nodes { nodes_of tree.new ≡ nodes_below first.value + nodes_of tree.old }
    ensures level { IsLevel tree.new }
    ensures height { height_of tree.new ≡ height_of tree.old + one_if result }
{
    match tree {
        Tree::Empty => {
            *tree = Tree::Fork(first);
            true
        }
        Tree::Fork(node) => put_before_below(node, first) && !level(tree),
    }
}

// The same below a node. It tells whether one side is the higher one, and higher than it was.
#[cycle(before)]
fn put_before_below(node: &mut Box<Node>, first: Box<Node>) -> bool
    requires level { Differs 1 node.old.value }
    requires low { height_below node.old.value < 240 }
    requires sole { (first.value.left ≡ Tree.Empty) × (first.value.right ≡ Tree.Empty) × (first.value.left_height ≡ 0)
        × (first.value.right_height ≡ 0) }
    ensures numbers { numbers_below node.new.value ≡ numbers_below first.value ++ numbers_below node.old.value }
    ensures nodes { nodes_below node.new.value ≡ nodes_below first.value + nodes_below node.old.value }
    ensures rises { Rises node.old.value node.new.value result }
{
    put_before(&mut node.left, first) && rises(node.right_height, &mut node.left_height)
}

// Puts a number into the full block of a node, whose upper half goes to another node, the first on the right. It tells
// whether the right side is the higher one, and higher than it was.
fn split(node: &mut Box<Node>, id: u64, mut upper: Box<Node>) -> bool
    requires level { Differs 1 node.old.value }
    requires low { height_below node.old.value < 240 }
    requires rising { IsRising (numbers_in node.old.value.block) }
    requires full { length node.old.value.block.more.items ≡ most_more }
    requires new { length (put_number id (numbers_in node.old.value.block)) ≡ length (numbers_in node.old.value.block) + 1 }
    ensures numbers { numbers_below node.new.value ≡ numbers_of node.old.value.left
        ++ (put_number id (numbers_in node.old.value.block) ++ numbers_of node.old.value.right) }
    ensures longer { length (numbers_below node.new.value) ≡ length (numbers_below node.old.value) + 1 }
    ensures nodes { nodes_below node.new.value ≡ nodes_below node.old.value + 1 }
    ensures rises { Rises node.old.value node.new.value result }
{
    node.block.put_in_half(id, &mut upper.block);
    upper.left_height = 0;
    upper.right_height = 0;
    upper.left = Tree::Empty;
    upper.right = Tree::Empty;
    put_before(&mut node.right, upper) && rises(node.left_height, &mut node.right_height)
}

// Puts a number into the block of a node, or else into one half of it. It tells whether the right side is the higher
// one, and higher than it was.
fn put_here(node: &mut Box<Node>, id: u64, pool: &mut Vec<Box<Node>>, came: &mut bool) -> bool
    requires level { Differs 1 node.old.value }
    requires low { height_below node.old.value < 240 }
    requires rising { IsRising (numbers_in node.old.value.block) }
    requires pool { 0 < vec_len pool.old }
    ensures numbers { numbers_below node.new.value ≡ numbers_of node.old.value.left
        ++ (put_number id (numbers_in node.old.value.block) ++ numbers_of node.old.value.right) }
    ensures longer { length (numbers_below node.new.value) ≡ length (numbers_below node.old.value) + one_if came.new }
    ensures nodes { nodes_below node.new.value + vec_len pool.new ≡ nodes_below node.old.value + vec_len pool.old }
    ensures capacity { vec_capacity pool.new ≡ vec_capacity pool.old }
    ensures rises { Rises node.old.value node.new.value result }
{
    match node.block.put(id) {
        Put::There => {
            *came = false;
            false
        }
        Put::Came => {
            *came = true;
            false
        }
        Put::Full => {
            *came = true;
            match pool.pop() {
                Some(upper) => split(node, id, upper),
                None => unreachable!(),
            }
        }
    }
}

/// Puts a number into a tree, and says whether it came in. It takes a node of the pool, which has one, where the tree
/// is empty or the block that the number belongs to is full. It tells whether the tree is higher now.
#[cycle(putting)]
pub(crate) fn put_in(tree: &mut Tree, id: u64, pool: &mut Vec<Box<Node>>, came: &mut bool) -> bool
    requires level { IsLevel tree.old }
    requires low { height_of tree.old < 240 }
    requires rising { IsRising (numbers_of tree.old) }
    requires pool { 0 < vec_len pool.old }
    ensures numbers { numbers_of tree.new ≡ put_number id (numbers_of tree.old) }
    ensures longer { length (numbers_of tree.new) ≡ length (numbers_of tree.old) + one_if came.new }
    ensures nodes { nodes_of tree.new + vec_len pool.new ≡ nodes_of tree.old + vec_len pool.old }
    ensures capacity { vec_capacity pool.new ≡ vec_capacity pool.old }
    ensures level { IsLevel tree.new }
    ensures height { height_of tree.new ≡ height_of tree.old + one_if result }
{
    match tree {
        Tree::Empty => {
            *came = true;
            plant(tree, id, pool);
            true
        }
        Tree::Fork(node) => put_below(node, id, pool, came) && !level(tree),
    }
}

// The same below a node. It tells whether one side is the higher one, and higher than it was.
#[cycle(putting)]
fn put_below(node: &mut Box<Node>, id: u64, pool: &mut Vec<Box<Node>>, came: &mut bool) -> bool
    requires level { Differs 1 node.old.value }
    requires low { height_below node.old.value < 240 }
    requires rising { IsRising (numbers_below node.old.value) }
    requires pool { 0 < vec_len pool.old }
    ensures numbers { numbers_below node.new.value ≡ put_number id (numbers_below node.old.value) }
    ensures longer { length (numbers_below node.new.value) ≡ length (numbers_below node.old.value) + one_if came.new }
    ensures nodes { nodes_below node.new.value + vec_len pool.new ≡ nodes_below node.old.value + vec_len pool.old }
    ensures capacity { vec_capacity pool.new ≡ vec_capacity pool.old }
    ensures rises { Rises node.old.value node.new.value result }
{
    match side_of(node, id) {
        Side::Left => put_in(&mut node.left, id, pool, came)
            && rises(node.right_height, &mut node.left_height),
        Side::Here => put_here(node, id, pool, came),
        Side::Right => put_in(&mut node.right, id, pool, came)
            && rises(node.left_height, &mut node.right_height),
    }
}

// Puts a number in the place of an empty tree.
fn plant(tree: &mut Tree, id: u64, pool: &mut Vec<Box<Node>>)
    requires pool { 0 < vec_len pool.old }
    ensures numbers { numbers_of tree.new ≡ id ∷ [] }
    ensures nodes { nodes_of tree.new + vec_len pool.new ≡ vec_len pool.old }
    ensures capacity { vec_capacity pool.new ≡ vec_capacity pool.old }
    ensures level { IsLevel tree.new }
    ensures height { height_of tree.new ≡ 1 }
{
    let Some(mut node) = pool.pop() else {
        unreachable!();
    };
    node.block.begin(id);
    node.left_height = 0;
    node.right_height = 0;
    node.left = Tree::Empty;
    node.right = Tree::Empty;
    *tree = Tree::Fork(node);
}

// The least number on the right of a node's only one.
fn next_after(node: &Node, id: u64) -> Option<u64>
    requires rising { IsRising (numbers_below node.now) }
    requires only { numbers_in node.now.block ≡ id ∷ [] }
    ensures rising { IsRising (numbers_of node.now.right) }
    ensures none { IfNone result (nodes_of node.now.right ≡ 0) }
    ensures flat { IfNone result (height_of node.now.right ≡ 0) }
    ensures alone { IfNone result (length (numbers_below node.now) ≡ length (numbers_of node.now.left) + 1) }
    ensures rest { MatchOption result (without_number id (numbers_below node.now) ≡ numbers_of node.now.left)
        (λ next. without_number id (numbers_below node.now) ≡ numbers_of node.now.left
        ++ (next ∷ without_number next (numbers_of node.now.right))) }
{
    first_in(&node.right, 0, None)
}

/// Takes a number out of a tree, where it is there, and says whether it was. A node that has no number left goes to the
/// pool. It tells whether the tree is lower now.
#[cycle(taking)]
pub(crate) fn take_from(
    tree: &mut Tree,
    id: u64,
    pool: &mut Vec<Box<Node>>,
    gone: &mut bool,
) -> bool
    requires level { IsLevel tree.old }
    requires low { height_of tree.old < 240 }
    requires rising { IsRising (numbers_of tree.old) }
    requires place { nodes_of tree.old + vec_len pool.old ≤ vec_capacity pool.old }
    ensures numbers { numbers_of tree.new ≡ without_number id (numbers_of tree.old) }
    ensures shorter { length (numbers_of tree.old) ≡ length (numbers_of tree.new) + one_if gone.new }
    ensures nodes { nodes_of tree.new + vec_len pool.new ≡ nodes_of tree.old + vec_len pool.old }
    ensures capacity { vec_capacity pool.new ≡ vec_capacity pool.old }
    ensures level { IsLevel tree.new }
    ensures height { height_of tree.old ≡ height_of tree.new + one_if result }
{
    let Tree::Fork(node) = tree else {
        *gone = false;
        return false;
    };
    if !node.block.is_only(id) {
        return take_below(node, id, pool, gone) && level(tree);
    }
    if let Some(next) = next_after(node, id) {
        return take_next(node, next, pool, gone) && level(tree);
    }
    *gone = true;
    let left = mem::replace(&mut node.left, Tree::Empty);
    if let Tree::Fork(node) = mem::replace(tree, left) {
        pool.push_reserved(node);
    }
    true
}

// The same of a node that has other numbers. It tells whether one side is lower, and was not as high as the other.
#[cycle(taking)]
fn take_below(node: &mut Box<Node>, id: u64, pool: &mut Vec<Box<Node>>, gone: &mut bool) -> bool
    requires level { Differs 1 node.old.value }
    requires low { height_below node.old.value < 240 }
    requires rising { IsRising (numbers_below node.old.value) }
    requires place { nodes_below node.old.value + vec_len pool.old ≤ vec_capacity pool.old }
    requires others { node.old.value.block.least ≡ id → 0 < length node.old.value.block.more.items }
    ensures numbers { numbers_below node.new.value ≡ without_number id (numbers_below node.old.value) }
    ensures shorter { length (numbers_below node.old.value) ≡ length (numbers_below node.new.value) + one_if gone.new }
    ensures nodes { nodes_below node.new.value + vec_len pool.new ≡ nodes_below node.old.value + vec_len pool.old }
    ensures capacity { vec_capacity pool.new ≡ vec_capacity pool.old }
    ensures falls { Falls node.old.value node.new.value result }
{
    match side_of(node, id) {
        Side::Left => take_from(&mut node.left, id, pool, gone)
            && falls(node.right_height, &mut node.left_height),
        Side::Here => {
            *gone = node.block.take(id);
            false
        }
        Side::Right => take_from(&mut node.right, id, pool, gone)
            && falls(node.left_height, &mut node.right_height),
    }
}

// The same of a node's one number, where the next greater one, of the right side, comes in its place.
#[cycle(taking)]
fn take_next(node: &mut Box<Node>, next: u64, pool: &mut Vec<Box<Node>>, gone: &mut bool) -> bool
    requires level { Differs 1 node.old.value }
    requires low { height_below node.old.value < 240 }
    requires rising { IsRising (numbers_of node.old.value.right) }
    requires place { nodes_below node.old.value + vec_len pool.old ≤ vec_capacity pool.old }
    requires only { length node.old.value.block.more.items ≡ 0 }
    ensures numbers { numbers_below node.new.value ≡ numbers_of node.old.value.left
        ++ (next ∷ without_number next (numbers_of node.old.value.right)) }
    ensures shorter { length (numbers_below node.old.value) ≡ length (numbers_below node.new.value) + one_if gone.new }
    ensures nodes { nodes_below node.new.value + vec_len pool.new ≡ nodes_below node.old.value + vec_len pool.old }
    ensures capacity { vec_capacity pool.new ≡ vec_capacity pool.old }
    ensures falls { Falls node.old.value node.new.value result }
{
    node.block.begin(next);
    take_from(&mut node.right, next, pool, gone) && falls(node.left_height, &mut node.right_height)
}

/// A tree of the same numbers, in as many nodes. Refused only for want of memory.
pub(crate) fn copy_in(tree: &Tree, alloc: Global) -> Result<Tree, AllocError>
    ensures numbers { IfOk result (λ copy. numbers_of copy ≡ numbers_of tree.now) }
    ensures nodes { IfOk result (λ copy. nodes_of copy ≡ nodes_of tree.now) }
    ensures level { IfOk result (λ copy. IsLevel tree.now → IsLevel copy) }
    ensures height { IfOk result (λ copy. height_of copy ≡ height_of tree.now) }
{
    match tree {
        Tree::Empty => Ok(Tree::Empty),
        Tree::Fork(node) => {
            let left = copy_in(&node.left, alloc)?;
            let right = copy_in(&node.right, alloc)?;
            let copy = Node {
                left_height: node.left_height,
                right_height: node.right_height,
                left,
                right,
                block: node.block.copy(),
            };
            Ok(Tree::Fork(Box::new(alloc, copy)?))
        }
    }
}

// More nodes than these are made only where memory for eight bytes a number is there, so that absurd room is refused at
// once.
const FEW: usize = 64;

/// Puts more nodes into the pool, beside which the tree has the others of so many, until there are as many as are
/// wanted for so much room; and makes a place for each of them all. Refused only for want of memory.
pub(crate) fn fill_pool(
    pool: &mut Vec<Box<Node>>,
    nodes: usize,
    wanted: usize,
    room: usize,
) -> Result<(), AllocError>
    requires waiting { vec_len pool.old ≤ nodes }
    requires place { nodes ≤ vec_capacity pool.old }
    ensures longer { vec_len pool.old ≤ vec_len pool.new }
    ensures place { nodes + vec_len pool.new ≤ vec_capacity pool.new + vec_len pool.old }
    ensures ok { OnOk result (wanted + vec_len pool.old ≤ nodes + vec_len pool.new) }
{
    let alloc = *pool.allocator();
    let missing = wanted.saturating_sub(nodes);
    if missing > FEW {
        let _all: Vec<u64> = Vec::with_capacity(alloc, room)?;
    }
    pool.reserve(nodes - pool.len() + missing)?;
    for _made in 0..missing {
        let node = Node {
            left_height: 0,
            right_height: 0,
            left: Tree::Empty,
            right: Tree::Empty,
            block: Block::new(0),
        };
        pool.push_reserved(Box::new(alloc, node)?);
    }
    Ok(())
}
