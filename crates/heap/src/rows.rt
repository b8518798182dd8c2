//! The rows of the nodes. Every access tests its bound, so that it is safe on any memory.
ghost use Rattle.std.specs.Prelude.{◌≡◌, ℕ, ◌<◌, ◌≤◌, Bool, length, slice_index, slice_set};
ghost use Rattle.heap.specs.Rows.{names, places, records, key, held_in, Sits, Exchanged, Seated, Rewritten};

use crate::node::Node;
use orders::order::Order;
use orders::record::Numbered;

// The number at the place `i`.
pub fn name_at<R>(nodes: &[Node<R>], i: usize) -> usize
    ensures { result ≡ slice_index (names nodes.now) i }
{
    if i >= nodes.len() {
        return 0;
    }
    nodes[i].named
}

// The place of the number `m`, if it is in.
pub fn place_of<R>(nodes: &[Node<R>], m: usize) -> usize
    ensures { result ≡ slice_index (places nodes.now) m }
{
    if m >= nodes.len() {
        return 0;
    }
    nodes[m].place
}

// The record of the number `m`, if it stands at one of the first `len` places.
#[tactic(auto, using(crate::proofs::Maps::picked))]
pub fn lookup<R: Copy>(nodes: &[Node<R>], len: usize, m: usize) -> Option<R>
    ensures { result ≡ held_in nodes.now len m }
{
    let node = nodes.get(m)?;
    (node.place < len && name_at(nodes, node.place) == m).then_some(node.record)
}

// Whether the record at the place `i` goes before the one at the place `j`.
pub fn ahead<R: Numbered, O: Order<R>>(nodes: &[Node<R>], i: usize, j: usize) -> bool
    ensures { (n : ℕ) → n ≤ length nodes.now → Sits nodes.now n → i < n → j < n → (d : R) → result ≡ O.Order.before (key nodes.now i d) (key nodes.now j d) }
{
    let a = name_at(nodes, i);
    let b = name_at(nodes, j);
    if a >= nodes.len() || b >= nodes.len() {
        return false;
    }
    O::goes_before(&nodes[a].record, &nodes[b].record)
}

fn set_name<R>(nodes: &mut [Node<R>], i: usize, n: usize)
    ensures named { names nodes.new ≡ slice_set (names nodes.old) i n }
    ensures placed { places nodes.new ≡ places nodes.old }
    ensures same { records nodes.new ≡ records nodes.old }
{
    if i >= nodes.len() {
        return;
    }
    nodes[i].named = n;
}

fn set_place<R>(nodes: &mut [Node<R>], m: usize, p: usize)
    ensures named { names nodes.new ≡ names nodes.old }
    ensures placed { places nodes.new ≡ slice_set (places nodes.old) m p }
    ensures same { records nodes.new ≡ records nodes.old }
{
    if m >= nodes.len() {
        return;
    }
    nodes[m].place = p;
}

// The record of the number `m` becomes `item`.
pub fn set_record<R: Drop>(nodes: &mut [Node<R>], m: usize, item: R)
    ensures { Rewritten nodes.old nodes.new m item }
{
    if m >= nodes.len() {
        return;
    }
    nodes[m].record = item;
}

// The numbers at two places change places.
pub fn exchange<R>(nodes: &mut [Node<R>], i: usize, j: usize)
    ensures { Exchanged nodes.old nodes.new i j }
{
    let a = name_at(nodes, i);
    let b = name_at(nodes, j);
    set_name(nodes, i, b);
    set_name(nodes, j, a);
    set_place(nodes, a, j);
    set_place(nodes, b, i);
}

// The number `m` takes the place `i`, with the record `item`.
pub fn seat<R: Drop>(nodes: &mut [Node<R>], i: usize, m: usize, item: R)
    ensures { Seated nodes.old nodes.new i m item }
{
    set_name(nodes, i, m);
    set_place(nodes, m, i);
    set_record(nodes, m, item);
}
