//! A set of lines by their positions, as a tree over flags.

ghost use Rattle.std.specs.Prelude.{◌≡◌, ℕ, ◌+◌, ◌*◌, ◌/◌, ◌<◌, ◌≤◌, length, replicate, slice_set, slice_index_or, true, false, IfOk, Some};
ghost use Rattle.speculate.specs.Devices.Rows.{IsNext};
ghost use Rattle.speculate.specs.Trees.{IsLeastFrom, IsTree, node_at};

use std::alloc::{AllocError, Global};
use std::marker::Model;

/// The most positions of a set: as many as a journal has lines.
pub const POSITIONS_MAX: usize = 1_000_000;

/// Some of the positions from 0 up to a limit. Over the flags of the positions is a tree; each node
/// says whether a flag below it is set. Node 1 is the root, nodes 2 n and 2 n + 1 are below node n,
/// and the flags are the last row. One position may be held apart from the tree: most sets of lines
/// have one position at a time, and changes of such a set leave the tree as it is.
pub struct LineSet {
    flags: Vec<bool>,
    /// The nodes above the flags; their number is a power of two, and node 0 isn't used.
    nodes: Vec<bool>,
    /// A position of the set whose flag isn't set.
    apart: Option<usize>,
}

impl Drop for LineSet {
    fn drop(self) {
        let LineSet {
            flags: _,
            nodes: _,
            apart: _,
        } = self;
    }
}

impl Model for LineSet {
    ghost use Rattle.std.specs.Prelude.{List, Bool};
    ghost use Rattle.speculate.specs.Devices.Apart.{IsApart, with_apart};
    ghost use Rattle.speculate.specs.Trees.{IsTree};

    ghost Value = { List Bool };

    ghost view = { λ s. with_apart s.flags.items s.apart };

    ghost invariant = { λ s. IsTree s.flags.items s.nodes.items × IsApart s.flags.items s.apart };
}

impl LineSet {
    /// Makes a set of positions below `len`, at most `POSITIONS_MAX`: all of them, or none.
    pub fn new(alloc: Global, len: usize, all: bool) -> Result<LineSet, AllocError>
        requires { len ≤ POSITIONS_MAX }
        ensures { IfOk result (λ s. s ≡ replicate len all) }
    {
        let width = len.next_power_of_two();
        let flags = vec![in alloc; all; len]?;
        let mut nodes = vec![in alloc; false; width]?;
        // (of a set without positions no node is set)
        let mut node = if all { width } else { 1 };
        while node > 1 {
            node -= 1;
            nodes[node] = is_set(&flags, &nodes, 2 * node) || is_set(&flags, &nodes, 2 * node + 1);
        }
        Ok(LineSet {
            flags,
            nodes,
            apart: None,
        })
    }

    /// True exactly if this position is in the set.
    pub fn has(&self, position: usize) -> bool
        ensures { result ≡ slice_index_or self.now position false }
    {
        self.apart == Some(position) || position < self.flags.len() && self.flags[position]
    }

    /// Adds a position, and no other.
    pub fn insert(&mut self, position: usize)
        requires { position < length self.old }
        ensures { self.new ≡ slice_set self.old position true }
    {
        if self.has(position) {
            return;
        }
        if self.apart.is_none() {
            self.apart = Some(position);
            return;
        }
        self.flags[position] = true;
        let mut node = (self.nodes.len() + position) / 2;
        // up to a node that is set already, as each above it is then
        while node > 0 && !self.nodes[node] {
            self.nodes[node] = true;
            node /= 2;
        }
    }

    /// Removes a position, and no other.
    pub fn remove(&mut self, position: usize)
        requires { position < length self.old }
        ensures { self.new ≡ slice_set self.old position false }
    {
        if self.apart == Some(position) {
            self.apart = None;
            return;
        }
        if !self.flags[position] {
            return;
        }
        self.flags[position] = false;
        let mut node = (self.nodes.len() + position) / 2;
        // up to a node below which another position is
        while node > 0
            && !is_set(&self.flags, &self.nodes, 2 * node)
            && !is_set(&self.flags, &self.nodes, 2 * node + 1)
        {
            self.nodes[node] = false;
            node /= 2;
        }
    }

    /// Gives the least position of the set from this one on; None if there is none.
    pub fn least_from(&self, from: usize) -> Option<usize>
        ensures { IsLeastFrom self.now from result }
    {
        let least = least_flag(&self.flags, &self.nodes, from);
        match (self.apart, least) {
            (Some(apart), Some(other)) if from <= apart && apart < other => Some(apart),
            (Some(apart), None) if from <= apart => Some(apart),
            _ => least,
        }
    }
}

/// What is at a node.
fn is_set(flags: &[bool], nodes: &[bool], node: usize) -> bool
    ensures { result ≡ node_at flags.now nodes.now node }
{
    if node < nodes.len() {
        return nodes[node];
    }
    let position = node - nodes.len();
    position < flags.len() && flags[position]
}

/// The least set flag from a position on. Looks at no more nodes than three times the tree's rows.
fn least_flag(flags: &[bool], nodes: &[bool], from: usize) -> Option<usize>
    requires { IsTree flags.now nodes.now }
    ensures { IsLeastFrom flags.now from result }
{
    if from >= flags.len() {
        return None;
    }
    // (most of the time a set of lines that are to be checked, or are in check, is empty)
    if !is_set(flags, nodes, 1) {
        return None;
    }
    let mut node = nodes.len() + from;
    // the number of flags below the node, and the first of them, in the row of the flags
    let mut width = 1;
    let mut first = node;
    while !is_set(flags, nodes, node) {
        node += 1;
        first += width;
        if first == 2 * nodes.len() {
            return None;
        }
        if node % 2 == 0 {
            node /= 2;
            width *= 2;
        }
    }
    Some(least_below(flags, nodes, from, node))
}

/// The least set flag below a set node.
fn least_below(flags: &[bool], nodes: &[bool], from: usize, top: usize) -> usize
    requires tree { IsTree flags.now nodes.now }
    requires next { IsNext flags.now nodes.now from top }
    ensures { IsLeastFrom flags.now from (Some result) }
{
    let mut node = top;
    while node < nodes.len() {
        node *= 2;
        if !is_set(flags, nodes, node) {
            node += 1;
        }
    }
    node - nodes.len()
}
