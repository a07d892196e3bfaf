ghost use Rattle.std.specs.Prelude.{◌≡◌, ◌<◌, ◌≤◌, [], ◌∷◌, ◌++◌, ℕ, Some, None, length, take, slice_get, IsTrue, IsNone, IfOk, IfErr, IfSome, OnOk, OnErr, EachIndex, ◌↔◌};
ghost use Rattle.std.specs.Option.{option_copied, option_map, option_and_then, ForSome};
ghost use Rattle.base_kinds.specs.Limits.{most_schema_nodes};
ghost use Rattle.base_kinds.specs.Schema.{names_of, node_of, node_at};
ghost use Rattle.base_kinds.specs.Valid.{if_some};
ghost use Rattle.schema_core.specs.Nodes.{names_at, names_above, has_parent, is_inner};
ghost use Rattle.schema_core.specs.inner.Index.{names_cmp, names_in, IsSortedIndex, IsBetween};
ghost use Rattle.schema_core.specs.inner.Wanted.{wanted_names};

use crate::node::{Node, NodeId};
use crate::wanted::{Wanted, compare};
use base_kinds::{Path, Shape, Sort};
use base_lists::{Copied, NoMemory, Seq, Text, Texts};
use std::alloc::Global;
use std::cmp::Ordering;
use std::marker::Model;

/// The nodes of a schema in the order of its text. No names stand twice, and a node's parent stands before it.
#[derive(Drop)]
pub struct Schema {
    nodes: Seq<Node>,
    order: Vec<u32>,
}

impl Model for Schema {
    ghost use Rattle.std.specs.Prelude.{List};
    ghost use Rattle.base_kinds.specs.Schema.{SchemaNode};
    ghost use Rattle.schema_core.specs.inner.Index.{IsSortedIndex};

    ghost Value = { List SchemaNode };

    ghost view = { λ s. s.nodes };

    ghost invariant = { λ s. IsSortedIndex s.nodes s.order.items };
}

impl Schema {
    /// A schema with no nodes. Takes no memory.
    pub fn empty(alloc: Global) -> Schema
        ensures { result ≡ [] }
    {
        Schema {
            nodes: Seq::empty(alloc),
            order: Vec::new(alloc),
        }
    }

    /// How many nodes it has.
    pub fn nodes(&self) -> u32
        ensures count { result ≡ length self.now }
        ensures few { result ≤ most_schema_nodes }
    {
        self.nodes.len() as u32
    }

    /// The node of the path. Its keys are not looked at. Takes no memory.
    pub fn find(&self, path: &Path) -> Option<NodeId>
        ensures node { node_at self.now path.now ≡ option_and_then
            (λ id. slice_get self.now id.0) result }
        ensures absent { IsNone result ↔ (node_at self.now path.now ≡ None) }
        ensures within { IfSome result (λ id. id.0 < length self.now) }
        ensures named { IfSome result (λ id. names_at self.now id.0 ≡ names_of path.now) }
    {
        self.look_up(Wanted::Path(path.items()))
    }

    /// The node with these names. Takes no memory.
    pub fn find_names(&self, names: &[Text]) -> Option<NodeId>
        ensures node { node_of self.now names.now ≡ option_and_then
            (λ id. slice_get self.now id.0) result }
        ensures absent { IsNone result ↔ (node_of self.now names.now ≡ None) }
        ensures within { IfSome result (λ id. id.0 < length self.now) }
        ensures named { IfSome result (λ id. names_at self.now id.0 ≡ names.now) }
    {
        self.look_up(Wanted::Names(names))
    }

    /// The node with this name right below that one, or below the root. Takes no memory.
    pub fn child_of(&self, parent: Option<NodeId>, name: &[u8]) -> Option<NodeId>
        requires { ForSome parent (λ id. id.0 < length self.now) }
        ensures node { node_of self.now (names_above self.now parent ++ name.now ∷ []) ≡
            option_and_then (λ id. slice_get self.now id.0) result }
        ensures absent { IsNone result
            ↔ (node_of self.now (names_above self.now parent ++ name.now ∷ []) ≡ None) }
        ensures within { IfSome result (λ id. id.0 < length self.now) }
        ensures named { IfSome result (λ id. names_at self.now id.0 ≡
            names_above self.now parent ++ name.now ∷ []) }
    {
        let above = match parent {
            None => &[],
            Some(id) => self.node(id).names().items(),
        };
        self.look_up(Wanted::Below(above, name))
    }

    /// Whether a node with these names has a place here: they are one name, or without the last of them they are those
    /// of a container or a list. Takes no memory.
    #[tactic(auto, using(crate::proofs::NodeLemmas::parent_of_last))]
    pub fn has_parent(&self, names: &[Text]) -> bool
        ensures { result ≡ has_parent self.now names.now }
    {
        match names.split_last() {
            None => false,
            Some((_, front)) => front.is_empty() || self.is_inner(front),
        }
    }

    /// Whether the node with these names is a container or a list.
    fn is_inner(&self, names: &[Text]) -> bool
        ensures { result ≡ if_some (node_of self.now names.now) (λ node. is_inner node.sort) }
    {
        match self.find_names(names) {
            None => false,
            Some(id) => match self.sort_of(id) {
                Sort::Container | Sort::List => true,
                Sort::Leaf | Sort::LeafList => false,
            },
        }
    }

    pub fn node(&self, id: NodeId) -> &Node
        requires { id.0 < length self.now }
        ensures { slice_get self.now id.0 ≡ Some result.now }
    {
        &self.nodes.items()[id.0 as usize]
    }

    pub fn sort_of(&self, node: NodeId) -> Sort
        requires { node.0 < length self.now }
        ensures { option_map (λ n. n.sort) (slice_get self.now node.0) ≡ Some result }
    {
        self.node(node).sort()
    }

    /// None exactly at a container or a list.
    pub fn shape_of(&self, node: NodeId) -> Option<&Shape>
        requires { node.0 < length self.now }
        ensures value { option_map
            (λ n. n.shape) (slice_get self.now node.0) ≡ Some (option_copied result) }
        ensures inner { IfSome (slice_get self.now node.0)
            (λ n. IsNone result ↔ IsTrue (is_inner n.sort)) }
    {
        self.node(node).shape()
    }

    pub fn keys_of(&self, node: NodeId) -> &Texts
        requires { node.0 < length self.now }
        ensures { option_map (λ n. n.keys) (slice_get self.now node.0) ≡ Some result.now }
    {
        self.node(node).keys()
    }

    pub fn module_of(&self, node: NodeId) -> &Text
        requires { node.0 < length self.now }
        ensures { option_map (λ n. n.module_name) (slice_get self.now node.0) ≡ Some result.now }
    {
        self.node(node).module_name()
    }

    /// A law: no two nodes have the same names, and what a node stands below stands before it. Does nothing.
    pub fn each_has_its_place(&self)
        ensures own { EachIndex self.now (λ number. node_of self.now (names_at self.now number) ≡
            slice_get self.now number) }
        ensures distinct { (i j : ℕ) → i < length self.now → j < length self.now →
            names_at self.now i ≡ names_at self.now j → i ≡ j }
        ensures parent { EachIndex self.now
            (λ number. IsTrue (has_parent (take number self.now) (names_at self.now number))) }
    {
        // opens the invariant, for the clauses
        let _ = &self.nodes;
    }

    /// Adds the node at the end.
    #[tactic(auto, using(crate::proofs::IndexLemmas::kept_more))]
    pub fn add(&mut self, node: Node) -> Result<NodeId, NoMemory>
        requires room { length self.old < most_schema_nodes }
        requires fresh { node_of self.old node.names ≡ None }
        requires parent { IsTrue (has_parent self.old node.names) }
        ensures ok { OnOk result (self.new ≡ self.old ++ node ∷ []) }
        ensures number { IfOk result (λ id. id.0 ≡ length self.old) }
        ensures err { OnErr result (self.new ≡ self.old) }
    {
        let number = self.nodes.len() as u32;
        let gap = gap_of(self.nodes.items(), self.order.as_slice(), &node);
        if self.order.reserve(1).is_err() {
            drop(node);
            return Err(NoMemory);
        }
        self.nodes.push(node)?;
        self.order.insert(gap, number).unwrap();
        Ok(NodeId(number))
    }

    fn look_up(&self, wanted: Wanted) -> Option<NodeId>
        ensures node { node_of self.now (wanted_names wanted.entry) ≡
            option_and_then (λ id. slice_get self.now id.0) result }
        ensures absent { IsNone result ↔ (node_of self.now (wanted_names wanted.entry) ≡ None) }
        ensures within { IfSome result (λ id. id.0 < length self.now) }
        ensures named { IfSome result (λ id. names_at self.now id.0 ≡ wanted_names wanted.entry) }
    {
        number_of(self.nodes.items(), self.order.as_slice(), wanted)
    }
}

impl Copied for Schema {
    fn copy(&self, alloc: Global) -> Result<Schema, NoMemory> {
        let nodes = self.nodes.copy(alloc)?;
        match Vec::from_slice(alloc, self.order.as_slice()) {
            Ok(order) => Ok(Schema { nodes, order }),
            Err(_) => {
                drop(nodes);
                Err(NoMemory)
            }
        }
    }
}

/// The number of the node that is wanted.
#[tactic(auto, using(crate::proofs::IndexLemmas::found_there, crate::proofs::IndexLemmas::present_there, crate::proofs::IndexLemmas::absent_there))]
fn number_of(nodes: &[Node], order: &[u32], wanted: Wanted) -> Option<NodeId>
    requires { IsSortedIndex nodes.now order.now }
    ensures node { node_of nodes.now (wanted_names wanted.entry) ≡
        option_and_then (λ id. slice_get nodes.now id.0) result }
    ensures absent { IsNone result ↔ (node_of nodes.now (wanted_names wanted.entry) ≡ None) }
    ensures within { IfSome result (λ id. id.0 < length nodes.now) }
    ensures named { IfSome result (λ id. names_at nodes.now id.0 ≡ wanted_names wanted.entry) }
{
    match place_of(nodes, order, wanted) {
        Ok(place) => Some(NodeId(order[place])),
        Err(_) => None,
    }
}

/// Where in the order the number of a new node belongs.
#[tactic(auto, using(crate::proofs::IndexLemmas::present_there))]
fn gap_of(nodes: &[Node], order: &[u32], node: &Node) -> usize
    requires kept { IsSortedIndex nodes.now order.now }
    requires fresh { node_of nodes.now node.now.names ≡ None }
    ensures { IsBetween nodes.now order.now node.now.names result result }
{
    match place_of(nodes, order, Wanted::Names(node.names().items())) {
        Ok(place) => place,
        Err(gap) => gap,
    }
}

/// Where in the order what is wanted stands, or else the gap where it belongs.
#[tactic(auto, using(crate::proofs::IndexLemmas::whole, crate::proofs::IndexLemmas::before_middle, crate::proofs::IndexLemmas::behind_middle))]
fn place_of(nodes: &[Node], order: &[u32], wanted: Wanted) -> Result<usize, usize>
    requires { IsSortedIndex nodes.now order.now }
    ensures inside { IfOk result (λ place. place < length order.now) }
    ensures there { IfOk result (λ place.
        names_cmp (wanted_names wanted.entry) (names_in nodes.now order.now place)
        ≡ Ordering.Equal) }
    ensures gap { IfErr result
        (λ gap. IsBetween nodes.now order.now (wanted_names wanted.entry) gap gap) }
{
    let (mut low, mut high) = (0, order.len());
    while low < high {
        let middle = low + (high - low) / 2;
        match compare(wanted, names_in(nodes, order, middle)) {
            Ordering::Equal => return Ok(middle),
            Ordering::Less => high = middle,
            Ordering::Greater => low = middle + 1,
        }
    }
    Err(low)
}

/// The names of the node whose number stands at this place of the order.
fn names_in<'a>(nodes: &'a [Node], order: &[u32], place: usize) -> &'a [Text]
    requires kept { IsSortedIndex nodes.now order.now }
    requires inside { place < length order.now }
    ensures { result.now ≡ names_in nodes.now order.now place }
{
    nodes[order[place] as usize].names().items()
}
