ghost use Rattle.std.specs.Prelude.{◌≡◌, IfOk, IsNone, IsTrue, ◌↔◌};
ghost use Rattle.std.specs.Option.{option_copied};
ghost use Rattle.schema_core.specs.Nodes.{is_inner, container_node, list_node, leaf_node, leaf_list_node};

use base_kinds::{Shape, Sort};
use base_lists::{Copied, NoMemory, Seq, Text, Texts};
use std::alloc::Global;
use std::marker::Model;

/// The number of a node of a schema, counted from 0 in the order of its text.
#[derive(Clone, Copy, PartialEq)]
pub struct NodeId(pub u32);

/// A data node of a schema (RFC 7950 4.2.2). A leaf and a leaf-list have a shape, and no other node has one.
#[derive(Drop)]
pub struct Node {
    names: Texts,
    module_name: Text,
    sort: Sort,
    shape: Option<Shape>,
    keys: Texts,
    is_mandatory: bool,
    reference: Option<Texts>,
    maximum: Option<u32>,
}

impl Model for Node {
    ghost use Rattle.std.specs.Prelude.{◌≡◌, is_some};
    ghost use Rattle.base_kinds.specs.Schema.{SchemaNode};
    ghost use Rattle.base_kinds.specs.Valid.{is_leafy};

    ghost Value = { SchemaNode };

    ghost view = { λ n. record {
      names = n.names;
      sort = n.sort;
      shape = n.shape;
      keys = n.keys;
      module_name = n.module_name;
      is_mandatory = n.is_mandatory;
      reference = n.reference;
      maximum = n.maximum;
    } };

    ghost invariant = { λ n. is_some n.shape ≡ is_leafy n.sort };
}

impl Node {
    /// A container. Takes no memory.
    pub fn container(alloc: Global, module_name: Text, names: Texts) -> Node
        ensures { result ≡ container_node module_name names }
    {
        Node {
            names,
            module_name,
            sort: Sort::Container,
            shape: None,
            keys: Seq::empty(alloc),
            is_mandatory: false,
            reference: None,
            maximum: None,
        }
    }

    /// A list with the names of its keys, and with a maximum of entries where it has one. Takes no memory.
    pub fn list(module_name: Text, names: Texts, keys: Texts, maximum: Option<u32>) -> Node
        ensures { result ≡ list_node module_name names keys maximum }
    {
        Node {
            names,
            module_name,
            sort: Sort::List,
            shape: None,
            keys,
            is_mandatory: false,
            reference: None,
            maximum,
        }
    }

    /// A leaf, with the names of the leaf that it refers to where it refers to one. Takes no memory.
    pub fn leaf(
        alloc: Global,
        module_name: Text,
        names: Texts,
        shape: Shape,
        is_mandatory: bool,
        reference: Option<Texts>,
    ) -> Node
        ensures { result ≡ leaf_node module_name names shape is_mandatory reference }
    {
        Node {
            names,
            module_name,
            sort: Sort::Leaf,
            shape: Some(shape),
            keys: Seq::empty(alloc),
            is_mandatory,
            reference,
            maximum: None,
        }
    }

    /// A leaf-list, with a maximum of values where it has one. Takes no memory.
    pub fn leaf_list(
        alloc: Global,
        module_name: Text,
        names: Texts,
        shape: Shape,
        maximum: Option<u32>,
    ) -> Node
        ensures { result ≡ leaf_list_node module_name names shape maximum }
    {
        Node {
            names,
            module_name,
            sort: Sort::LeafList,
            shape: Some(shape),
            keys: Seq::empty(alloc),
            is_mandatory: false,
            reference: None,
            maximum,
        }
    }

    /// The names from the root to it.
    pub fn names(&self) -> &Texts
        ensures { result.now ≡ self.now.names }
    {
        &self.names
    }

    pub fn sort(&self) -> Sort
        ensures { result ≡ self.now.sort }
    {
        self.sort
    }

    pub fn shape(&self) -> Option<&Shape>
        ensures value { option_copied result ≡ self.now.shape }
        ensures inner { IsNone result ↔ IsTrue (is_inner self.now.sort) }
    {
        self.shape.as_ref()
    }

    /// The names of its keys, which a list alone has.
    pub fn keys(&self) -> &Texts
        ensures { result.now ≡ self.now.keys }
    {
        &self.keys
    }

    pub fn module_name(&self) -> &Text
        ensures { result.now ≡ self.now.module_name }
    {
        &self.module_name
    }

    pub fn is_mandatory(&self) -> bool
        ensures { result ≡ self.now.is_mandatory }
    {
        self.is_mandatory
    }

    /// The names of the leaf that it refers to.
    pub fn reference(&self) -> Option<&Texts>
        ensures { option_copied result ≡ self.now.reference }
    {
        self.reference.as_ref()
    }

    /// How many entries or values it may have.
    pub fn maximum(&self) -> Option<u32>
        ensures { result ≡ self.now.maximum }
    {
        self.maximum
    }
}

impl Copied for Node {
    fn copy(&self, alloc: Global) -> Result<Node, NoMemory> {
        let names = self.names.copy(alloc)?;
        let Ok(module_name) = self.module_name.copy(alloc) else {
            drop(names);
            return Err(NoMemory);
        };
        let Ok(shape) = copy_shape(alloc, &self.shape) else {
            drop(names);
            drop(module_name);
            return Err(NoMemory);
        };
        let Ok(keys) = self.keys.copy(alloc) else {
            drop(names);
            drop(module_name);
            drop(shape);
            return Err(NoMemory);
        };
        let Ok(reference) = copy_names(alloc, &self.reference) else {
            drop(names);
            drop(module_name);
            drop(shape);
            drop(keys);
            return Err(NoMemory);
        };
        Ok(Node {
            names,
            module_name,
            sort: self.sort,
            shape,
            keys,
            is_mandatory: self.is_mandatory,
            reference,
            maximum: self.maximum,
        })
    }
}

fn copy_shape(alloc: Global, shape: &Option<Shape>) -> Result<Option<Shape>, NoMemory>
    ensures { IfOk result (λ copy. copy ≡ shape.now) }
{
    Ok(match shape {
        None => None,
        Some(Shape::Bool) => Some(Shape::Bool),
        Some(Shape::Int(bits)) => Some(Shape::Int(*bits)),
        Some(Shape::Uint(bits)) => Some(Shape::Uint(*bits)),
        Some(Shape::Dec(places)) => Some(Shape::Dec(*places)),
        Some(Shape::Text) => Some(Shape::Text),
        Some(Shape::Bin) => Some(Shape::Bin),
        Some(Shape::Enum(texts)) => Some(Shape::Enum(texts.copy(alloc)?)),
    })
}

fn copy_names(alloc: Global, names: &Option<Texts>) -> Result<Option<Texts>, NoMemory>
    ensures { IfOk result (λ copy. copy ≡ names.now) }
{
    match names {
        None => Ok(None),
        Some(names) => Ok(Some(names.copy(alloc)?)),
    }
}
