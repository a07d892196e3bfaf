// The lines of a schema text, taken one after the other.
ghost use Rattle.std.specs.Prelude.{◌≡◌, ◌+◌, ◌≤◌, ◌<◌, ◌^◌, ◌++◌, ◌∷◌, [], ℕ, Some, None, Err, length, IfOk, IfErr, OnOk, IsTrue};
ghost use Rattle.base_kinds.specs.Limits.{most_schema_nodes, most_schema_octets};
ghost use Rattle.base_kinds.specs.Schema.{node_of};
ghost use Rattle.schema_core.specs.Nodes.{has_parent};
ghost use Rattle.schema_text.specs.Grammar.{line_of};
ghost use Rattle.plain_texts.specs.Splits.{parts_of};
ghost use Rattle.schema_text.specs.Schemas.{nothing_read, node_in, with_node, with_line, is_too_long, ended_line, last_part, at_line, read_parts, IsFaultOf};

use crate::cause::{Cause, SchemaError, SchemaFault};
use crate::grammar::read_line;
use crate::line::{Declared, Line};
use base_kinds::{
    Copied, MOST_SCHEMA_LINE_OCTETS, MOST_SCHEMA_NODES, MOST_SCHEMA_OCTETS, NoMemory, Text, Texts,
};
use plain_texts::Parts;
use schema_core::{Node, Schema};
use std::alloc::Global;
use std::marker::Model;

/// What the lines so far make: the nodes, the line of each, and the module of those that follow.
#[derive(Drop)]
pub(crate) struct Reading {
    pub(crate) schema: Schema,
    pub(crate) lines: Vec<u32>,
    pub(crate) module_name: Option<Text>,
}

impl Model for Reading {
    ghost use Rattle.schema_text.specs.Schemas.{Read};

    ghost Value = { Read };

    ghost view = { λ r. record {
      nodes = r.schema;
      lines = r.lines.items;
      module_name = r.module_name;
    } };
}

fn fault(line: u32, cause: Cause) -> SchemaError
    ensures { result ≡ SchemaError.Fault (record { line = line; cause = cause }) }
{
    SchemaError::Fault(SchemaFault { line, cause })
}

fn node_in(alloc: Global, module_name: Text, names: Texts, node: Declared) -> Node
    ensures { result ≡ node_in module_name names node }
{
    match node {
        Declared::Container => Node::container(alloc, module_name, names),
        Declared::List(keys, maximum) => Node::list(module_name, names, keys, maximum),
        Declared::Leaf(shape, is_mandatory, reference) => {
            Node::leaf(alloc, module_name, names, shape, is_mandatory, reference)
        }
        Declared::LeafList(shape, maximum) => {
            Node::leaf_list(alloc, module_name, names, shape, maximum)
        }
    }
}

/// Whether a line behind so many octets is above the limits of a line or of the text, with so many line feeds at its end.
fn is_too_long(line: &[u8], place: usize, feeds: usize) -> bool
    requires before { place ≤ most_schema_octets }
    requires most { feeds ≤ 1 }
    ensures { result ≡ is_too_long line.now place feeds }
{
    line.len() > MOST_SCHEMA_LINE_OCTETS || place + line.len() + feeds > MOST_SCHEMA_OCTETS
}

impl Reading {
    fn empty(alloc: Global) -> Reading
        ensures { result ≡ nothing_read }
    {
        Reading {
            schema: Schema::empty(alloc),
            lines: Vec::new(alloc),
            module_name: None,
        }
    }

    /// The module of a node with these names, or why the node can't be added.
    fn module_for(&self, names: &[Text]) -> Result<&Text, Cause>
        ensures module_name { IfOk result (λ name. self.now.module_name ≡ Some name.now) }
        ensures room { OnOk result (length self.now.nodes < most_schema_nodes) }
        ensures parent { OnOk result (IsTrue (has_parent self.now.nodes names.now)) }
        ensures fresh { OnOk result (node_of self.now.nodes names.now ≡ None) }
        ensures refused { IfErr result (λ cause. (number : ℕ) → (node : Declared) →
            with_node number self.now names.now node ≡ Err cause) }
    {
        if self.schema.nodes() >= MOST_SCHEMA_NODES {
            return Err(Cause::TooLarge);
        }
        let Some(module_name) = &self.module_name else {
            return Err(Cause::NoModule);
        };
        if !self.schema.has_parent(names) {
            return Err(Cause::NoParent);
        }
        if self.schema.find_names(names).is_some() {
            return Err(Cause::Twice);
        }
        Ok(module_name)
    }

    /// Adds a node at the end, and the number of its line.
    fn put_node(&mut self, number: u32, node: Node) -> Result<(), SchemaError>
        requires room { length self.old.nodes < most_schema_nodes }
        requires parent { IsTrue (has_parent self.old.nodes node.names) }
        requires fresh { node_of self.old.nodes node.names ≡ None }
        ensures ok { OnOk result (self.new ≡ record self.old {
          nodes = self.old.nodes ++ node ∷ [];
          lines = self.old.lines ++ number ∷ [];
        }) }
        ensures err { IfErr result (λ error. error ≡ SchemaError.NoMemory) }
    {
        self.schema.add(node)?;
        if self.lines.push(number).is_err() {
            return Err(SchemaError::NoMemory);
        }
        Ok(())
    }

    fn add_node(
        &mut self,
        alloc: Global,
        number: u32,
        names: Texts,
        node: Declared,
    ) -> Result<(), SchemaError>
        ensures ok { OnOk result (at_line number (with_node number self.old names node)
            ≡ Ok self.new) }
        ensures refused { IfErr result
            (λ error. IsFaultOf error (at_line number (with_node number self.old names node))) }
    {
        let module_name = match self.module_for(names.items()) {
            Ok(module_name) => module_name.copy(alloc),
            Err(cause) => {
                drop(names);
                drop(node);
                return Err(fault(number, cause));
            }
        };
        match module_name {
            Ok(module_name) => self.put_node(number, node_in(alloc, module_name, names, node)),
            Err(NoMemory) => {
                drop(names);
                drop(node);
                Err(SchemaError::NoMemory)
            }
        }
    }

    fn take_line(&mut self, alloc: Global, number: u32, line: &[u8]) -> Result<(), SchemaError>
        ensures ok { OnOk result (at_line number (with_line number self.old (line_of line.now)) ≡
            Ok self.new) }
        ensures refused { IfErr result
            (λ error. IsFaultOf error
            (at_line number (with_line number self.old (line_of line.now)))) }
    {
        match read_line(alloc, line)? {
            None => Err(fault(number, Cause::Syntax)),
            Some(Line::Skipped) => Ok(()),
            Some(Line::Module(name)) => {
                self.module_name = Some(name);
                Ok(())
            }
            Some(Line::Node(names, node)) => self.add_node(alloc, number, names, node),
        }
    }

    /// Takes a line that a line feed ends, behind so many octets.
    fn take_ended(
        &mut self,
        alloc: Global,
        number: u32,
        place: usize,
        line: &[u8],
    ) -> Result<(), SchemaError>
        requires { place ≤ most_schema_octets }
        ensures ok { OnOk result (at_line number (ended_line number place self.old line.now)
            ≡ Ok self.new) }
        ensures within { OnOk result (place + length line.now + 1 ≤ most_schema_octets) }
        ensures refused { IfErr result
            (λ error. IsFaultOf error
            (at_line number (ended_line number place self.old line.now))) }
    {
        if is_too_long(line, place, 1) {
            return Err(fault(number, Cause::TooLarge));
        }
        self.take_line(alloc, number, line)
    }
}

/// What stands behind the last line feed: nothing, or a line that none ends.
fn take_last(
    reading: Reading,
    number: u32,
    place: usize,
    part: &[u8],
) -> Result<Reading, SchemaError>
    requires { place ≤ most_schema_octets }
    ensures ok { IfOk result (λ read. at_line number (last_part place reading part.now) ≡ Ok read) }
    ensures refused { IfErr result
        (λ error. IsFaultOf error (at_line number (last_part place reading part.now))) }
{
    if part.is_empty() {
        return Ok(reading);
    }
    drop(reading);
    if is_too_long(part, place, 0) {
        return Err(fault(number, Cause::TooLarge));
    }
    Err(fault(number, Cause::Syntax))
}

/// Takes the lines of the text.
pub(crate) fn read_lines(alloc: Global, text: &[u8]) -> Result<Reading, SchemaError>
    ensures ok { IfOk result
        (λ reading. read_parts 1 0 nothing_read (parts_of 10 text.now) ≡ Ok reading) }
    ensures refused { IfErr result
        (λ error. IsFaultOf error (read_parts 1 0 nothing_read (parts_of 10 text.now))) }
{
    let mut reading = Reading::empty(alloc);
    let mut parts = Parts::of(text, b'\n');
    let mut number = 1;
    let mut place = 0;
    while let Some(part) = parts.next() {
        if parts.is_empty() {
            return take_last(reading, number, place, part);
        }
        if let Err(error) = reading.take_ended(alloc, number, place, part) {
            drop(reading);
            return Err(error);
        }
        number += 1;
        place = place + part.len() + 1;
    }
    Ok(reading)
}
