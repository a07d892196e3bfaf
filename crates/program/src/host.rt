use crate::files::Files;
use environment::{Clock, Pacer, Sink, Source};
use gnmi_server::Feeding;
use listening::Door;
use plain_tree::PlainTree;
use shared_book::Visit;
use std::marker::Model;

/// The kinds of objects of the environment that a run is handed.
pub trait Kit {
    type Files: Files + Drop;

    type Input: Source + Drop;

    type Output: Sink + Drop;

    /// Where connections come in.
    type Door: Door + Drop;

    type Clock: Clock + Drop;

    type Pacer: Pacer + Drop;
}

/// The job of a feeder of a connection that the door gave, over the book of a disk of the files.
pub type KitFeeding<K, R> = Feeding<
    Visit<<<K as Kit>::Files as Files>::Disk, PlainTree, R>,
    <<K as Kit>::Door as Door>::Writer,
    R,
    <K as Kit>::Clock,
    <K as Kit>::Pacer,
>;

/// The objects of the environment that a run is handed, and hands back at its end.
#[derive(Drop)]
pub struct Host<K: Kit> {
    pub files: K::Files,
    pub input: K::Input,
    pub output: K::Output,
    pub door: K::Door,
    pub clock: K::Clock,
    /// How long what waits in a thread of its own pauses before it looks again.
    pub pacer: K::Pacer,
}

impl<K: Kit> Model for Host<K> {
    ghost use Rattle.program.specs.Environment.{Environment, seen_door};

    ghost Value = { Environment };

    ghost view = { λ h. record {
      files = K.Files.seen h.files;
      input = K.Input.seen h.input;
      output = K.Output.seen h.output;
      door = seen_door K.Door.Reader.seen K.Door.Writer.seen (K.Door.seen h.door);
      clock = K.Clock.readings h.clock;
    } };
}
