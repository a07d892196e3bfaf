ghost use Rattle.std.specs.Prelude.{◌≡◌, [], None, option_map};
ghost use Rattle.program.specs.Commands.{Command as Asked, Gives, GivesNone, IsNoServe, IsNoSession};
ghost use Rattle.program.specs.Commands.{octets_of_words};
ghost use Rattle.program.specs.Environment.{seen_disk};
ghost use Rattle.program.specs.Links.{seen_links};
ghost use Rattle.program.specs.Run.{Run, Does, Refuses};
ghost use Rattle.program.specs.headline.Headline.{Headline};

use crate::arguments::ServeWords;
use crate::check_command::check;
use crate::command::{Command, command_of};
use crate::command_end::{CommandEnd, Links};
use crate::ending::Ending;
use crate::files::Files;
use crate::help::{help, version};
use crate::host::{Host, Kit, KitFeeding};
use crate::init_command::init;
use crate::load_command::load;
use crate::log_command::log;
use crate::printing::say_last;
use crate::script_command::script;
use crate::serve_command::serve;
use crate::session_command::session;
use environment::Starter;
use listening::Door;
use session_core::How;
use std::alloc::Global;
use std::sync::Wait;
use std::thread::Threads;

/// How a run ended.
#[derive(Drop)]
pub struct RunEnd<K: Kit> {
    pub status: u8,
    pub host: Host<K>,
    /// How the connection over the input and the output ended, where one was served.
    pub how: Option<How>,
    /// The disk, where the files gave one.
    pub disk: Option<<K::Files as Files>::Disk>,
    /// The connections that the door gave, in their order.
    pub links: Links<K::Door>,
}

/// Does what the words say, over the objects of the host, and answers the status that the process is to end with.
/// What that is for whoever uses it, is said in specs/headline/Headline.antt; what each command does, in specs/Run.antt; and both in
/// words in docs/THEOREM.md. What serves many connections starts a feeder in each by
/// a twin of `feeders`.
pub fn run<R, K, S>(
    rt: &R,
    alloc: Global,
    words: &[String],
    feeders: &S,
    host: Host<K>,
) -> RunEnd<K>
where
    R: Threads + Wait + Clone + Drop + Send + Sync + 'static,
    K: Kit,
    <K::Door as Door>::Reader: Send + Drop + 'static,
    <K::Door as Door>::Writer: Send + Drop + 'static,
    K::Clock: Send + 'static,
    K::Pacer: Send + 'static,
    S: Starter<KitFeeding<K, R>> + Send + Drop + 'static,
    ensures headline { Headline (octets_of_words words.now) host result.host
        (option_map (λ disk. seen_disk K.Files.Disk.told K.Files.Disk.faults disk) result.disk)
        result.how (seen_links K.Door.Reader.seen K.Door.Writer.seen result.links.items)
        result.status }
    ensures run { Run (octets_of_words words.now) host result.host
        (option_map (λ disk. seen_disk K.Files.Disk.told K.Files.Disk.faults disk) result.disk)
        result.how (seen_links K.Door.Reader.seen K.Door.Writer.seen result.links.items)
        result.status }
{
    let CommandEnd {
        host,
        disk,
        how,
        links,
        ending,
    } = obey(rt, alloc, words, feeders, host);
    RunEnd {
        status: ending.exit_status(),
        host,
        how,
        disk,
        links,
    }
}

/// Does what the words say.
fn obey<R, K, S>(
    rt: &R,
    alloc: Global,
    words: &[String],
    feeders: &S,
    host: Host<K>,
) -> CommandEnd<K>
where
    R: Threads + Wait + Clone + Drop + Send + Sync + 'static,
    K: Kit,
    <K::Door as Door>::Reader: Send + Drop + 'static,
    <K::Door as Door>::Writer: Send + Drop + 'static,
    K::Clock: Send + 'static,
    K::Pacer: Send + 'static,
    S: Starter<KitFeeding<K, R>> + Send + Drop + 'static,
    ensures done { (command : Asked) → Gives (octets_of_words words.now) command →
        Does command host result.host
        (option_map (λ disk. seen_disk K.Files.Disk.told K.Files.Disk.faults disk) result.disk)
        result.how (seen_links K.Door.Reader.seen K.Door.Writer.seen result.links.items)
        result.ending }
    ensures refused { GivesNone (octets_of_words words.now) → Refuses host result.host
        (option_map (λ disk. seen_disk K.Files.Disk.told K.Files.Disk.faults disk) result.disk)
        result.ending }
    ensures unserved { IsNoSession (octets_of_words words.now) → result.how ≡ None }
    ensures door { IsNoServe (octets_of_words words.now) → result.host.door ≡ host.door }
    ensures links { IsNoServe (octets_of_words words.now) → result.links.items ≡ [] }
{
    let mut host = host;
    match command_of(words) {
        Some(Command::Check { schema }) => {
            let ending = check(alloc, schema, &mut host);
            CommandEnd::without_disk(alloc, host, ending)
        }
        Some(Command::Script { schema, limits }) => {
            let ending = script(alloc, schema, limits, &mut host);
            CommandEnd::without_disk(alloc, host, ending)
        }
        Some(Command::Init { journal, limits }) => {
            let end = init(alloc, journal, limits, &mut host);
            CommandEnd::with_disk(alloc, host, end)
        }
        Some(Command::Log { journal }) => {
            let end = log(alloc, journal, &mut host);
            CommandEnd::with_disk(alloc, host, end)
        }
        Some(Command::Session { schema, journal }) => session(alloc, schema, journal, host),
        Some(Command::Serve(words)) => {
            let ServeWords {
                schema,
                journal,
                address,
                sessions,
            } = words;
            serve(rt, alloc, schema, journal, address, sessions, feeders, host)
        },
        Some(Command::Load { seed, count }) => {
            let ending = load(alloc, seed, count, &mut host);
            CommandEnd::without_disk(alloc, host, ending)
        }
        Some(Command::Help) => {
            let ending = help(&mut host);
            CommandEnd::without_disk(alloc, host, ending)
        }
        Some(Command::Version) => {
            let ending = version(&mut host);
            CommandEnd::without_disk(alloc, host, ending)
        }
        None => {
            say_last(&mut host.output, b"bad words\n");
            CommandEnd::without_disk(alloc, host, Ending::BadWords)
        }
    }
}
