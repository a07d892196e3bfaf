//! TCP connections on loopback.
use environment::{Failed, Job, Running, Source, read_to_limit, write_whole};
use listening::{Door, Next};
use std::alloc::Global;
use std::io::Write;
use std::net::{Shutdown, SocketAddr, TcpStream};
use std::sync::Wait;
use std::thread::Threads;
use std_environment::{
    AcceptFault, Bell, StreamSink, StreamSource, TcpDoor, TcpSink, TcpSource, ThreadStarter,
};

/// Sends back what comes on a connection, until its peer has sent all.
#[derive(Drop)]
struct Echo<R> {
    reader: TcpSource<R>,
    writer: TcpSink,
}

impl<R: Wait + Clone + Drop> Job for Echo<R> {
    type Done = bool;

    ghost use Rattle.std.specs.Prelude.{⊤};

    ghost gives = { λ _ _. ⊤ };

    /// Whether no read or write failed.
    fn run(self) -> bool {
        let Echo {
            mut reader,
            mut writer,
        } = self;
        sends_back(&mut reader, &mut writer)
    }
}

/// Sends back what comes, until the peer has sent all. Answers whether no read or write failed.
fn sends_back<R: Wait + Clone + Drop>(reader: &mut TcpSource<R>, writer: &mut TcpSink) -> bool {
    let mut buffer = [0; 4];
    for _ in 0..u64::MAX {
        match reader.read(&mut buffer) {
            Ok(0) => return true,
            Ok(count) if write_whole(writer, &buffer[..count]).is_ok() => {}
            _ => return false,
        }
    }
    false
}

/// A door that isn't open yet.
fn closed_door<R: Wait + Copy + Drop>(rt: &R, host: &HostRuntime) -> Option<TcpDoor<R>> {
    let bell = Bell::make(*rt, host.alloc()).ok()?;
    Some(TcpDoor::of(host, bell, false))
}

/// A door that is open on loopback, at a port that the system chose.
fn open_door<R: Wait + Copy + Drop>(rt: &R, host: &HostRuntime) -> Option<TcpDoor<R>> {
    let mut door = closed_door(rt, host)?;
    match door.listen("127.0.0.1:0") {
        Ok(()) => Some(door),
        Err(_) => None,
    }
}

fn next_link<R: Wait + Clone + Drop>(door: &mut TcpDoor<R>) -> Option<(TcpSource<R>, TcpSink)> {
    match door.next() {
        Next::Link(reader, writer) => Some((reader, writer)),
        Next::End => None,
        Next::Failed => None,
    }
}

fn writes(stream: TcpStream, octets: &[u8]) -> bool {
    write_whole(&mut StreamSink::of(stream), octets).is_ok()
}

/// Whether a client sends these octets, and then tells that it sends no more.
fn sends(client: &TcpStream, octets: &[u8]) -> bool {
    match client.try_clone() {
        Ok(stream) => writes(stream, octets) && client.shutdown(Shutdown::Write).is_ok(),
        Err(_) => false,
    }
}

/// Whether these octets are all that a client reads.
fn reads(alloc: Global, client: TcpStream, octets: &[u8]) -> bool {
    let answer = read_to_limit(alloc, &mut StreamSource::of(client), 1000);
    match answer {
        Ok(answer) => answer.items() == octets,
        Err(_) => false,
    }
}

/// A connection of a client, with a thread at its other end.
struct Talk<R: Wait + Clone + Drop> {
    client: TcpStream,
    running: Running<Echo<R>>,
}

/// A thread at this side of the next connection.
fn begin_echo<R: Threads + Wait + Copy + Drop + Send + 'static>(
    rt: &R,
    alloc: Global,
    door: &mut TcpDoor<R>,
) -> Option<Running<Echo<R>>> {
    let (reader, writer) = next_link(door)?;
    let mut starter = ThreadStarter::make(*rt, alloc);
    starter.start(Echo { reader, writer }).ok()
}

fn begin<R: Threads + Wait + Copy + Drop + Send + 'static>(
    rt: &R,
    host: &HostRuntime,
    door: &mut TcpDoor<R>,
) -> Option<Talk<R>> {
    let client = TcpStream::connect(host, door.address()?).ok()?;
    let running = begin_echo(rt, host.alloc(), door)?;
    Some(Talk { client, running })
}

/// Whether a client that sends these octets and then no more reads just these.
fn reads_back(alloc: Global, client: TcpStream, octets: &[u8]) -> bool {
    if !sends(&client, octets) {
        return false;
    }
    reads(alloc, client, octets)
}

/// Whether the client reads what it sends, and the thread found no fault.
fn ends_well<R: Threads + Wait + Clone + Drop>(
    rt: &R,
    alloc: Global,
    talk: Talk<R>,
    octets: &[u8],
) -> bool {
    let Talk { client, running } = talk;
    let same = reads_back(alloc, client, octets);
    running.finish(rt) && same
}

/// The same of a connection from its beginning.
fn goes_well<R: Threads + Wait + Copy + Drop + Send + 'static>(
    rt: &R,
    host: &HostRuntime,
    door: &mut TcpDoor<R>,
    octets: &[u8],
) -> bool {
    match begin(rt, host, door) {
        Some(talk) => ends_well(rt, host.alloc(), talk, octets),
        None => false,
    }
}

/// A connection goes from its beginning to its end while another one waits, which then ends well too.
fn both_go_well<R: Threads + Wait + Copy + Drop + Send + 'static>(
    rt: &R,
    host: &HostRuntime,
    door: &mut TcpDoor<R>,
) -> bool {
    match begin(rt, host, door) {
        Some(first) => {
            let second = goes_well(rt, host, door, b"second");
            ends_well(rt, host.alloc(), first, b"first") && second
        }
        None => false,
    }
}

/// They do so at a door that is opened for them.
fn door_serves_both<R: Threads + Wait + Copy + Drop + Send + 'static>(
    rt: &R,
    host: &HostRuntime,
) -> bool {
    match open_door(rt, host) {
        Some(mut door) => both_go_well(rt, host, &mut door),
        None => false,
    }
}

#[test]
fn connections_are_served_beside_one_another(rt: HostRuntime) {
    assert!(rt; door_serves_both(&rt, &rt));
}

fn is_failed<R: Drop>(next: Next<TcpSource<R>, TcpSink>) -> bool {
    match next {
        Next::Link(_reader, _writer) => false,
        Next::End => false,
        Next::Failed => true,
    }
}

/// Whether a door can't be opened at what is no address, has none then, and fails.
fn cannot_be_opened<R: Wait + Clone + Drop>(door: &mut TcpDoor<R>) -> bool {
    door.listen("no address").is_err() && door.address().is_none() && is_failed(door.next())
}

fn closed_door_fails<R: Wait + Copy + Drop>(rt: &R, host: &HostRuntime) -> bool {
    match closed_door(rt, host) {
        Some(mut door) => cannot_be_opened(&mut door),
        None => false,
    }
}

#[test]
fn a_door_fails_that_cannot_be_opened(rt: HostRuntime) {
    assert!(rt; closed_door_fails(&rt, &rt));
}

/// Whether a connection comes in at the door with this address. It ends at this side first.
fn link_ends<R: Wait + Clone + Drop>(
    host: &HostRuntime,
    door: &mut TcpDoor<R>,
    address: SocketAddr,
) -> bool {
    match TcpStream::connect(host, address) {
        Ok(client) => {
            let has_come = next_link(door).is_some();
            drop(client);
            has_come
        }
        Err(_) => false,
    }
}

/// The address of a door, behind such a connection.
fn address_behind_link<R: Wait + Clone + Drop>(
    host: &HostRuntime,
    door: &mut TcpDoor<R>,
) -> Option<String> {
    let address = door.address()?;
    if link_ends(host, door, address) {
        format!(in host.alloc(); "{address}").ok()
    } else {
        None
    }
}

/// The address of a door that is gone, behind a connection that ended at this side first.
fn address_left<R: Wait + Copy + Drop>(rt: &R, host: &HostRuntime) -> Option<String> {
    let mut door = open_door(rt, host)?;
    address_behind_link(host, &mut door)
}

/// Whether a further door can be opened at this address.
fn opens_at<R: Wait + Copy + Drop>(rt: &R, host: &HostRuntime, address: &str) -> bool {
    match closed_door(rt, host) {
        Some(mut door) => door.listen(address).is_ok(),
        None => false,
    }
}

fn address_is_free<R: Wait + Copy + Drop>(rt: &R, host: &HostRuntime) -> bool {
    match address_left(rt, host) {
        Some(address) => opens_at(rt, host, &address),
        None => false,
    }
}

#[test]
fn an_address_is_free_once_its_door_is_gone(rt: HostRuntime) {
    assert!(rt; address_is_free(&rt, &rt));
}

/// Whether who dials a door that was closed is refused.
fn refuses_once_closed<R: Wait + Clone + Drop>(host: &HostRuntime, door: &mut TcpDoor<R>) -> bool {
    match door.address() {
        Some(address) => {
            door.close();
            TcpStream::connect(host, address).is_err()
        }
        None => false,
    }
}

fn closed_door_refuses<R: Wait + Copy + Drop>(rt: &R, host: &HostRuntime) -> bool {
    match open_door(rt, host) {
        Some(mut door) => refuses_once_closed(host, &mut door),
        None => false,
    }
}

#[test]
fn who_dials_a_closed_door_is_refused(rt: HostRuntime) {
    assert!(rt; closed_door_refuses(&rt, &rt));
}

/// A client, and this side of its connection.
#[derive(Drop)]
struct Pair<R> {
    client: TcpStream,
    reader: TcpSource<R>,
    writer: TcpSink,
}

fn pair_at<R: Wait + Clone + Drop>(host: &HostRuntime, door: &mut TcpDoor<R>) -> Option<Pair<R>> {
    let client = TcpStream::connect(host, door.address()?).ok()?;
    match next_link(door) {
        Some((reader, writer)) => Some(Pair {
            client,
            reader,
            writer,
        }),
        None => None,
    }
}

fn new_pair<R: Wait + Copy + Drop>(rt: &R, host: &HostRuntime) -> Option<Pair<R>> {
    let mut door = open_door(rt, host)?;
    pair_at(host, &mut door)
}

/// Sends octets that nobody reads, says `last`, and ends this side. Answers the client.
fn client_left<R: Wait + Clone + Drop>(pair: Pair<R>) -> Option<TcpStream> {
    let Pair {
        mut client,
        reader,
        mut writer,
    } = pair;
    let unread = client.write(&[0; 5000]).is_ok();
    let said = write_whole(&mut writer, b"last").is_ok();
    drop(reader);
    drop(writer);
    if unread && said { Some(client) } else { None }
}

fn last_word_is_read<R: Wait + Copy + Drop>(rt: &R, host: &HostRuntime) -> bool {
    match new_pair(rt, host) {
        Some(pair) => match client_left(pair) {
            Some(client) => reads(host.alloc(), client, b"last"),
            None => false,
        },
        None => false,
    }
}

#[test]
fn a_client_whose_octets_are_left_unread_reads_what_was_written(rt: HostRuntime) {
    assert!(rt; last_word_is_read(&rt, &rt));
}

/// Whether nothing comes on a connection, and that is a fault.
fn is_given_up<R: Wait + Clone + Drop>(reader: &mut TcpSource<R>) -> bool {
    reader.read(&mut [0; 100]) == Err(Failed)
}

/// Whether this side reads so many octets at once.
fn gives<R: Wait + Clone + Drop>(reader: &mut TcpSource<R>, count: usize) -> bool {
    reader.read(&mut [0; 100]) == Ok(count)
}

/// Whether a client that doesn't say anything is given up, and one is kept that has sent its preface and says nothing meanwhile.
fn quiet_is_kept<R: Wait + Clone + Drop>(mute: &mut Pair<R>, quiet: &mut Pair<R>) -> bool {
    quiet.client.write(&[0; 24]).is_ok()
        && gives(&mut quiet.reader, 24)
        && is_given_up(&mut mute.reader)
        && quiet.client.write(&[0; 3]).is_ok()
        && gives(&mut quiet.reader, 3)
}

fn mute_is_given_up<R: Wait + Copy + Drop>(rt: &R, host: &HostRuntime) -> bool {
    match new_pair(rt, host) {
        Some(mut quiet) => match new_pair(rt, host) {
            Some(mut mute) => quiet_is_kept(&mut mute, &mut quiet),
            None => false,
        },
        None => false,
    }
}

#[test]
fn a_client_without_a_preface_is_given_up_and_a_quiet_one_is_not(rt: HostRuntime) {
    assert!(rt; mute_is_given_up(&rt, &rt));
}

/// Numbers of faults of `accept` on Linux, and whose each is.
const ACCEPT_FAULTS: &[(Option<i32>, AcceptFault)] = &[
    (Some(1), AcceptFault::Connection),
    (Some(4), AcceptFault::Connection),
    (Some(71), AcceptFault::Connection),
    (Some(100), AcceptFault::Connection),
    (Some(103), AcceptFault::Connection),
    (Some(113), AcceptFault::Connection),
    (Some(12), AcceptFault::Moment),
    (Some(23), AcceptFault::Moment),
    (Some(24), AcceptFault::Moment),
    (Some(105), AcceptFault::Moment),
    (Some(9), AcceptFault::Listener),
    (Some(22), AcceptFault::Listener),
    (Some(88), AcceptFault::Listener),
    (Some(95), AcceptFault::Listener),
    (None, AcceptFault::Moment),
];

#[test]
fn only_a_fault_of_the_listener_ends_accepting(rt: HostRuntime) {
    for (number, whose) in ACCEPT_FAULTS {
        assert!(rt; AcceptFault::of(*number) == *whose, "{number:?}");
    }
}
