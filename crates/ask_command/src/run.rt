//! The run.
ghost use Rattle.std.specs.Prelude.{◌≡◌, ◌≤◌, length, codes, None};
ghost use Rattle.ask_command.specs.Printing.{SaysLast};
ghost use Rattle.grpc_core.specs.Messages.{largest_message};
ghost use Rattle.ask_command.specs.Requests.{message_of};
ghost use Rattle.ask_command.specs.Words.{octets_of_words};
ghost use Rattle.ask_command.specs.Run.{AskRun, Obeyed, Obeys, Sends, Talks, longest_address, help_text, version_text, ran};
ghost use Rattle.ask_command.specs.inner.Parsed.{ask_parsed};

use crate::answer::{say_answer, say_no_answer};
use crate::ending::Ending;
use crate::printing::{out_of_memory, print, say_last};
use crate::request::{Request, RequestFault, request_of};
use crate::words::{Ask, Form, form_of};
use base_lists::Bytes;
use dialing::Dial;
use environment::{Sink, Source};
use grpc_client::Client;
use std::alloc::Global;

/// How a run ended.
#[derive(Drop)]
pub struct AskEnd<D: Dial, S: Sink> {
    /// The status that the process is to end with.
    pub status: u8,
    pub dial: D,
    pub out: S,
    /// The connection that the dial gave, as the call left it.
    pub link: Option<(D::Reader, D::Writer)>,
}

/// How a run over a dial ends, and the connection that it gave.
#[derive(Drop)]
struct Outcome<D: Dial> {
    ending: Ending,
    link: Option<(D::Reader, D::Writer)>,
}

/// The longest address, in octets.
const LONGEST_ADDRESS: usize = 1000;

/// The longest message, in octets.
const LARGEST_MESSAGE: usize = 4_194_304;

/// Makes the one call that the words ask for, on a connection that the dial gives, and prints what it is answered. Dials nothing for
/// `--help`, `--version` and words that it doesn't know. specs/Run.antt says what every run is.
pub fn ask<D: Dial, S: Sink>(alloc: Global, words: &[String], dial: D, out: S) -> AskEnd<D, S>
    ensures { AskRun D.Reader.seen D.Writer.seen (octets_of_words words.now) (D.seen dial)
        (D.seen result.dial) result.link (S.seen out) (S.seen result.out) result.status }
{
    let mut dial = dial;
    let mut out = out;
    let Outcome { ending, link } = obey(alloc, words, &mut dial, &mut out);
    AskEnd {
        status: ending.exit_status(),
        dial,
        out,
        link,
    }
}

/// Does what the words say.
fn obey<D: Dial, S: Sink>(alloc: Global, words: &[String], dial: &mut D, out: &mut S) -> Outcome<D>
    ensures { Obeyed D.Reader.seen D.Writer.seen (octets_of_words words.now)
        (ran (D.seen dial.old) (D.seen dial.new) (S.seen out.old) (S.seen out.new) result.link
        result.ending) }
{
    match form_of(words) {
        Some(Form::Call(address, ask)) => call(alloc, address, ask, dial, out),
        Some(Form::Help) => Outcome::without_link(print(help_text(), Ending::Done, out)),
        Some(Form::Version) => Outcome::without_link(print(version_text(), Ending::Done, out)),
        None => Outcome::without_link(bad_words(out)),
    }
}

impl<D: Dial> Outcome<D> {
    /// Of a run that has no connection.
    fn without_link(ending: Ending) -> Outcome<D>
        ensures { result ≡ record { ending = ending; link = None } }
    {
        Outcome { ending, link: None }
    }
}

/// Refuses the words.
fn bad_words<S: Sink>(out: &mut S) -> Ending
    ensures ends { result ≡ Ending.BadWords }
    ensures line { SaysLast (codes "bad words\n") (S.seen out.old) (S.seen out.new) }
{
    say_last(out, b"bad words\n");
    Ending::BadWords
}

/// Makes the call that is asked for at the address.
fn call<D: Dial, S: Sink>(
    alloc: Global,
    address: &str,
    ask: Ask<'_>,
    dial: &mut D,
    out: &mut S,
) -> Outcome<D>
    ensures { Obeys D.Reader.seen D.Writer.seen address.now (ask_parsed ask.entry)
        (ran (D.seen dial.old) (D.seen dial.new) (S.seen out.old) (S.seen out.new) result.link
        result.ending) }
{
    if address.len() > LONGEST_ADDRESS {
        return Outcome::without_link(bad_words(out));
    }
    match request_of(alloc, ask) {
        Ok(request) => send(alloc, address, &request, dial, out),
        Err(RequestFault::BadWords) => Outcome::without_link(bad_words(out)),
        Err(RequestFault::NoMemory) => Outcome::without_link(out_of_memory(out)),
    }
}

/// Sends the request to the address.
fn send<D: Dial, S: Sink>(
    alloc: Global,
    address: &str,
    request: &Request,
    dial: &mut D,
    out: &mut S,
) -> Outcome<D>
    requires { length address.now ≤ longest_address }
    ensures { Sends D.Reader.seen D.Writer.seen address.now request.now
        (ran (D.seen dial.old) (D.seen dial.new) (S.seen out.old) (S.seen out.new) result.link
        result.ending) }
{
    let Ok(message) = request.message(alloc) else {
        return Outcome::without_link(out_of_memory(out));
    };
    if message.len() > LARGEST_MESSAGE {
        return Outcome::without_link(bad_words(out));
    }
    match dial.dial(address) {
        Ok(link) => {
            let (ending, link) = talk(alloc, address, request, &message, link, out);
            Outcome {
                ending,
                link: Some(link),
            }
        }
        Err(_) => Outcome::without_link(say_no_answer(out)),
    }
}

/// Makes the call over a new connection.
fn talk<I: Source, O: Sink, S: Sink>(
    alloc: Global,
    address: &str,
    request: &Request,
    message: &Bytes,
    link: (I, O),
    out: &mut S,
) -> (Ending, (I, O))
    requires short { length address.now ≤ longest_address }
    requires message { message.now ≡ message_of request.now }
    requires fits { length message.now ≤ largest_message }
    ensures { Talks I.seen O.seen address.now request.now link result.1 (S.seen out.old)
        (S.seen out.new) result.0 }
{
    let (input, output) = link;
    let mut client = Client::make(alloc, input, output);
    let answer = client.call(alloc, address.as_bytes(), request.method(), message.items());
    let link = client.give();
    (say_answer(alloc, request, &answer, out), link)
}

/// The lines of `--help`.
fn help_text() -> &'static [u8]
    ensures { result.now ≡ help_text }
{
    b"ADDRESS get PATH: print the rows under PATH, and the stamp of the state that they are of\nADDRESS set PATH JSON: update PATH by a value in JSON, and print the commit's stamp\nADDRESS delete PATH: delete what is under PATH, and print the commit's stamp\nADDRESS trial ID SECONDS PATH JSON: update PATH as a trial that is cancelled after SECONDS unless it is confirmed\nADDRESS confirm ID: confirm the trial ID\nADDRESS cancel ID: cancel the trial ID\nADDRESS capabilities: print the version of gNMI, the models and the encodings of the target\n--help: print these lines\n--version: print the name and the version of the program\n"
}

/// The line of `--version`.
fn version_text() -> &'static [u8]
    ensures { result.now ≡ version_text }
{
    b"gnmi_ask 0.1.0\n"
}
