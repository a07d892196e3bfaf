//! `gnmi_ask`, a client that makes one call of gNMI: over a dial of TCP and the process's standard output it does what its words
//! say (`ask` of ask_command; its specs/Run.antt says what every run is).
#![tactic(auto)]

use ask_command::ask;
use dialing::TcpDial;
use environment::write_whole;
use std::env;
use std::io::ErrorKind;
use std::process::ExitCode;
use std::rt::Env;
use std_environment::StreamSink;

/// The words behind the program's name. Words that aren't UTF-8 are none that the program knows, as are no words.
fn words_of(rt: &(impl Env + AllocGlobal)) -> Result<Vec<String>, ErrorKind> {
    let mut words = Vec::new(rt.alloc());
    match env::args(rt) {
        Err(error) => {
            if error.kind() == ErrorKind::OutOfMemory {
                return Err(ErrorKind::OutOfMemory);
            }
        }
        Ok(args) => {
            for word in args.skip(1) {
                if words.push(word).is_err() {
                    return Err(ErrorKind::OutOfMemory);
                }
            }
        }
    }
    Ok(words)
}

fn main(rt: HostRuntime) -> ExitCode {
    let mut output = StreamSink::of(rt.stdout());
    let Ok(words) = words_of(&rt) else {
        let _ = write_whole(&mut output, b"no memory\n");
        return ExitCode::from(1);
    };
    ExitCode::from(ask(rt.alloc(), words.as_slice(), TcpDial::of(&rt), output).status)
}
