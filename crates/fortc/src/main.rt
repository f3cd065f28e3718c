//! The program: reads its words, and runs the command on real files and on the standard streams.
#![tactic(auto)]

use fc_base::{NoMemory, Sink, Words};
use fort_driver::{Outcome, fault_line, fort, status};
use fort_files::{FileStore, StdSink, StdSource};
use std::env;
use std::io::ErrorKind;
use std::process::ExitCode;
use std::rt::Env;

/// What is printed where no memory is left for the words.
const NO_MEMORY_LINE: &[u8] = b"fortc: no memory\n";

/// The words after the program's name, none where one is not UTF-8.
fn words_of<R: Env + AllocGlobal>(rt: &R) -> Result<Option<Words>, NoMemory> {
    let mut words = Words::new(rt.alloc());
    match env::args(rt) {
        Ok(args) => {
            for word in args.skip(1) {
                words.push(word.as_str())?;
            }
            Ok(Some(words))
        }
        Err(e) if e.kind() == ErrorKind::OutOfMemory => Err(NoMemory),
        Err(_) => Ok(None),
    }
}

fn main(rt: HostRuntime) -> ExitCode {
    let mut err = StdSink::new(rt.stderr());
    let Ok(words) = words_of(&rt) else {
        let _ = err.write(NO_MEMORY_LINE);
        return ExitCode::from(status(&Outcome::NoMemory));
    };
    let outcome = match words {
        Some(words) => {
            let mut store = FileStore::new(rt.alloc(), &rt);
            let mut input = StdSource::new(rt.stdin());
            let mut out = StdSink::new(rt.stdout());
            fort(
                rt.alloc(),
                &words,
                &mut store,
                &mut input,
                &mut out,
                &mut err,
            )
        }
        None => Outcome::Usage,
    };
    if let Ok(line) = fault_line(rt.alloc(), &outcome) {
        let _ = err.write(line.bytes());
    }
    ExitCode::from(status(&outcome))
}
