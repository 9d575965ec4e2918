//! Extracts a run of statements of a Rust file into a function of its own, or checks or runs the file.
#![tactic(auto)]

ghost use Rattle.std.specs.Prelude.{◌≡◌, map, drop, string_bytes, IfOk};

use rx_core::{List, StdSink, StdSource, Text};
use rx_modes_policy::{ByCopy, ByReference};
use rx_rem_command::{Status, rem, report_name};
use std::alloc::{AllocError, Global};
use std::env;
use std::io::ErrorKind;
use std::process::ExitCode;

/// Copies of texts.
fn texts_of(alloc: Global, given: &[String]) -> Result<List<Text>, AllocError>
    ensures { IfOk result (λ texts. texts ≡ map string_bytes given.now) }
{
    let mut texts = List::new(alloc);
    for text in given {
        texts.push(Text::new(alloc, text.as_str())?)?;
    }
    Ok(texts)
}

/// The words behind the program's name.
fn words_of(alloc: Global, given: &[String]) -> Result<List<Text>, AllocError>
    ensures { IfOk result (λ words. words ≡ map string_bytes (drop 1 given.now)) }
{
    match given {
        [_program, words @ ..] => texts_of(alloc, words),
        [] => Ok(List::new(alloc)),
    }
}

fn main(rt: HostRuntime) -> ExitCode {
    let mut err = StdSink::new(rt.stderr());
    // A word that is not UTF-8 is a faulty command line.
    let words = match env::args(&rt) {
        Ok(args) => match args.collect::<Vec<String>>(rt.alloc()) {
            Ok(given) => words_of(rt.alloc(), given.as_slice()).map_err(|_| Status::OutOfMemory),
            Err(_) => Err(Status::OutOfMemory),
        },
        Err(error) if error.kind() == ErrorKind::OutOfMemory => Err(Status::OutOfMemory),
        Err(_) => Err(Status::Usage),
    };
    let status = match words {
        Ok(words) => {
            let mut source = StdSource::new(rt.stdin());
            let mut out = StdSink::new(rt.stdout());
            rem(
                rt.alloc(),
                &words,
                &mut source,
                &mut out,
                &mut err,
                &ByCopy,
                &ByReference,
            )
        }
        Err(status) => report_name(&mut err, status),
    };
    ExitCode::from(status.code())
}
