//! `lrt`: prints what LR(1) tables are made of, and runs them.
#![tactic(auto)]

use lrcommand::{Fault, Source, USAGE, command, requested};
use std::alloc::AllocError;
use std::io::{self, Read};
use std::process::ExitCode;
use std::{env, fs};

/// The bytes of the source that the arguments name; None where they can't be had, and where the arguments are wrong
/// usage.
fn input(rt: &HostRuntime, args: &[String]) -> Result<Option<Vec<u8>>, AllocError> {
    let Some(request) = requested(args) else {
        return Ok(None);
    };
    let mut bytes = Vec::new(rt.alloc());
    let read = match request.source {
        Source::File(name) => match fs::File::open(rt, name) {
            Ok(mut file) => file.read_to_end(&mut bytes),
            Err(error) => Err(error),
        },
        Source::StandardInput => rt.stdin().read_to_end(&mut bytes),
    };
    match read {
        Ok(_) => Ok(Some(bytes)),
        Err(error) if error.kind() == io::ErrorKind::OutOfMemory => Err(AllocError),
        Err(_) => Ok(None),
    }
}

/// The arguments without the program's name.
fn arguments(rt: &HostRuntime) -> io::Result<Vec<String>> {
    let mut args = Vec::new(rt.alloc());
    for arg in env::args(rt)?.skip(1) {
        args.push(arg)?;
    }
    Ok(args)
}

/// Tells that memory was refused.
fn out_of_memory(rt: &HostRuntime) -> ExitCode {
    let _ = eprintln!(rt; "lrt: {}", Fault::Memory);
    ExitCode::from(1)
}

fn main(rt: HostRuntime) -> ExitCode {
    let args = match arguments(&rt) {
        Ok(args) => args,
        Err(error) if error.kind() == io::ErrorKind::OutOfMemory => return out_of_memory(&rt),
        Err(_) => {
            // An argument is not UTF-8.
            let _ = eprintln!(rt; "{USAGE}");
            return ExitCode::from(2);
        }
    };
    let Ok(bytes) = input(&rt, args.as_slice()) else {
        return out_of_memory(&rt);
    };
    let file = bytes.as_ref().map(|bytes| bytes.as_slice());
    let (status, _, _) = command(
        rt.alloc(),
        args.as_slice(),
        file,
        rt.stdin(),
        rt.stdout(),
        rt.stderr(),
    );
    ExitCode::from(status)
}
