//! The page of a file, which takes an older one's place only when all of it is written.

use crate::files::INPUT;
use std::fs::{self, File, Metadata};
use std::io::{self, ErrorKind, Write};
use std::os::unix::fs::MetadataExt;

/// The path under which the system has standard input.
const INPUT_PATH: &str = "/dev/stdin";

/// How many names are tried for the new file.
const NAMES: usize = 100;

/// Whether both are one file, whatever their names.
fn is_one(one: &Metadata, other: &Metadata) -> bool {
    one.is_file() && one.dev() == other.dev() && one.ino() == other.ino()
}

/// Whether a page at that path would take the place of the file that is read under that name. Where the system doesn't tell
/// which file standard input is, each file that is there might be it.
pub(crate) fn is_over_input(rt: &HostRuntime, path: &str, name: &str) -> bool {
    let Ok(page) = fs::metadata(rt, path) else {
        return false;
    };
    let input = if name == INPUT { INPUT_PATH } else { name };
    match fs::metadata(rt, input) {
        Ok(input) => is_one(&page, &input),
        Err(_) => name == INPUT && page.is_file(),
    }
}

/// A new file beside the one at that path, and its own path.
fn new_file(rt: &HostRuntime, path: &str) -> io::Result<(String, File)> {
    for number in 0..NAMES {
        let name = format!(in rt.alloc(); "{path}.{number}.new")?;
        match File::create_new(rt, name.as_str()) {
            Ok(file) => return Ok((name, file)),
            Err(error) if error.kind() == ErrorKind::AlreadyExists => (),
            Err(error) => return Err(error),
        }
    }
    Err(ErrorKind::AlreadyExists.into())
}

/// Writes all of a page to a new file.
fn fill(mut file: File, page: &str) -> io::Result<()> {
    file.write_all(page.as_bytes())?;
    file.sync_all()
}

/// Writes a page to a new file, which then takes the place of the one at that path, if there is one.
fn replace(rt: &HostRuntime, path: &str, page: &str) -> io::Result<()> {
    let (name, file) = new_file(rt, path)?;
    let replaced = match fill(file, page) {
        Ok(()) => fs::rename(rt, name.as_str(), path),
        Err(error) => Err(error),
    };
    if replaced.is_err() {
        let _ = fs::remove_file(rt, name.as_str());
    }
    replaced
}

/// Writes a page to a path. Where that fails, the file that was there stays as it was. A link stays a link, and what is no file,
/// as a device, is written to as it is.
pub(crate) fn write_page(rt: &HostRuntime, path: &str, page: &str) -> io::Result<()> {
    match fs::metadata(rt, path) {
        Ok(found) if !found.is_file() => fs::write(rt, path, page),
        Ok(_) => {
            let path = fs::canonicalize(rt, path)?.into_string();
            replace(rt, path.as_str(), page)
        }
        Err(_) => replace(rt, path, page),
    }
}
