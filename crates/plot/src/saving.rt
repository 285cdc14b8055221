// The image in a file: never over a file that is there already, and never half written.
use anyhow::anyhow;
use std::fs::File;
use std::io::Write;
use std::{fs, io};

fn write_new(rt: &HostRuntime, path: &str, image: &[u8]) -> io::Result<()> {
    File::create_new(rt, path)?.write_all(image)
}

// Writes a new file; one that is there already is left as it is.
pub(crate) fn save_new(rt: &HostRuntime, path: &str, image: &[u8]) -> anyhow::Result<()> {
    if fs::exists(rt, path)? {
        return Err(anyhow!("the file is there already and was left as it is: name a new one"));
    }
    write_new(rt, path, image).map_err(|e| anyhow!("{path}: {e}"))
}

fn replace(rt: &HostRuntime, path: &str, image: &[u8]) -> io::Result<()> {
    let beside = format!(in rt.alloc(); "{path}.new")?;
    fs::write(rt, beside.as_str(), image)?;
    fs::rename(rt, beside.as_str(), path)
}

// Writes beside the file and then takes its place, so that a write that fails leaves the old file.
pub(crate) fn save(rt: &HostRuntime, path: &str, image: &[u8]) -> anyhow::Result<()> {
    replace(rt, path, image).map_err(|e| anyhow!("{path}: {e}"))
}
