//! Reading the files of a folder, each whole up to a limit.
use anyhow::{Context, Result};
use std::alloc::AllocError;
use std::fs;
use std::fs::File;
use std::io::{ErrorKind, Read};
use std::path::{Path, PathBuf};

/// How many bytes are read of a file: one more than it may have, by which a longer one is known.
const READ_BYTES: u64 = 60_001;

/// The folder that files are read in.
#[derive(Clone, Copy)]
pub enum Folder<'a> {
    /// The one that the program is run in.
    Here,
    /// One that is there.
    Named(Path<'a>),
}

impl<'a> Folder<'a> {
    /// The folder of this name, if it is there, and is one that the program may look into.
    pub fn named(rt: &HostRuntime, name: &'a str) -> Result<Folder<'a>> {
        let folder = Path::new(name);
        // (this path is there only if all of that is so, and else the system has its reason)
        fs::metadata(rt, folder.join(rt.alloc(), ".")?).context(name)?;
        Ok(Folder::Named(folder))
    }

    /// The path of a file in the folder.
    fn path(&self, rt: &HostRuntime, file: &str) -> Result<PathBuf, AllocError> {
        match self {
            Folder::Here => PathBuf::from_str(rt.alloc(), file),
            Folder::Named(folder) => folder.join(rt.alloc(), file),
        }
    }

    /// The first bytes of a file in the folder, 60,001 at most; none if it can't be opened, and then the reason is said on
    /// standard error, but not of a file that isn't there.
    pub fn read(&self, rt: &HostRuntime, file: &str) -> Result<Vec<u8>> {
        let path = self.path(rt, file)?;
        let path = path.as_str();
        let mut bytes = Vec::new(rt.alloc());
        match File::open(rt, path) {
            Ok(file) => {
                file.take(READ_BYTES).read_to_end(&mut bytes).context(path)?;
            }
            Err(error) if error.kind() == ErrorKind::NotFound => {}
            Err(error) => {
                // (what is printed and the status don't hang on whether this can be said)
                let _ = eprintln!(rt; "lekhnop: {path}: {error}; it counts as empty");
            }
        }
        Ok(bytes)
    }
}
