//! Files in memory, and words of command lines.

use file_devices::MemoryFiles;
use std::alloc::Global;

/// Files that hold these bytes by these names.
pub fn files_with(alloc: Global, named: &[(&str, &[u8])]) -> Option<MemoryFiles> {
    let mut files = MemoryFiles::new(alloc);
    for (name, bytes) in named {
        files.put(*name, Vec::from_slice(alloc, *bytes).ok()?).ok()?;
    }
    Some(files)
}

/// A file of this name that holds these bytes.
pub fn file_with(alloc: Global, name: &str, bytes: &[u8]) -> Option<MemoryFiles> {
    files_with(alloc, &[(name, bytes)])
}

/// The words of a command line.
pub fn words_of(alloc: Global, words: &[&str]) -> Option<Vec<String>> {
    let mut owned = Vec::new(alloc);
    for word in words {
        owned.push(String::from_str(alloc, word).ok()?).ok()?;
    }
    Some(owned)
}
