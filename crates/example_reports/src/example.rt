//! An example: a folder with the files of a run, and what is stored of it.

use cq_io::{FetchFault, Shelf, Size};
use std::alloc::{AllocError, Global};

/// The most bytes of what is stored, and of a priority.
const LIMIT: u64 = 1_000_000;

/// The path of a file of the folder.
fn path(alloc: Global, folder: &str, file: &str) -> Result<String, AllocError> {
    format!(in alloc; "{folder}/{file}")
}

/// The words of the job on the files of the folder. The priority is named where there is one.
pub(crate) fn words(
    alloc: Global,
    job: &str,
    folder: &str,
    has_priority: bool,
) -> Result<Vec<String>, AllocError> {
    let mut words = Vec::new(alloc);
    words.push(String::from_str(alloc, job)?)?;
    put_file(&mut words, "--ontology", folder, "ontology.txt")?;
    put_file(&mut words, "--facts", folder, "facts.csv")?;
    put_file(&mut words, "--query", folder, "query.txt")?;
    if has_priority {
        put_file(&mut words, "--priority", folder, "priority.csv")?;
    }
    Ok(words)
}

/// The words of `table` on the folder's report.
pub(crate) fn table_words(alloc: Global, folder: &str) -> Result<Vec<String>, AllocError> {
    let mut words = Vec::new(alloc);
    words.push(String::from_str(alloc, "table")?)?;
    put_file(&mut words, "--report", folder, "report.txt")?;
    Ok(words)
}

/// Puts an option and the path of a file of the folder behind the words.
pub(crate) fn put_file(
    words: &mut Vec<String>,
    option: &str,
    folder: &str,
    file: &str,
) -> Result<(), AllocError> {
    let alloc = *words.allocator();
    words.push(String::from_str(alloc, option)?)?;
    words.push(path(alloc, folder, file)?)?;
    Ok(())
}

/// Whether the folder has a priority.
pub(crate) fn has_priority<S: Shelf>(
    alloc: Global,
    files: &mut S,
    folder: &str,
) -> Result<bool, FetchFault> {
    let path = path(alloc, folder, "priority.csv")?;
    let mut bytes = Vec::new(alloc);
    let size = files.fetch(&path, LIMIT, &mut bytes)?;
    Ok(size != Size::Missing)
}

/// The bytes of a stored file of the folder: none where it isn't there or is too long.
pub(crate) fn stored<S: Shelf>(
    alloc: Global,
    files: &mut S,
    folder: &str,
    file: &str,
) -> Result<Vec<u8>, FetchFault> {
    let path = path(alloc, folder, file)?;
    let mut bytes = Vec::new(alloc);
    files.fetch(&path, LIMIT, &mut bytes)?;
    Ok(bytes)
}
