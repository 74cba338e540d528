use std::rt::Files;
use std::{fs, io};

/// The names that end so in the folder that the program runs in, in order; a folder's name counts too. The
/// error is that of reading the folder, or want of memory.
pub fn file_names(
    rt: &(impl Files + AllocGlobal + Clone + Drop),
    ending: &str,
) -> io::Result<Vec<String>> {
    let mut names = Vec::new(rt.alloc());
    for entry in fs::read_dir(rt, ".")? {
        let entry = entry?;
        if entry.file_name().ends_with(ending) {
            names.push(String::from_str(rt.alloc(), entry.file_name())?)?;
        }
    }
    names.sort()?;
    Ok(names)
}
