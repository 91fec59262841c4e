//! Where paths lead in folders in memory, a `Tree`.

ghost use Rattle.std.specs.Prelude.{◌≡◌, ◌++◌, IfOk, IsErrOf, None, option_copied, option_map};
ghost use Rattle.std.specs.Prelude.{string_bytes};
ghost use Rattle.std.specs.Path.{path_buf_bytes};
ghost use Rattle.irig_folders.specs.Log.{leads_in};
ghost use Rattle.irig_folders.specs.Links.{end_of, text_at, text_of};
ghost use Rattle.irig_folders.specs.{Places.over, Places.place_in, Tree.IsFound};
ghost use Rattle.irig_folders.specs.TreeFiles.{file_to};
ghost use Rattle.irig_folders.specs.declared.memory_fault.MemoryFault.TheVariants.{NoSuchName};
ghost use Rattle.irig_files.specs.Paths.{followed};

use crate::layout::{Other, front_at, other_at};
use crate::memory_fault::MemoryFault;
use crate::names::file_at;
use crate::tree::Tree;
use irig_files::folder_of;
use std::alloc::{AllocError, Global};
use std::path::{Path, PathBuf};

/// The place of a path, whether a file is there or not; links are not followed. `None` if it has no
/// name at its end, as `a/..`, or is in no folder.
pub fn place_at(tree: &Tree, path: &str) -> Result<Option<String>, AllocError>
    ensures { IfOk result (λ place. option_map string_bytes place
        ≡ place_in tree.now.layout.folders.items path.now) }
{
    let Some(name) = Path::new(path).file_name() else {
        return Ok(None);
    };
    let Some(front) = front_at(&tree.layout.folders, folder_of(path).as_bytes()) else {
        return Ok(None);
    };
    let place = both(tree.alloc, front, name)?;
    Ok(Some(place))
}

/// The text `one` and after it the text `other`.
pub fn both(alloc: Global, one: &str, other: &str) -> Result<String, AllocError>
    ensures { IfOk result (λ all. string_bytes all ≡ one.now ++ other.now) }
{
    let mut all = String::from_str(alloc, one)?;
    all.push_str(other)?;
    Ok(all)
}

/// The path that has this text.
pub fn path_of(alloc: Global, text: &str) -> Result<PathBuf, AllocError>
    ensures { IfOk result (λ path. path_buf_bytes path ≡ text.now) }
{
    let text = String::from_str(alloc, text)?;
    Ok(PathBuf::from(text))
}

/// The text of a file, if it is a link; `None` for a regular one.
fn text_in(other: Option<&Other>) -> Option<&str>
    ensures { option_copied result ≡ text_of (option_copied other.entry) }
{
    match other {
        Some(
            Other {
                text: Some(text),
                ..
            },
        ) => Some(text.as_str()),
        _ => None,
    }
}

/// The text of the link that is itself at a path.
pub fn link_text<'t>(tree: &'t Tree, path: &str) -> Result<Option<&'t str>, AllocError>
    ensures { IfOk result (λ text. option_copied text ≡ text_at tree.now.layout.folders.items
        (over tree.now.layout (leads_in tree.now.memory.calls.items)) path.now) }
{
    let Some(place) = place_at(tree, path)? else {
        return Ok(None);
    };
    let Some(file) = file_at(tree.memory.calls(), place.as_bytes()) else {
        return Ok(None);
    };
    Ok(text_in(other_at(&tree.layout.others, file)))
}

/// Follows links from a path, at most `links` of them, to the path where no link is. `None` if
/// there are more.
pub fn end_at(tree: &Tree, path: PathBuf, links: u64) -> Result<Option<PathBuf>, AllocError>
    ensures { IfOk result (λ end. option_map path_buf_bytes end ≡ end_of
        (text_at tree.now.layout.folders.items
        (over tree.now.layout (leads_in tree.now.memory.calls.items))) links
        (path_buf_bytes path)) }
{
    match link_text(tree, path.as_str())? {
        None => Ok(Some(path)),
        Some(_) if links == 0 => Ok(None),
        Some(text) => {
            let next = next_path(path, text)?;
            end_at(tree, next, links - 1)
        }
    }
}

/// The path to which a link leads. Its text counts from its folder, so `pop` takes the link's name
/// away; for one that begins with a slash, `push` replaces the whole path.
fn next_path(mut path: PathBuf, text: &str) -> Result<PathBuf, AllocError>
    ensures { IfOk result (λ next. path_buf_bytes next ≡ followed (path_buf_bytes path) text.now) }
{
    path.pop();
    path.push(text)?;
    Ok(path)
}

/// The number of the file that a path leads to, over links. `NoSuchName` if it leads over too many
/// links, or ends at a path without a place.
pub fn find(tree: &Tree, path: &str) -> Result<Option<usize>, MemoryFault>
    ensures found { IfOk result (λ found. IsFound tree.now.layout
        (leads_in tree.now.memory.calls.items) path.now found) }
    ensures nowhere { IsErrOf result NoSuchName → file_to tree.now.layout
        (leads_in tree.now.memory.calls.items) path.now ≡ None }
{
    let start = path_of(tree.alloc, path)?;
    let Some(end) = end_at(tree, start, tree.layout.limit)? else {
        return Err(MemoryFault::NoSuchName);
    };
    let Some(place) = place_at(tree, end.as_str())? else {
        return Err(MemoryFault::NoSuchName);
    };
    Ok(file_at(tree.memory.calls(), place.as_bytes()))
}
