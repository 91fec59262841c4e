//! Which folders in memory there are, and which files in them are no regular ones.

ghost use Rattle.std.specs.Prelude.{◌≡◌, is_none, option_copied};
ghost use Rattle.irig_folders.specs.{Places.front_in, Places.other_in, TreeFiles.output_in};

/// A path of a folder. A folder can have many.
#[derive(Drop)]
pub struct FolderPath {
    pub path: String,
    /// What the places of names in the folder begin with.
    pub front: String,
}

/// A file that counts as no regular one: a link, a pipe, or the file that the answers go to.
#[derive(Drop)]
pub struct Other {
    pub number: usize,
    /// Where it leads, if it is a link.
    pub text: Option<String>,
    /// Whether the program's answers go to it.
    pub takes_answers: bool,
}

/// The folders and other files there are; a path may follow up to `limit` links.
#[derive(Drop)]
pub struct Layout {
    pub folders: Vec<FolderPath>,
    pub others: Vec<Other>,
    pub limit: u64,
}

/// The front of a folder by one of its paths. Lists are looked through from their first item on, so
/// the first that fits counts.
pub fn front_at<'f>(folders: &'f [FolderPath], path: &[u8]) -> Option<&'f str>
    ensures { option_copied result ≡ front_in folders.now path.now }
{
    let (folder, rest) = folders.split_first()?;
    if folder.path.as_bytes() == path {
        return Some(folder.front.as_str());
    }
    front_at(rest, path)
}

/// Whether the file of this number is a regular one.
pub fn is_regular(others: &[Other], number: usize) -> bool
    ensures { result ≡ is_none (other_in others.now number) }
{
    other_at(others, number).is_none()
}

/// The file of this number, if it is no regular one.
pub fn other_at<'o>(others: &'o [Other], number: usize) -> Option<&'o Other>
    ensures { option_copied result ≡ other_in others.now number }
{
    let (other, rest) = others.split_first()?;
    if other.number == number {
        return Some(other);
    }
    other_at(rest, number)
}

/// The number of the file that the program's answers (its standard output) go to.
pub fn output_at(others: &[Other]) -> Option<usize>
    ensures { result ≡ output_in others.now }
{
    let (other, rest) = others.split_first()?;
    if other.takes_answers {
        return Some(other.number);
    }
    output_at(rest)
}
