// The name of the file that is written beside another, and the folder of both.
ghost use Rattle.std.specs.Prelude.{◌≡◌, ◌≤◌, length, take};
ghost use Rattle.recovery.specs.Names.{new_name, folder_length};

use streams::text::Path;

// The longest path that a new file is named after.
const LONGEST_PATH: usize = 4000;

// The path with .new at its end; a text without bytes where the path is too long.
pub fn beside(path: &[u8]) -> Path
    ensures { take result.length result.bytes ≡ new_name path.now }
{
    let mut name = Path::empty();
    if path.len() <= LONGEST_PATH {
        name.push(path);
        name.push(b".new");
    }
    name
}

// How many bytes at the front of a path name its folder, the slash among them; 0 where the file is in the folder at hand.
#[tactic(auto, unfolding(crate::specs::Names::folder_to))]
pub fn folder_length(path: &[u8]) -> usize
    ensures upper_bound { (result ≤ length path.now) × (result ≡ length (take result path.now)) }
    ensures value { result ≡ folder_length path.now }
{
    let mut n = 0;
    for (i, b) in path.iter().enumerate() {
        if *b == b'/' {
            n = i + 1;
        }
    }
    n
}
