//! Trees and sinks tried on worked cases, the real file system among them.
use crate::odd_files::OddFiles;
use file_tree::*;
use os_tree::{OsSink, OsTree};
use std::alloc::{AllocError, Global};
use std::fs::Permissions;
use std::io::ErrorKind;
use std::os::unix::fs::{MetadataExt, PermissionsExt};
use std::process::Abort;
use std::test::Fail;
use std::{fs, io};

/// One call of a tree.
#[derive(Clone, Copy)]
enum Step {
    Put(&'static str, u32, &'static str),
    Pieces(&'static str, u32, &'static str, &'static str),
    Link(&'static str, &'static str),
    Read(&'static str, u64),
    List(&'static str, u64),
    Rename(&'static str, &'static str),
    Remove(&'static str),
    Settle,
}

fn error_text(e: TreeErr) -> &'static str {
    match e {
        TreeErr::Failed => "failed",
        TreeErr::NoMemory => "no memory",
    }
}

fn done_text(alloc: Global, given: Result<(), TreeErr>) -> Result<String, AllocError> {
    match given {
        Ok(()) => String::from_str(alloc, "ok"),
        Err(e) => String::from_str(alloc, error_text(e)),
    }
}

fn found_text(alloc: Global, given: Result<Found, TreeErr>) -> Result<String, AllocError> {
    match given {
        Ok(Found::Absent) => String::from_str(alloc, "absent"),
        Ok(Found::Folder) => String::from_str(alloc, "folder"),
        Ok(Found::File { bytes, mode }) => {
            let text = str::from_utf8(bytes.as_slice()).unwrap_or("?");
            format!(in alloc; "file {mode:o} {text}")
        }
        Ok(Found::Link { target }) => {
            let target = target.as_str();
            format!(in alloc; "link {target}")
        }
        Ok(Found::TooLarge { size }) => format!(in alloc; "too large {size}"),
        Err(e) => String::from_str(alloc, error_text(e)),
    }
}

fn listed_text(alloc: Global, given: Result<Listed, TreeErr>) -> Result<String, AllocError> {
    match given {
        Ok(Listed::Paths(paths)) => {
            let mut text = String::from_str(alloc, "paths")?;
            for path in paths.as_slice() {
                text.push_str(" ")?;
                text.push_str(path.as_str())?;
            }
            Ok(text)
        }
        Ok(Listed::TooMany) => String::from_str(alloc, "too many"),
        Err(e) => String::from_str(alloc, error_text(e)),
    }
}

fn file(alloc: Global, mode: u32, text: &str) -> Result<Node, AllocError> {
    let bytes = Blob::from_slice(alloc, text.as_bytes())?;
    Ok(Node::File { bytes, mode })
}

fn link(alloc: Global, target: &str) -> Result<Node, AllocError> {
    let target = Text::copy_of(alloc, target)?;
    Ok(Node::Link { target })
}

fn put_pieces<T: Tree>(
    alloc: Global,
    tree: &mut T,
    path: &str,
    mode: u32,
    front: &str,
    back: &str,
) -> Result<String, AllocError> {
    let pieces = [front.as_bytes(), "".as_bytes(), back.as_bytes()];
    done_text(alloc, tree.put_pieces(path, &pieces, mode))
}

fn put<T: Tree>(alloc: Global, tree: &mut T, path: &str, node: Node) -> Result<String, AllocError> {
    done_text(alloc, tree.put(path, &node))
}

/// What the tree answers to the step.
fn answer<T: Tree>(alloc: Global, tree: &mut T, step: &Step) -> Result<String, AllocError> {
    match step {
        Step::Put(path, mode, text) => put(alloc, tree, path, file(alloc, *mode, text)?),
        Step::Pieces(path, mode, front, back) => {
            put_pieces(alloc, tree, path, *mode, front, back)
        }
        Step::Link(path, target) => put(alloc, tree, path, link(alloc, target)?),
        Step::Read(path, limit) => found_text(alloc, tree.read(path, *limit)),
        Step::List(folder, limit) => listed_text(alloc, tree.list(folder, *limit)),
        Step::Rename(from, to) => done_text(alloc, tree.rename(from, to)),
        Step::Remove(path) => done_text(alloc, tree.remove(path)),
        Step::Settle => done_text(alloc, tree.settle()),
    }
}

/// Tries the steps one after the other, each with the answer that it is to have.
fn try_steps<T: Tree>(
    rt: &impl Abort,
    alloc: Global,
    tree: &mut T,
    steps: &[(Step, &'static str)],
) -> Result<(), AllocError> {
    for i in 0..steps.len() {
        let given = answer(alloc, tree, &steps[i].0)?;
        assert_eq!(rt; given.as_str(), steps[i].1, "row {i}");
    }
    Ok(())
}

/// Calls that every tree answers alike, below a folder that isn't there at first.
const COMMON: [(Step, &str); 26] = [
    (Step::List("tree", 9), "paths"),
    (Step::Read("tree/a", 9), "absent"),
    (Step::Put("tree/a/c", 0o1666, "first"), "ok"),
    (Step::Put("tree/a.b", 0o600, "second"), "ok"),
    (Step::Link("tree/to", "../elsewhere"), "ok"),
    (Step::Read("tree/a/c", 5), "file 1666 first"),
    (Step::Read("tree/a/c", 3), "too large 5"),
    (Step::Read("tree/to", 0), "link ../elsewhere"),
    (Step::Read("tree/a", 9), "folder"),
    (Step::List("tree", 3), "paths tree/a.b tree/a/c tree/to"),
    (Step::List("tree", 2), "too many"),
    (Step::List("tree/a", 1), "paths tree/a/c"),
    (Step::Settle, "ok"),
    (Step::Rename("tree/to", "tree/a/c"), "ok"),
    (Step::Read("tree/a/c", 9), "link ../elsewhere"),
    (Step::Rename("tree/missing", "tree/a.b"), "ok"),
    (Step::Remove("tree/missing"), "ok"),
    (Step::Put("tree/a/c", 0o444, "third"), "ok"),
    (Step::Read("tree/a/c", 9), "file 444 third"),
    (Step::Pieces("tree/a.b", 0o640, "in ", "pieces"), "ok"),
    (Step::Read("tree/a.b", 9), "file 640 in pieces"),
    (Step::Pieces("tree/a.b", 0o444, "", ""), "ok"),
    (Step::Read("tree/a.b", 0), "file 444 "),
    (Step::Remove("tree/a.b"), "ok"),
    (Step::Settle, "ok"),
    (Step::List("tree", u64::MAX), "paths tree/a/c"),
];

#[test]
fn a_tree_in_memory_answers_as_its_map(rt: HostRuntime) -> Result<(), Fail> {
    let mut tree = MemTree::new(rt.alloc(), Vec::new(rt.alloc()))?;
    try_steps(&rt, rt.alloc(), &mut tree, &COMMON)?;
    assert_eq!(rt; tree.calls().len(), COMMON.len());
    assert_eq!(rt; tree.settle_count(), 2);
    assert_eq!(rt; tree.nodes().len(), 1);
    Ok(())
}

/// Calls on what only a real file system has, after `COMMON`.
const REAL: [(Step, &str); 21] = [
    (Step::Put("tree/a", 0o600, "folder in the way"), "failed"),
    (Step::Put("tree/a/c/d", 0o600, "file in the way"), "failed"),
    (Step::Put("/dev/full", 0o600, "device in the way"), "failed"),
    (Step::Read("/dev/full", 99), "absent"),
    (Step::Remove("/dev/full"), "ok"),
    (Step::Rename("/dev/full", "tree/a/c"), "ok"),
    (Step::Rename("tree/a/c", "/dev/full"), "failed"),
    (Step::Rename("tree/a/c", "tree/a"), "failed"),
    (Step::Read("tree/a/c/d", 9), "absent"),
    (Step::Rename("tree/a", "tree/b"), "ok"),
    (Step::Remove("tree/a"), "ok"),
    (Step::Read("tree/a", 9), "folder"),
    (Step::Link("tree/to", "a/c"), "ok"),
    (Step::Put("tree/to", 0o7751, "link replaced"), "ok"),
    (Step::Read("tree/to", 99), "file 7751 link replaced"),
    (Step::Read("tree/a/c", 9), "file 444 third"),
    (Step::Rename("tree/to", "tree/z/to"), "ok"),
    (Step::Read("tree/to", 9), "absent"),
    (Step::Put("tree/y", 0o600, "before z"), "ok"),
    (Step::List("tree", 9), "paths tree/a/c tree/y tree/z/to"),
    (Step::Settle, "ok"),
];

/// Tries that the steps note a folder: the next settle opens it, and fails where it became a loop of
/// links.
fn try_noting<T: Tree>(
    rt: &impl Abort,
    files: &HostRuntime,
    tree: &mut T,
    steps: &[(Step, &'static str)],
) -> Result<(), Fail> {
    let alloc = files.alloc();
    try_steps(rt, alloc, tree, steps)?;
    fs::remove_dir(files, "tree/noted")?;
    std::os::unix::fs::symlink(files, "noted", "tree/noted")?;
    try_steps(rt, alloc, tree, &[(Step::Settle, "failed")])?;
    fs::remove_file(files, "tree/noted")?;
    try_steps(rt, alloc, tree, &[(Step::Settle, "ok")])?;
    Ok(())
}

/// Steps that note a folder: a put in it, and a list of it.
const NOTED_BY_A_PUT: [(Step, &str); 3] = [
    (Step::Put("tree/noted/file", 0o600, "put"), "ok"),
    (Step::Settle, "ok"),
    (Step::Remove("tree/noted/file"), "ok"),
];

const NOTED_BY_A_LIST: [(Step, &str); 3] = [
    (Step::Settle, "ok"),
    (Step::List("tree/noted", 9), "paths"),
    (Step::Read("tree/noted/file", 9), "absent"),
];

#[test]
fn the_real_file_system_answers_alike(rt: HostRuntime) -> Result<(), Fail> {
    match fs::remove_dir_all(&rt, "tree") {
        Ok(()) => {}
        Err(e) => assert_eq!(rt; e.kind(), ErrorKind::NotFound),
    }
    let mut tree = OsTree::new(&rt);
    try_steps(&rt, rt.alloc(), &mut tree, &COMMON)?;
    try_steps(&rt, rt.alloc(), &mut tree, &REAL)?;
    try_noting(&rt, &rt, &mut tree, &NOTED_BY_A_PUT)?;
    fs::create_dir(&rt, "tree/noted")?;
    try_noting(&rt, &rt, &mut tree, &NOTED_BY_A_LIST)?;
    fs::remove_dir_all(&rt, "tree")?;
    Ok(())
}

/// Makes the folder anew, with the file `a` in the folder `in` of it.
fn make_place(files: &HostRuntime, place: &str) -> Result<(), Fail> {
    let alloc = files.alloc();
    let _ = fs::remove_dir_all(files, place);
    let inner = format!(in alloc; "{place}/in")?;
    fs::create_dir_all(files, inner.as_str())?;
    let path = format!(in alloc; "{place}/in/a")?;
    fs::write(files, path.as_str(), b"first")?;
    Ok(())
}

/// Calls on a folder and a link to it: a name that is gone is forgotten, and may be put under another spelling.
const FORGOTTEN: [(Step, &str); 17] = [
    (Step::Read("forgotten/in/a", 9), "file 644 first"),
    (Step::Put("forgotten/by/a", 0o644, "lost"), "failed"),
    (Step::Rename("forgotten/in/a", "forgotten/in/b"), "ok"),
    (Step::Put("forgotten/by/a", 0o600, "second"), "ok"),
    (Step::Put("forgotten/in/a", 0o600, "lost"), "failed"),
    (Step::Put("forgotten/by/b", 0o600, "lost"), "failed"),
    (Step::Remove("forgotten/in/b"), "ok"),
    (Step::Put("forgotten/by/b", 0o600, "third"), "ok"),
    (Step::Remove("forgotten/in/b"), "ok"),
    (Step::Put("forgotten/in/b", 0o600, "fourth"), "ok"),
    (Step::Rename("forgotten/in/b", "forgotten/in/b"), "ok"),
    (Step::Put("forgotten/by/b", 0o600, "lost"), "failed"),
    (Step::Rename("forgotten/in/b", "forgotten/in/a"), "failed"),
    (Step::Rename("forgotten/by/a", "forgotten"), "failed"),
    (Step::Put("forgotten/in/a", 0o600, "lost"), "failed"),
    (Step::Read("forgotten/in/a", 9), "file 600 second"),
    (Step::Read("forgotten/in/b", 9), "file 600 fourth"),
];

#[test]
fn a_name_that_is_gone_may_be_put_under_another_spelling(rt: HostRuntime) -> Result<(), Fail> {
    make_place(&rt, "forgotten")?;
    std::os::unix::fs::symlink(&rt, "in", "forgotten/by")?;
    let mut tree = OsTree::new(&rt);
    try_steps(&rt, rt.alloc(), &mut tree, &FORGOTTEN)?;
    fs::remove_dir_all(&rt, "forgotten")?;
    Ok(())
}

/// Calls below a folder that was listed, where a link is on the way.
const LINKED: [(Step, &str); 10] = [
    (Step::List("linked", 9), "paths linked/by linked/in/a"),
    (Step::Read("linked/by", 9), "link in"),
    (Step::Read("linked/by/a", 9), "failed"),
    (Step::Read("linked/by/none", 0), "failed"),
    (Step::Put("linked/by/b", 0o600, "put"), "failed"),
    (Step::Rename("linked/in/a", "linked/by/b"), "failed"),
    (Step::Rename("linked/by/a", "linked/in/b"), "failed"),
    (Step::Remove("linked/by/a"), "failed"),
    (Step::List("linked/by", 9), "paths"),
    (Step::List("linked", 9), "paths linked/by linked/in/a"),
];

/// The same where a file behind the link was read before the list, and one was that is put again.
const LINKED_EARLY: [(Step, &str); 8] = [
    (Step::Read("linked/by/a", 9), "file 644 first"),
    (Step::Put("linked/by/b", 0o600, "second"), "ok"),
    (Step::Put("linked/in/c", 0o600, "third"), "ok"),
    (
        Step::List("linked", 9),
        "paths linked/by linked/in/a linked/in/b linked/in/c",
    ),
    (Step::Read("linked/by/a", 9), "failed"),
    (Step::Put("linked/by/b", 0o600, "lost"), "failed"),
    (Step::Remove("linked/by/b"), "failed"),
    (Step::Put("linked/in/c", 0o600, "again"), "ok"),
];

#[test]
fn no_link_on_the_way_is_followed_below_the_folder_of_the_first_list(
    rt: HostRuntime,
) -> Result<(), Fail> {
    make_place(&rt, "linked")?;
    std::os::unix::fs::symlink(&rt, "in", "linked/by")?;
    let mut tree = OsTree::new(&rt);
    try_steps(&rt, rt.alloc(), &mut tree, &LINKED)?;
    let mut tree = OsTree::new(&rt);
    try_steps(&rt, rt.alloc(), &mut tree, &LINKED_EARLY)?;
    fs::remove_dir_all(&rt, "linked")?;
    Ok(())
}

/// Names of 143 and of 144 bytes in a folder that isn't there.
const SURE: &str =
    "barred/none/nnnnnnnnnnnnnnnnnnnnnnnnnnnnnnnnnnnnnnnnnnnnnnnnnnnnnnnnnnnnnnnnnnnnnnnnnnnnnnnnnnnnnnnnnnnnnnnnnnnnnnnnnnnnnnnnnnnnnnnnnnnnnnnnnnnnnnnnnnnnnnn";

const UNSURE: &str =
    "barred/none/nnnnnnnnnnnnnnnnnnnnnnnnnnnnnnnnnnnnnnnnnnnnnnnnnnnnnnnnnnnnnnnnnnnnnnnnnnnnnnnnnnnnnnnnnnnnnnnnnnnnnnnnnnnnnnnnnnnnnnnnnnnnnnnnnnnnnnnnnnnnnnnn";

/// Looks at them below a folder that was listed, where a name has 143 bytes at most.
const BARRED: [(Step, &str); 3] = [
    (Step::List("barred", 9), "paths barred/in/a"),
    (Step::Read(SURE, 0), "absent"),
    (Step::Read(UNSURE, 0), "failed"),
];

#[test]
fn a_name_that_is_too_long_elsewhere_is_a_fault_below_the_folder_of_the_first_list(
    rt: HostRuntime,
) -> Result<(), Fail> {
    make_place(&rt, "barred")?;
    let mut tree = OsTree::new(OddFiles { files: &rt });
    try_steps(&rt, rt.alloc(), &mut tree, &BARRED)?;
    fs::remove_dir_all(&rt, "barred")?;
    Ok(())
}

/// Reads of a file of 6 bytes that took the place of one of 4, and a put with its mode.
const SWAPPED: [(Step, &str); 4] = [
    (Step::Read("replaced/in/swapped", 3), "too large 4"),
    (Step::Read("replaced/in/swapped", 5), "too large 6"),
    (Step::Read("replaced/in/swapped", 6), "file 4750 opened"),
    (Step::Put("replaced/put", 0o4750, "put"), "ok"),
];

/// Makes the file of these bytes, with this mode.
fn make_file(files: &HostRuntime, path: &str, bytes: &[u8], mode: u32) -> Result<(), Fail> {
    fs::write(files, path, bytes)?;
    // Only the superuser gives a file away.
    let _ = std::os::unix::fs::lchown(files, path, Some(1234), Some(5678));
    fs::set_permissions(files, path, Permissions::from_mode(mode))?;
    Ok(())
}

#[test]
fn what_is_said_of_a_file_is_of_the_one_that_was_opened(rt: HostRuntime) -> Result<(), Fail> {
    make_place(&rt, "replaced")?;
    make_file(&rt, "replaced/in/looked", b"look", 0o640)?;
    make_file(&rt, "replaced/in/swapped", b"opened", 0o4750)?;
    let mut tree = OsTree::new(OddFiles { files: &rt });
    try_steps(&rt, rt.alloc(), &mut tree, &SWAPPED)?;
    let opened = fs::symlink_metadata(&rt, "replaced/in/swapped")?;
    let put = fs::symlink_metadata(&rt, "replaced/put")?;
    assert_eq!(rt; put.uid(), opened.uid());
    assert_eq!(rt; put.gid(), opened.gid());
    fs::remove_file(&rt, "replaced/in/swapped")?;
    fs::create_dir(&rt, "replaced/in/swapped")?;
    try_steps(
        &rt,
        rt.alloc(),
        &mut tree,
        &[(Step::Read("replaced/in/swapped", 6), "failed")],
    )?;
    fs::remove_dir_all(&rt, "replaced")?;
    Ok(())
}

/// Puts of files where none was read yet: none runs as its owner or group.
const UNOWNED: [(Step, &str); 5] = [
    (Step::Read("owned/in/a", 0), "too large 5"),
    (Step::Put("owned/user", 0o4755, "put"), "failed"),
    (Step::Put("owned/group", 0o2711, "put"), "failed"),
    (Step::Put("owned/plain", 0o1755, "put"), "ok"),
    (Step::List("owned", 9), "paths owned/in/a owned/plain"),
];

/// Puts of files with the mode of one that was read, with and without a bit by which it runs as its owner or group.
const OWNED: [(Step, &str); 4] = [
    (Step::Read("owned/in/a", 9), "file 644 first"),
    (Step::Put("owned/user", 0o4755, "put"), "ok"),
    (Step::Put("owned/group", 0o2711, "put"), "ok"),
    (Step::Put("owned/plain", 0o755, "put"), "ok"),
];

/// Who owns the file, and its mode.
fn owner_text(files: &HostRuntime, path: &str) -> Result<String, Fail> {
    let found = fs::symlink_metadata(files, path)?;
    let (user, group, mode) = (found.uid(), found.gid(), found.mode() & 0o7777);
    Ok(format!(in files.alloc(); "{user} {group} {mode:o}")?)
}

#[test]
fn a_file_that_runs_as_its_owner_takes_the_owner_of_the_file_that_was_read(
    rt: HostRuntime,
) -> Result<(), Fail> {
    make_place(&rt, "owned")?;
    let mut tree = OsTree::new(&rt);
    try_steps(&rt, rt.alloc(), &mut tree, &UNOWNED)?;
    // Only the superuser gives a file away.
    if std::os::unix::fs::lchown(&rt, "owned/in/a", Some(1234), Some(5678)).is_ok() {
        let mut tree = OsTree::new(&rt);
        try_steps(&rt, rt.alloc(), &mut tree, &OWNED)?;
        assert_eq!(rt; owner_text(&rt, "owned/user")?.as_str(), "1234 5678 4755");
        assert_eq!(rt; owner_text(&rt, "owned/group")?.as_str(), "1234 5678 2711");
        assert_eq!(rt; owner_text(&rt, "owned/plain")?.as_str(), "0 0 755");
    }
    fs::remove_dir_all(&rt, "owned")?;
    Ok(())
}

/// A writer that takes two bytes at a time, and nothing once it is full.
#[derive(Drop)]
struct Drip<'a> {
    taken: &'a mut Vec<u8>,
    room: usize,
}

impl io::Write for Drip<'_> {
    fn write(&mut self, buf: &[u8]) -> io::Result<usize> {
        let n = buf.len().min(2).min(self.room);
        self.taken.extend_from_slice(&buf[..n])?;
        self.room -= n;
        Ok(n)
    }

    fn flush(&mut self) -> io::Result<()> {
        Ok(())
    }
}

#[test]
fn a_writer_takes_each_byte_until_it_is_full(rt: HostRuntime) -> Result<(), Fail> {
    let mut taken = Vec::new(rt.alloc());
    let drip = Drip {
        taken: &mut taken,
        room: 7,
    };
    let mut sink = OsSink::new(drip);
    assert_eq!(rt; sink.write(b"abcde"), Ok(()));
    assert_eq!(rt; sink.write(b""), Ok(()));
    assert_eq!(rt; sink.write(b"fgh"), Err(SinkErr::Failed));
    assert!(rt; taken.as_slice() == b"abcdefg".as_slice());
    let mut out = OsSink::new(rt.stdout());
    assert_eq!(rt; out.write(b"sink\n"), Ok(()));
    Ok(())
}
