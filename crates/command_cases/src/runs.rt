//! Runs over trees and sinks in memory: a worked file, and calls that fail.
use dbg_run::run_words;
use file_tree::{Blob, MemSink, MemTree, Node, TreeErr};
use std::alloc::{AllocError, Global};
use std::process::Abort;
use std::test::Fail;

/// The words of an edit of `in`, with a space between each two.
const EDIT: &str = "edit in out --base-dir /build/p --dest-dir /usr/src/debug/p";

/// The abbreviation table of a compilation unit with a name and a directory, both offsets into `.debug_str`.
const ABBREVIATIONS: [u8; 10] = [0x01, 0x11, 0x00, 0x03, 0x0e, 0x1b, 0x0e, 0x00, 0x00, 0x00];

/// The names of the sections.
const SECTION_NAMES: &str = "\0.debug_info\0.debug_abbrev\0.debug_str\0.shstrtab\0";

/// The texts of the worked file.
const BUILD_PATHS: &str = "/build/p/a.c\0/build/p\0";

/// The texts that take their place.
const INSTALL_PATHS: &str = "/usr/src/debug/p/a.c\0/usr/src/debug/p\0";

/// The file header of a 64-bit little-endian executable for x86-64, with five section headers from
/// `headers_at` on, the last of them that of the section names.
fn file_header(headers_at: u8) -> [u8; 64] {
    [
        0x7f, 0x45, 0x4c, 0x46, 2, 1, 1, 0, 0, 0, 0, 0, 0, 0, 0, 0, 2, 0, 62, 0, 1, 0, 0, 0, 0, 0,
        0, 0, 0, 0, 0, 0, 0, 0, 0, 0, 0, 0, 0, 0, headers_at, 0, 0, 0, 0, 0, 0, 0, 0, 0, 0, 0, 64,
        0, 0, 0, 0, 0, 64, 0, 5, 0, 4, 0,
    ]
}

/// A unit of version 4 with one entry: the places of its name and of its directory in `.debug_str`.
fn unit(name: u8, directory: u8) -> [u8; 20] {
    [
        0x10, 0, 0, 0, 4, 0, 0, 0, 0, 0, 8, 1, name, 0, 0, 0, directory, 0, 0, 0,
    ]
}

/// The header of a section with alignment 1.
fn section_header(name: u8, kind: u8, offset: u8, size: u8) -> [u8; 64] {
    [
        name, 0, 0, 0, kind, 0, 0, 0, 0, 0, 0, 0, 0, 0, 0, 0, 0, 0, 0, 0, 0, 0, 0, 0, offset, 0, 0,
        0, 0, 0, 0, 0, size, 0, 0, 0, 0, 0, 0, 0, 0, 0, 0, 0, 0, 0, 0, 0, 1, 0, 0, 0, 0, 0, 0, 0,
        0, 0, 0, 0, 0, 0, 0, 0,
    ]
}

/// The headers of the five sections: the texts have `texts_len` bytes, and the section names start at `names_at`.
fn section_headers(alloc: Global, texts_len: u8, names_at: u8) -> Result<Vec<u8>, AllocError> {
    let mut headers = Vec::from_slice(alloc, &[0; 64])?;
    headers.extend_from_slice(&section_header(1, 1, 64, 20))?;
    headers.extend_from_slice(&section_header(13, 1, 84, 10))?;
    headers.extend_from_slice(&section_header(27, 1, 94, texts_len))?;
    headers.extend_from_slice(&section_header(38, 3, names_at, 48))?;
    Ok(headers)
}

/// A file of 488 bytes whose one unit has the name `/build/p/a.c` and the directory `/build/p`.
pub(crate) fn built_file(alloc: Global) -> Result<Vec<u8>, AllocError> {
    let mut file = Vec::from_slice(alloc, &file_header(168))?;
    file.extend_from_slice(&unit(0, 13))?;
    file.extend_from_slice(&ABBREVIATIONS)?;
    file.extend_from_slice(BUILD_PATHS.as_bytes())?;
    file.extend_from_slice(SECTION_NAMES.as_bytes())?;
    file.extend_from_slice(&[0; 4])?;
    file.extend_from_slice(section_headers(alloc, 22, 116)?.as_slice())?;
    Ok(file)
}

/// The same file with its paths mapped, of 504 bytes: the texts are built anew, and what follows them is moved.
pub(crate) fn installed_file(alloc: Global) -> Result<Vec<u8>, AllocError> {
    let mut file = Vec::from_slice(alloc, &file_header(184))?;
    file.extend_from_slice(&unit(0, 21))?;
    file.extend_from_slice(&ABBREVIATIONS)?;
    file.extend_from_slice(INSTALL_PATHS.as_bytes())?;
    file.extend_from_slice(SECTION_NAMES.as_bytes())?;
    file.extend_from_slice(&[0; 4])?;
    file.extend_from_slice(section_headers(alloc, 38, 132)?.as_slice())?;
    Ok(file)
}

/// A tree with one node.
pub(crate) fn tree_with(alloc: Global, path: &str, node: Node) -> Result<MemTree, TreeErr> {
    let mut nodes = Vec::new(alloc);
    nodes.push((String::from_str(alloc, path)?, node))?;
    MemTree::new(alloc, nodes)
}

/// A file with these bytes, which all may run.
pub(crate) fn file_of(bytes: Vec<u8>) -> Node {
    Node::File {
        bytes: Blob::new(bytes),
        mode: 0o755,
    }
}

/// What a run answered, and what went to its sinks.
#[derive(Drop)]
pub(crate) struct Ran {
    pub status: u8,
    pub output: MemSink,
    pub errors: MemSink,
}

/// Runs the program on the words of the line, with an output of 1000 bytes.
pub(crate) fn run(alloc: Global, line: &str, tree: &mut MemTree) -> Result<Ran, TreeErr> {
    run_to(alloc, line, tree, MemSink::new(alloc, 1000, None)?)
}

/// Runs the program on the words of the line, with this output.
pub(crate) fn run_to(
    alloc: Global,
    line: &str,
    tree: &mut MemTree,
    mut output: MemSink,
) -> Result<Ran, TreeErr> {
    let mut texts = Vec::new(alloc);
    for word in line.split(' ') {
        texts.push(String::from_str(alloc, word)?)?;
    }
    let mut errors = MemSink::new(alloc, 100, None)?;
    let status = run_words(alloc, texts.as_slice(), tree, &mut output, &mut errors);
    Ok(Ran {
        status,
        output,
        errors,
    })
}

/// Asserts what a run answered, and what went to its sinks.
pub(crate) fn assert_ran(rt: &impl Abort, ran: &Ran, status: u8, output: &str, line: &str) {
    assert_eq!(rt; ran.status, status);
    assert_eq!(rt; ran.output.bytes(), output.as_bytes());
    assert_eq!(rt; ran.errors.bytes(), line.as_bytes());
}

/// Asserts that an edit of `in` ends as a tree fault, and that nothing is put.
fn assert_fault(rt: &impl Abort, alloc: Global, tree: &mut MemTree) -> Result<(), TreeErr> {
    let ran = run(alloc, EDIT, tree)?;
    assert_ran(rt, &ran, 6, "", "tree fault\n");
    assert_eq!(rt; tree.nodes().len(), 1);
    Ok(())
}

#[test]
fn a_call_that_fails_is_a_tree_fault(rt: HostRuntime) -> Result<(), Fail> {
    let alloc = rt.alloc();
    // the look at the input, and that at the output's path
    for call in 0..2u64 {
        let mut tree = tree_with(alloc, "in", file_of(built_file(alloc)?))?;
        tree.fail_calls(vec![in alloc; call; 1]?);
        assert_fault(&rt, alloc, &mut tree)?;
    }
    let mut tree = tree_with(alloc, "in", file_of(built_file(alloc)?))?;
    tree.stop_after(2);
    assert_fault(&rt, alloc, &mut tree)?;
    Ok(())
}

#[test]
fn an_edit_gives_the_worked_file_byte_for_byte(rt: HostRuntime) -> Result<(), Fail> {
    let alloc = rt.alloc();
    let wanted = installed_file(alloc)?;
    let mut tree = tree_with(alloc, "in", file_of(built_file(alloc)?))?;
    let ran = run(alloc, EDIT, &mut tree)?;
    assert_ran(&rt, &ran, 0, "", "");
    match tree.nodes() {
        [(input, _), (output, Node::File { bytes, mode })] => {
            assert_eq!(rt; input.as_str(), "in");
            assert_eq!(rt; output.as_str(), "out");
            assert_eq!(rt; bytes.as_slice(), wanted.as_slice());
            assert_eq!(rt; *mode, 0o755);
        }
        _ => assert!(rt; false, "two files are there"),
    }
    assert_eq!(rt; tree.settle_count(), 1);
    Ok(())
}
