//! Command lines that are no command, and one that is.
use dbg_words::Command;
use dw_base::NoMemory;
use std::alloc::Global;
use std::test::Fail;

/// Words that are no command, and why.
const NONE: [(&str, &str); 3] = [
    (
        "run /r --base-dir build --dest-dir /d",
        "a base that isn't absolute",
    ),
    ("edit a ./a --base-dir /b --dest-dir /d", "one path twice"),
    (
        "run /r --base-dir /b --dest-dir /d --jobs 65",
        "too many jobs",
    ),
];

/// The command that the words of the line are.
fn read(alloc: Global, line: &str) -> Result<Option<Command>, NoMemory> {
    let mut texts = Vec::new(alloc);
    for word in line.split(' ') {
        texts.push(String::from_str(alloc, word)?)?;
    }
    Command::read(alloc, texts.as_slice())
}

#[test]
fn words_are_a_command_or_none(rt: HostRuntime) -> Result<(), Fail> {
    let alloc = rt.alloc();
    assert!(rt; Command::read(alloc, &[])?.is_none());
    for (line, why) in NONE {
        assert!(rt; read(alloc, line)?.is_none(), "{}", why);
    }
    let command = read(alloc, "show ./a")?;
    assert!(rt;
        matches!(&command, Some(Command::Show { file, debug: None }) if file.as_str() == "a")
    );
    Ok(())
}
