//! The calls at ample memory.
use crate::command::{Command, WordsFault, read_words};
use crate::demo::demo_files;
use std::alloc::{AllocError, Global};

fn words(alloc: Global, texts: &[&str]) -> Result<Vec<String>, AllocError> {
    let mut words = Vec::new(alloc);
    for text in texts {
        words.push(String::from_str(alloc, text)?)?;
    }
    Ok(words)
}

#[test]
fn words_are_read(rt: HostRuntime) {
    let alloc = rt.alloc();
    let script = words(alloc, &["tallrun", "--workers=2", "a.m"]).expect(&rt, "words");
    match read_words(alloc, &script) {
        Ok(Command::Script { name, workers }) => assert!(rt;
            name.as_str() == "a.m" && workers == 2
        ),
        _ => panic!(rt; "no script"),
    }
    let demo = words(alloc, &["tallrun", "--demo", "5"]).expect(&rt, "words");
    match read_words(alloc, &demo) {
        Ok(Command::Demo { rows, workers }) => assert!(rt; rows == 5 && workers == 4),
        _ => panic!(rt; "no demo"),
    }
    let none = words(alloc, &["tallrun"]).expect(&rt, "words");
    match read_words(alloc, &none) {
        Err(WordsFault::Usage) => {}
        _ => panic!(rt; "a command of nothing"),
    }
}

#[test]
fn the_demo_has_two_files(rt: HostRuntime) {
    let files = demo_files(rt.alloc(), 2).expect(&rt, "files");
    assert!(rt; files.len() == 2);
    assert!(rt; files[0].1.as_slice() == "g,v\ng3,70\ng3,-2\n".as_bytes());
}
