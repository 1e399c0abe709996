//! Calls on files of the folder in which the program runs.

use crate::blind::Blind;
use crate::{ImageScene, disks};
use im_disk::{Failure, FileDisk, OpenFault, Unknown};
use im_story::{Phrase, Saying};
use im_types::Refusal;
use std::fs;

/// A file that is open.
pub type OpenFile = Blind<FileDisk<Unknown>>;

// Tells that this is done, or why it isn't.
fn add_done(said: &mut Saying, answer: Result<(), OpenFault>, text: &str) {
    match answer {
        Ok(()) => said.text(text),
        Err(OpenFault::InUse) => said.text("in use"),
        Err(OpenFault::Exists) => said.text("exists"),
        Err(OpenFault::NotFile) => said.text("no regular file"),
        Err(fault) => said.refusal(Refusal::from(fault)),
    }
}

// Opens a file, or makes one of as many zero bytes as the call's number says. Else the one that is open stays open.
fn open(rt: &HostRuntime, call: &Phrase, file: &mut Option<OpenFile>) -> Result<(), OpenFault> {
    let made = match (call.word(0), call.word(1), call.word(2)) {
        ("create", "new", path) => FileDisk::create_new(rt, path, call.place(0), Unknown),
        ("create", path, _) => FileDisk::create(rt, path, call.place(0), Unknown),
        (_, path, "to") => FileDisk::open_to_read(rt, path, Unknown),
        (_, path, _) => FileDisk::open(rt, path, Unknown),
    };
    *file = Some(Blind::over(made?));
    Ok(())
}

// Makes an empty folder. Returns whether it is there.
fn make_folder(rt: &HostRuntime, name: &str) -> bool {
    let _ = fs::remove_dir_all(rt, name);
    fs::create_dir(rt, name).is_ok()
}

// Makes a file with the text that the words behind its path tell. Returns whether it is there.
fn put(rt: &HostRuntime, call: &Phrase) -> bool {
    let mut text = Saying::new(call.alloc());
    text.words(call.rest(2));
    !text.is_wrong() && fs::write(rt, call.word(1), text.said()).is_ok()
}

// Makes a call on a file that is open, or tells what failed first.
fn tell_of_open(open: &mut OpenFile, call: &Phrase, said: &mut Saying) {
    match (call.word(0), open.inner().failure()) {
        ("failure", None) => said.text("none"),
        ("failure", Some(Failure::Length)) => said.text("length"),
        ("failure", Some(Failure::Read(_))) => said.text("read"),
        ("failure", Some(Failure::Write(_))) => said.text("write"),
        ("failure", Some(Failure::Sync(_))) => said.text("sync"),
        _ => {
            let is_made = disks::tell_of(open, call, said);
            said.so(is_made, "")
        }
    }
}

// Closes the file that is open, or takes its name away too, or makes a call on it.
fn tell_of_file(scene: &mut ImageScene, call: &Phrase, said: &mut Saying) {
    match (call.word(1), scene.file.take()) {
        ("close", _) => said.text("closed"),
        ("gone", Some(open)) => {
            let removed = open.into_inner().remove(scene.rt, call.word(2));
            add_done(said, removed, "gone")
        }
        (_, Some(mut open)) => {
            tell_of_open(&mut open, &Phrase::of(call.alloc(), call.rest(1)), said);
            scene.file = Some(open)
        }
        _ => said.fail("no file is open"),
    }
}

/// Makes a call on files. Returns whether it is one.
pub fn tell(scene: &mut ImageScene, call: &Phrase, said: &mut Saying) -> bool {
    let (rt, name) = (scene.rt, call.word(1));
    match call.word(0) {
        "create" | "open" => add_done(said, open(rt, call, &mut scene.file), "open"),
        "file" => tell_of_file(scene, call, said),
        "folder" => said.so(make_folder(rt, name), "so"),
        "remove" => said.so(fs::remove_dir_all(rt, name).is_ok(), "so"),
        "put" => said.so(put(rt, call), "so"),
        _ => return false,
    }
    true
}
