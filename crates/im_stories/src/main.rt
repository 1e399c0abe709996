//! Walks the stories of all layers.
//!
//! `im_stories WORD..` takes files, each in a folder with the name of its layer, as `memory/lists.story`, and the names
//! of layers whose scenes stand in code: `threads`, `growths`, `listening`.
#![tactic(auto)]

use im_program::Descriptors;
use im_serving::Host;
use im_stories_listening::Audience;
use im_story::Saying;
use std::env;
use std::process::ExitCode;

// Room for what scenes of growths tell, so that none of it grows later.
const ROOM: usize = 4_096;

// Begins what scenes tell, and plays them. Returns whether they could be played.
fn played<F: FnOnce(&mut Saying)>(word: &str, said: &mut Saying, show: F) -> bool
    requires { F.IsAlwaysCallable show }
{
    said.text(word);
    said.text(":\n");
    show(said);
    !said.is_wrong()
}

// Tells of a word: its layer is the name of the file's folder, or the word itself. Returns whether all is well.
fn tell<R: Audience + Host>(
    rt: &HostRuntime,
    held: &Descriptors,
    threads: &R,
    word: &str,
    said: &mut Saying,
) -> bool {
    match word.rsplit('/').nth(1).unwrap_or(word) {
        "memory" => im_stories_memory::walk(rt, word, said),
        "pages" => im_stories_pages::walk(rt, word, said),
        "image" => im_stories_image::walk(rt, word, said),
        "engine" => im_stories_engine::walk(rt, word, said),
        "listed" => im_stories_listed::walk(rt, word, said),
        "program" => im_stories_program::walk(rt, held, word, said),
        "migration" => im_stories_migration::walk(rt, held, word, said),
        "run" => played(
            word,
            said,
            |said| im_stories_run::show(rt, threads, word, said),
        ),
        "threads" => played(word, said, |said| im_stories_threads::show(threads, said)),
        "growths" => played(
            word,
            said,
            |said| im_stories_growths::show(threads, rt.alloc(), said),
        ),
        "listening" => played(word, said, |said| im_stories_listening::show(threads, said)),
        _ => {
            writeln!(said, "{word}: no such layer");
            false
        }
    }
}

fn main(rt: HostRuntime) -> ExitCode {
    let Some(held) = Descriptors::hold(&rt, &rt.stdin(), &rt.stdout(), &rt.stderr()) else {
        return ExitCode::from(1);
    };
    let Ok(words) = env::args(&rt) else {
        return ExitCode::from(1);
    };
    let Ok(words) = words.skip(1).collect::<Vec<String>>(rt.alloc()) else {
        return ExitCode::from(1);
    };
    let mut is_right = !words.is_empty();
    for word in words.iter() {
        let Ok(mut said) = Saying::with_room(rt.alloc(), ROOM) else {
            return ExitCode::from(1);
        };
        let is_told = tell(&rt, &held, &rt, word.as_str(), &mut said);
        let is_printed = said.print(&rt) == 0;
        is_right = is_right && is_told && is_printed;
    }
    ExitCode::from(u8::from(!is_right))
}
