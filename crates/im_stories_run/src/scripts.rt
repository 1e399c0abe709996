//! The scripts of the scenes, and the requests of those that are stopped. Each stands behind the scenes, under a head
//! with its name, up to an empty line.

use im_story::{Saying, request};
use im_types::Request;
use std::alloc::Global;

// Returns the lines under a head.
fn lines_under<'t>(text: &'t str, what: &str, name: &str) -> &'t str {
    for part in text.split("\n\n") {
        let (head, lines) = part.split_once('\n').unwrap_or((part, ""));
        let (word, other) = head.split_once(' ').unwrap_or((head, ""));
        if word == what && other == name {
            return lines;
        }
    }
    ""
}

// Reads how often a line comes, and what it says: `repeat TIMES LINE`, or a line that comes once.
fn repeated(line: &str) -> (u64, &str) {
    match line.strip_prefix("repeat ") {
        Some(rest) => {
            let (times, line) = rest.split_once(' ').unwrap_or(("", ""));
            (times.parse::<u64>().unwrap_or(0), line)
        }
        None => (1, line),
    }
}

/// Returns the script of this name, of those in a text.
pub fn script_of(alloc: Global, text: &str, name: &str) -> Saying {
    let mut script = Saying::new(alloc);
    for line in lines_under(text, "script", name).lines() {
        let (times, line) = repeated(line);
        for _ in 0..times {
            writeln!(script, "{line}");
        }
    }
    script
}

// Adds a request as often as it comes, with one number after another.
fn add_request(alloc: Global, requests: &mut Vec<Request>, line: &str) {
    let (times, line) = repeated(line);
    let Ok(words) = line.split_whitespace().collect::<Vec<&str>>(alloc) else {
        return;
    };
    if let Some(request) = request(words.as_slice()) {
        for past in 0..times {
            let number = request.number.saturating_add(past);
            let _kept = requests.push(Request { number, ..request });
        }
    }
}

/// Returns the requests of the script of this name.
pub fn requests_of(alloc: Global, text: &str, name: &str) -> Vec<Request> {
    let mut requests = Vec::new(alloc);
    for line in lines_under(text, "requests", name).lines() {
        add_request(alloc, &mut requests, line);
    }
    requests
}
