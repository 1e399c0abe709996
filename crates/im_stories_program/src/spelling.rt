//! The spelling of a text in a story: words with a space between them, and `/` where a line ends. In a word `~` is a
//! space, `\t` a tab, `\r` a carriage return, and `\xHH` the byte with this number. The word `""` is empty.

use im_story::{Saying, hex};

// Reads what follows a backslash: the byte that it spells, and the rest.
fn spelled(part: &str) -> (Option<u8>, &str) {
    let length = if part.starts_with('x') { 3 } else { 1 };
    let (letters, rest) = part.split_at_checked(length).unwrap_or((part, ""));
    let byte = match letters {
        "t" => Some(b'\t'),
        "r" => Some(b'\r'),
        _ => hex(letters.strip_prefix('x').unwrap_or("")),
    };
    (byte, rest)
}

/// Adds the characters of a word.
pub fn add_word(text: &mut Vec<u8>, word: &str, said: &mut Saying) {
    let word = if word == "\"\"" { "" } else { word };
    for (at, part) in word.split('\\').enumerate() {
        let (byte, rest) = if at == 0 { (None, part) } else { spelled(part) };
        let is_spelled = match byte {
            Some(byte) => text.push(byte).is_ok(),
            None => at == 0,
        };
        said.so(is_spelled, "");
        for byte in rest.bytes() {
            let byte = if byte == b'~' { b' ' } else { byte };
            said.so(text.push(byte).is_ok(), "");
        }
    }
}

/// Adds a text, given its words.
pub fn add_text(text: &mut Vec<u8>, words: &[&str], said: &mut Saying) {
    let mut begins = true;
    for word in words {
        if *word == "/" {
            said.so(text.push(b'\n').is_ok(), "");
        } else {
            said.so(begins || text.push(b' ').is_ok(), "");
            add_word(text, word, said);
        }
        begins = *word == "/";
    }
}

/// Returns how many lines end in a text.
pub fn line_ends(text: &[u8]) -> usize {
    text.iter().filter(|byte| **byte == b'\n').count()
}
