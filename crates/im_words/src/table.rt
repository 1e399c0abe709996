//! The command line as a table: each subcommand with the words that it takes.
//!
//! It is what the parser is made of, and what contracts say of it.

/// A path that is required, or an option: its name, the name of its value if it is an option that takes one, and what
/// the help says of it.
pub(crate) type Word = (&'static str, Option<&'static str>, &'static str);

/// A subcommand: its name, what it does, its paths, and its options beside those of each.
pub(crate) type Subcommand = (&'static str, &'static str, &'static [Word], &'static [Word]);

/// The options that each subcommand takes.
pub(crate) const COMMON: [Word; 3] = [
    (
        "statuses",
        None,
        "End with 4 if a file is in use, and with 5 if there is no good image",
    ),
    (
        "wait",
        Some("SECONDS"),
        "Try again for this time if a file is in use, 0 to 86400 seconds [default: 0]",
    ),
    (
        "progress",
        None,
        "Report progress on standard error, as on a terminal",
    ),
];

/// The subcommands.
pub(crate) const SUBCOMMANDS: [Subcommand; 10] = [
    (
        "format",
        "Make an image: an empty memory of the given size, in a new file or over an existing one",
        &[("IMAGE", None, "The file to make")],
        &[
            (
                "cells",
                Some("N"),
                "The number of cells, 1 to 1,048,576 [default: 4096]",
            ),
            (
                "elements",
                Some("N"),
                "The number of elements, 1 to 64 [default: 16]",
            ),
            (
                "slots",
                Some("N"),
                "The number of journal slots, 16 to 4,096 [default: 256]",
            ),
            ("new", None, "Refuse an existing file"),
        ],
    ),
    (
        "serial",
        "Serve the requests of a script, in their order, and print each reply",
        &[
            ("IMAGE", None, "The image, made by 'imem format'"),
            (
                "SCRIPT",
                None,
                "The file of requests, or - for standard input",
            ),
        ],
        &[
            ("quiet", None, "Print only the line of a refusal"),
            ("json", None, "Print JSON, an object on each line"),
            (
                "once",
                None,
                "Continue a script that was stopped: what the image has of it isn't asked for again",
            ),
            (
                "strict",
                None,
                "End with 6 if all was served and a reply tells an error of the script, as clash does",
            ),
        ],
    ),
    (
        "run",
        "Serve the requests of a script, those of each element by threads of its own, all at once",
        &[
            ("IMAGE", None, "The image, made by 'imem format'"),
            (
                "SCRIPT",
                None,
                "The file of requests, or - for standard input",
            ),
        ],
        &[
            ("quiet", None, "Print only the line of a refusal"),
            ("json", None, "Print JSON, an object on each line"),
            (
                "planned",
                None,
                "Serve the script as a plan: fetches, stores and glances, at most one store to a cell",
            ),
            (
                "trace",
                Some("FILE"),
                "Write each call and its answer to a new file, in the order of the lock",
            ),
            (
                "once",
                None,
                "Continue a run that was stopped: what the image has of the script isn't asked for again",
            ),
            (
                "strict",
                None,
                "End with 6 if all was served and a reply tells an error of the script, as clash does",
            ),
        ],
    ),
    (
        "serve",
        "Serve a dialogue: read a line, answer it with a line, until the input ends",
        &[("IMAGE", None, "The image, made by 'imem format'")],
        &[
            (
                "watch",
                None,
                "Print 'E.N now REPLY' when a request that waited is answered",
            ),
            (
                "backups",
                Some("FOLDER"),
                "Make a new file in this folder for each line 'backup NAME'",
            ),
            (
                "verbose",
                None,
                "Keep a log on standard error: the image, the lines asked each minute, the end",
            ),
        ],
    ),
    (
        "inspect",
        "Print what an image means, and change nothing",
        &[("IMAGE", None, "The image, made by 'imem format'")],
        &[
            (
                "cells",
                Some("FROM-TO"),
                "Print only the lines of the cells at these addresses",
            ),
            ("element", Some("N"), "Print only the lines of this element"),
            (
                "waiting",
                None,
                "Print only the lines of cells that somebody waits for",
            ),
            ("json", None, "Print JSON, an object on each line"),
        ],
    ),
    (
        "migrate",
        "Move an image of layout version 1 to a new file of the version in use",
        &[
            ("OLD", None, "The image of layout version 1"),
            ("NEW", None, "The new file"),
        ],
        &[],
    ),
    (
        "copy",
        "Copy an image to a new file, in other sizes if they are given",
        &[("OLD", None, "The image"), ("NEW", None, "The new file")],
        &[
            (
                "cells",
                Some("N"),
                "The number of cells, 1 to 1,048,576 [default: as before]",
            ),
            (
                "elements",
                Some("N"),
                "The number of elements, 1 to 64 [default: as before]",
            ),
            (
                "slots",
                Some("N"),
                "The number of journal slots, 16 to 4,096 [default: as before]",
            ),
        ],
    ),
    (
        "dump",
        "Print what an image means as a text, which 'imem load' reads back",
        &[("IMAGE", None, "The image, made by 'imem format'")],
        &[
            ("json", None, "Print JSON, an object on each line"),
            (
                "damaged",
                None,
                "Print what a damaged image still says, and mark the rest",
            ),
        ],
    ),
    (
        "load",
        "Make an image of a text that 'imem dump' printed",
        &[
            ("TEXT", None, "The text, or - for standard input"),
            ("NEW", None, "The new file"),
        ],
        &[
            (
                "cells",
                Some("N"),
                "The number of cells, 1 to 1,048,576 [default: as before]",
            ),
            (
                "elements",
                Some("N"),
                "The number of elements, 1 to 64 [default: as before]",
            ),
            (
                "slots",
                Some("N"),
                "The number of journal slots, 16 to 4,096 [default: as before]",
            ),
        ],
    ),
    (
        "stat",
        "Print some numbers of an image, and change nothing",
        &[("IMAGE", None, "The image, made by 'imem format'")],
        &[("json", None, "Print JSON, an object on each line")],
    ),
];
