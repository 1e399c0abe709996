//! What the words of the command line ask for.

use clap::Error;
use im_migration::Asked;
use im_report::View;
use im_text::Style;

/// The number of cells of an image, if the command line doesn't say it.
pub const DEFAULT_CELLS: u32 = 4_096;

/// The number of elements of an image, if the command line doesn't say it.
pub const DEFAULT_ELEMENTS: u32 = 16;

/// The number of journal slots of an image, if the command line doesn't say it.
pub const DEFAULT_SLOTS: u32 = 256;

/// What the program is asked to do. `P` stands for a path: of the program's own work it is a text of the command line.
#[derive(Clone, Copy)]
pub enum Work<P> {
    /// No subcommand: serve a short script on an image in memory.
    Demonstration,
    /// Make an image.
    Format(Formatting<P>),
    /// Serve the lines of a script in their order.
    Serial(Serving<P>),
    /// Run a script, the requests of each element by threads of its own.
    Run(ScriptRun<P>),
    /// Serve a dialogue on standard input.
    Serve(Talking<P>),
    /// Print what an image means, or some numbers of it.
    Inspect(Inspection<P>),
    /// Print the dump of an image.
    Dump(Dumping<P>),
    /// Make an image of the text of a dump.
    Load(Making<P>),
    /// Move an image of the first layout version, which is only read, to a new file.
    Migrate(Moving<P>),
    /// Copy an image, which is only read, to a new file.
    Copy(Making<P>),
}

/// The image that is made, with its sizes as given.
#[derive(Clone, Copy)]
pub struct Formatting<P> {
    /// The path of the image.
    pub image: P,
    /// The number of cells.
    pub cells: u32,
    /// The number of elements.
    pub elements: u32,
    /// The number of journal slots.
    pub slots: u32,
    /// Whether an existing file is refused.
    pub is_new: bool,
}

/// What is served: the paths of the image and of the script, and how.
#[derive(Clone, Copy)]
pub struct Serving<P> {
    /// The path of the image.
    pub image: P,
    /// The path of the script. `-` stands for the input.
    pub script: P,
    /// Whether what the image has of the script isn't asked anew.
    pub once: bool,
    /// Whether the exit status tells that a reply was an error of the script.
    pub strict: bool,
    /// How its lines are said.
    pub style: Style,
}

/// What is run: the paths of the image and of the script, and how.
#[derive(Clone, Copy)]
pub struct ScriptRun<P> {
    /// The path of the image.
    pub image: P,
    /// The path of the script. `-` stands for the input.
    pub script: P,
    /// Whether the script is a plan.
    pub planned: bool,
    /// Whether what the image has of the script isn't asked anew.
    pub once: bool,
    /// Whether the exit status tells that a reply was an error of the script.
    pub strict: bool,
    /// How its lines are said.
    pub style: Style,
    /// The path of the new file for the trace, if one is asked for.
    pub trace: Option<P>,
}

/// What a dialogue is served on, and how.
#[derive(Clone, Copy)]
pub struct Talking<P> {
    /// The path of the image.
    pub image: P,
    /// Whether the answers to requests that waited are printed when they come.
    pub watch: bool,
    /// The path of the folder for backups, if there is one.
    pub backups: Option<P>,
    /// Whether a log of it is kept on standard error.
    pub verbose: bool,
}

/// What is dumped.
#[derive(Clone, Copy)]
pub struct Dumping<P> {
    /// The path of the image.
    pub image: P,
    /// Whether what a damaged image still says is printed.
    pub damaged: bool,
}

/// What is printed of an image.
#[derive(Clone, Copy)]
pub struct Inspection<P> {
    /// The path of the image.
    pub image: P,
    /// What is printed.
    pub look: View,
}

/// The paths of an old file and a new one.
#[derive(Clone, Copy)]
pub struct Moving<P> {
    /// The path of the old file.
    pub old: P,
    /// The path of the new file.
    pub new: P,
}

/// What an image is made of: an image or the text of a dump, and the sizes that are asked for.
#[derive(Clone, Copy)]
pub struct Making<P> {
    /// The path of the image or the text. `-` stands for a text from the input.
    pub from: P,
    /// The path of the new file.
    pub new: P,
    /// The sizes.
    pub asked: Asked,
}

/// What the command line asks for, and how the program is to end.
#[derive(Clone, Copy)]
pub struct CommandLine<'a> {
    /// What is to be done.
    pub work: Work<&'a str>,
    /// Whether the exit status tells refusals apart.
    pub statuses: bool,
    /// Whether progress is told as to somebody who watches.
    pub progress: bool,
    /// How many seconds the opening of a file waits for its lock.
    pub wait: u32,
}

/// Why the command line asks for no work.
#[derive(Debug, Drop)]
pub enum WordFault {
    /// There was not enough memory.
    NoMemory,
    /// A bad command line, or a request for help or the version. The error has the text to print and the exit status.
    Bad(Error),
}

/// What `--version` prints after the program's name: the program's version, the layout version that it writes, the
/// commit it was built from, and whether all of it was proved. `scripts/build-imem` overwrites the last two with texts
/// of the same length.
const VERSION: &str = "0.1.0, image layout 2, commit ------------, not proved";

/// The text of the version.
pub(crate) fn version() -> &'static str {
    VERSION
}
