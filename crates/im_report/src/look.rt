//! What a person wants to see of an image.

/// Addresses from one to another, with both.
#[derive(Clone, Copy, Debug, PartialEq, Eq)]
pub struct Span {
    /// The first address.
    pub from: u32,
    /// The last address.
    pub to: u32,
}

/// Which lines of a report are printed. If nothing is asked for, it is all of them.
#[derive(Clone, Copy, Debug, PartialEq, Eq)]
pub struct Filter {
    /// The lines of the cells at these addresses.
    pub cells: Option<Span>,
    /// The lines of this element.
    pub element: Option<u32>,
    /// The lines of cells that somebody waits for; with `cells`, those among them.
    pub waiting: bool,
}

/// What is printed of an image.
#[derive(Clone, Copy, Debug, PartialEq, Eq)]
pub enum View {
    /// The report, or those of its lines that the filter names.
    Report(Filter),
    /// The same, with an object of JSON on each line.
    ReportJson(Filter),
    /// The statistic.
    Stat,
    /// The statistic as an object of JSON.
    StatJson,
    /// What the image means, with an object of JSON on each line.
    DumpJson,
}
