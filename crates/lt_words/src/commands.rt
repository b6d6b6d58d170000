//! The commands of the program.
ghost use Rattle.std.specs.Prelude.{◌≡◌, string_bytes};
ghost use Rattle.std.specs.Option.{option_map};
ghost use Rattle.lt_words.specs.Reading.{first_file_of, has_summary, reads_input_of, second_file_of};

/// A run over the lines of the input.
#[derive(Debug, Drop)]
pub struct Run {
    /// The file of the registry.
    pub registry: String,
    /// Whether a summary of the refused lines is told after the run, even without a terminal.
    pub summary: bool,
}

/// Which field of rows is a tag.
#[derive(Debug, Drop)]
pub enum Column {
    /// The field of this number, counted from 1.
    Number(usize),
    /// The field that has this name in the heading.
    Name(String),
}

/// Rows: which field of them is a tag, and how they are answered.
#[derive(Debug, Drop)]
pub struct Rows {
    /// The field that is a tag.
    pub column: Column,
    /// Whether the first row is a heading, in which no tag is looked for.
    pub heading: bool,
    /// Whether a row stays as it is, and its answer is added to it in two fields.
    pub keep: bool,
    /// The file of a table of codes (ISO 639-2), if one is named.
    pub codes: Option<String>,
}

/// How language ranges match tags (RFC 4647, 3.3 and 3.4).
#[derive(Clone, Copy, Debug)]
pub enum Matching {
    /// By basic filtering (RFC 4647, 3.3.1).
    Basic,
    /// By extended filtering (RFC 4647, 3.3.2).
    Extended,
    /// By lookup, which finds one tag (RFC 4647, 3.4).
    Lookup,
}

/// Language ranges, and how they match tags.
#[derive(Debug, Drop)]
pub struct Ranges {
    /// The texts of the ranges.
    pub texts: Vec<String>,
    /// How they match.
    pub matching: Matching,
}

/// Tags that are shown.
#[derive(Debug, Drop)]
pub struct Tags {
    /// Their texts.
    pub texts: Vec<String>,
    /// Whether each is shown as a line of JSON, and not as a table.
    pub json: bool,
}

/// What the words ask for.
#[derive(Debug, Drop)]
pub enum Command {
    /// The class of this tag, and the tag in conventional case.
    Classify(String),
    /// Whether the registry of this file passes the check.
    Check(String),
    /// The canonical form of each line of the input.
    Canon(Run),
    /// The same, after the first subtag of a line is replaced by the registered one, if it is a code of the table in
    /// this file: `de` for `ger`.
    Codes(Run, String),
    /// The rows of the input, with tabs between their fields, and with the canonical form of one field.
    Tsv(Run, Rows),
    /// The CSV records of the input, after a heading, with the canonical form of one field. The byte is the delimiter
    /// between fields.
    Csv(Run, Rows, u8),
    /// The lines of the input that one of these ranges matches, or the line that lookup by them finds, by the registry of
    /// this file, which comes first.
    Match(String, Ranges),
    /// The line of the input to serve for this Accept-Language header (RFC 9110, 12.5.4), by the registry of this file,
    /// which comes first.
    Serve(String, String),
    /// The extlang form of this tag, by the registry of this file, which comes first.
    Extlang(String, String),
    /// Whether these two tags are equivalent, by the registry of this file, which comes first.
    Equal(String, String, String),
    /// The steps from this tag to its canonical form, by the registry of this file, which comes first.
    Explain(String, String),
    /// Whether the input explains this tag, by the registry of this file, which comes first.
    Verify(String, String),
    /// Whether the registry of the second file upgrades that of the first.
    Upgrade(String, String),
    /// What the registry of this file, which comes first, says of these tags.
    Show(String, Tags),
    /// The object of JSON that is answered to each line of the input, by the registry of this file.
    Json(String),
}

/// The file of a table of codes that the words name for rows, or None if they name none.
fn codes_file(rows: &Rows) -> Option<&str>
    ensures { option_map (λ file. file.now) result ≡ option_map string_bytes rows.now.codes }
{
    match &rows.codes {
        Some(file) => Some(file.as_str()),
        None => None,
    }
}

impl Command {
    /// The file that is read first: that of the registry, or of the older one. None if the command names no file.
    pub fn first_file(&self) -> Option<&str>
        ensures { option_map (λ file. file.now) result ≡ first_file_of self.now }
    {
        match self {
            Command::Classify(_) => None,
            Command::Check(file) => Some(file.as_str()),
            Command::Canon(run) | Command::Codes(run, _) => Some(run.registry.as_str()),
            Command::Tsv(run, _) | Command::Csv(run, _, _) => Some(run.registry.as_str()),
            Command::Match(file, _) | Command::Serve(file, _) => Some(file.as_str()),
            Command::Extlang(file, _) | Command::Explain(file, _) => Some(file.as_str()),
            Command::Verify(file, _) => Some(file.as_str()),
            Command::Equal(file, _, _) | Command::Upgrade(file, _) => Some(file.as_str()),
            Command::Show(file, _) => Some(file.as_str()),
            Command::Json(file) => Some(file.as_str()),
        }
    }

    /// Whether the command reads the standard input, whatever file it names: `canon`, `codes`, `tsv`, `csv`, `match`,
    /// `verify` and `json` do. The file name `-` can't mean the standard input for them.
    pub fn reads_input(&self) -> bool
        ensures { result ≡ reads_input_of self.now }
    {
        match self {
            Command::Canon(_) | Command::Codes(_, _) | Command::Verify(_, _) => true,
            Command::Tsv(_, _) | Command::Csv(_, _, _) | Command::Match(_, _) => true,
            Command::Json(_) | Command::Serve(_, _) => true,
            _ => false,
        }
    }

    /// Whether the words ask for a summary of the lines that were refused, which is then told without a terminal too.
    pub fn has_summary(&self) -> bool
        ensures { result ≡ has_summary self.now }
    {
        match self {
            Command::Canon(run) | Command::Codes(run, _) => run.summary,
            Command::Tsv(run, _) | Command::Csv(run, _, _) => run.summary,
            _ => false,
        }
    }

    /// The file that is read second: that of the newer registry, or of the table of codes. None if the command names no
    /// second file.
    pub fn second_file(&self) -> Option<&str>
        ensures { option_map (λ file. file.now) result ≡ second_file_of self.now }
    {
        match self {
            Command::Upgrade(_, file) | Command::Codes(_, file) => Some(file.as_str()),
            Command::Tsv(_, rows) | Command::Csv(_, rows, _) => codes_file(rows),
            _ => None,
        }
    }
}
