//! The tables whose rows are of the lines of a journal.

ghost use Rattle.std.specs.Prelude.{◌≡◌, map};
ghost use Rattle.schema.specs.Names.{line_file, line_header};

/// The journal, and what is said of its lines.
#[derive(Clone, Copy, Debug, PartialEq, Eq)]
pub enum LineTable {
    /// Each line: its number, the connection, the request, and the response that was recorded.
    Journal,
    /// Each line that is answered.
    Answers,
    /// Of these, each whose recorded response differs.
    Report,
    /// Each line that has no answer.
    Passed,
    /// Reasons for answers.
    Why,
    /// The same of a run as recorded, and what came of each line.
    WhyAsRecorded,
    /// Each word of the report, with what the response says and what is right.
    Words,
}

impl LineTable {
    /// Gives the name of its file in a folder of tables, each table another.
    pub fn file(self) -> &'static str
        ensures { result.now ≡ line_file self }
    {
        match self {
            LineTable::Journal => "journal.csv",
            LineTable::Answers => "answers.csv",
            LineTable::Report => "report.csv",
            LineTable::Passed => "passed.csv",
            LineTable::Why | LineTable::WhyAsRecorded => "why.csv",
            LineTable::Words => "words.csv",
        }
    }

    /// Gives the names of its columns, in their order.
    pub fn header(self) -> &'static [&'static str]
        ensures { map (λ name. name.now) result.now ≡ line_header self }
    {
        match self {
            LineTable::Journal => &["line", "connection", "request", "response"],
            LineTable::Answers => &["line", "connection", "response"],
            LineTable::Report => &["line", "connection", "fields"],
            LineTable::Passed => &["line", "connection", "why"],
            LineTable::Why => &["line", "reason", "kind", "id", "since", "said"],
            LineTable::WhyAsRecorded => {
                &["line", "reason", "kind", "id", "since", "said", "carried"]
            }
            LineTable::Words => &["line", "word", "told", "right"],
        }
    }
}
