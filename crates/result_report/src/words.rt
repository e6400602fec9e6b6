//! What the tables say of a line, in their words.

ghost use Rattle.std.specs.Prelude.{◌≡◌, option_map};
ghost use Rattle.result_report.specs.Report.{reason_of};

use sip_reader::Reading;

/// Gives why a line has no answer: the digits of a passed message, `title`, or what is wrong with
/// one that can't be read; None of a request.
pub fn reason_of(reading: &Reading) -> Option<&'static str>
    ensures { option_map (λ word. word.now) result ≡ reason_of reading.now }
{
    match reading {
        Reading::Passed(passed) => Some(passed.word()),
        Reading::Unread(why) => Some(why.word()),
        Reading::Asked(_) | Reading::BadSum => None,
    }
}
