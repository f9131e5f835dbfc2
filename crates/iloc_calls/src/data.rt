//! Reads data locales by their parts, as the calls that normalize and check do: so all calls share one parser.
ghost use Rattle.iloc_data.specs.Reads.{DataTextReads};
ghost use Rattle.iloc_data_parts.specs.PartsReading.{PartsTextReads};
ghost use Rattle.iloc_subtags.specs.Judging.{RunsOutOnlyIf};

use iloc_data::{DataLocale, made_of};
use iloc_data_parts::DataParts;
use iloc_subtags::ParseError;

/// Parses all of the text: the one parser of all calls.
#[inline(never)]
pub(crate) fn read_parts(text: &[u8]) -> Result<DataParts, ParseError>
    ensures { PartsTextReads text.now result }
{
    DataParts::try_from_utf8(text)
}

/// Parses all of the text, as `DataLocale::try_from_utf8` does.
pub(crate) fn read_data(text: &[u8]) -> Result<DataLocale, ParseError>
    ensures reads { DataTextReads text.now result }
    ensures memory { RunsOutOnlyIf ⊥ result }
{
    match read_parts(text) {
        Ok(parts) => Ok(made_of(parts)),
        Err(refusal) => Err(refusal),
    }
}
