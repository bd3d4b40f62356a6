//! The arguments of `rd_show`, and text in its diagrams.

use rd_base::Starved;
use show_text::{Otherwise, words_read, write_escaped};
use std::alloc::Global;
use vector_words::{NoAnswer, shown, text_of};

/// Returns the arguments of a text, which are separated by spaces.
fn words_of(alloc: Global, said: &str) -> Result<Vec<String>, Starved> {
    let mut words = Vec::new(alloc);
    'words: for word in said.split_whitespace() {
        words.push(String::from_str(alloc, word)?)?;
    }
    Ok(words)
}

/// Answers `show_words WORD ..`: the number of workers that the arguments of `rd_show` ask for,
/// followed by `d` if they ask for a diagram; the text about the program, if they ask for it; or
/// `refused`.
fn show_words(alloc: Global, said: &str) -> Result<String, NoAnswer> {
    let words = words_of(alloc, said)?;
    match words_read(alloc, words.as_slice()) {
        Ok(asked) => {
            let workers = asked.workers;
            let mark = if asked.is_diagram { "d" } else { "" };
            Ok(format!(in alloc; "{workers}{mark}")?)
        }
        Err(Otherwise::Say(text)) => {
            let told = format!(in alloc; "{text}")?;
            Ok(shown(alloc, told.as_bytes())?)
        }
        Err(Otherwise::Usage) => Ok(String::from_str(alloc, "refused")?),
        Err(Otherwise::Starved) => Err(NoAnswer::Starved),
    }
}

/// Answers `diagram LINE`: a line of text as it appears in a diagram.
fn diagram(alloc: Global, said: &str) -> Result<String, NoAnswer> {
    let line = text_of(alloc, said)?;
    let mut page = String::new(alloc);
    write_escaped(&mut page, line.as_str())?;
    Ok(shown(alloc, page.as_bytes())?)
}

/// Returns the answer of a call to its arguments, or `None` if it is not one of these calls.
/// Returns `Form` if the arguments do not have the form of the call.
pub(crate) fn answer(alloc: Global, call: &str, said: &str) -> Result<Option<String>, NoAnswer> {
    let answer = match call {
        "show_words" => show_words(alloc, said)?,
        "diagram" => diagram(alloc, said)?,
        _ => return Ok(None),
    };
    Ok(Some(answer))
}
