//! Text in a diagram.

use rd_base::Starved;

/// The most characters of a line that a diagram shows.
const WIDTH: usize = 80;

/// Returns whether Mermaid reads a character as itself, wherever it is in a text.
fn is_plain(character: char) -> bool {
    match character {
        ' ' | '"' | '(' | ')' | ',' | '-' | '.' | '/' | '=' | '?' | '[' | ']' | '_' | '|' => true,
        _ => character.is_ascii_alphanumeric(),
    }
}

/// Writes a character, as Mermaid's code of its number if it may be read as something else.
fn write_character(page: &mut String, character: char) -> Result<(), Starved> {
    if is_plain(character) {
        return Ok(page.push(character)?);
    }
    let number = u32::from(character);
    Ok(write!(page, "#{number};")?)
}

/// Appends a line of text, of which Mermaid takes nothing for its own syntax.
///
/// Of a line with more than 80 characters, only the first 80 are written, and then how many more it
/// has.
///
/// # Errors
///
/// `Starved` if memory runs out.
pub fn write_escaped(page: &mut String, line: &str) -> Result<(), Starved> {
    'characters: for character in line.chars().take(WIDTH) {
        write_character(page, character)?;
    }
    match line.chars().skip(WIDTH).count() {
        0 => Ok(()),
        more => Ok(write!(page, "... ({more} more)")?),
    }
}
