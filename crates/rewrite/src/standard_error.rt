// What is said on standard error.
use std::alloc::{AllocError, Global};
use std::io;

// A line: what failed, as the caller names it, a colon and the system's words for the error. That a line cannot be written is said nowhere.
pub(crate) fn fail(rt: &(impl Eprint + AllocGlobal), what: &str, error: &io::Error) {
    let _ = match words_of(rt.alloc(), error) {
        Ok(words) => eprintln!(rt; "{what}: {words}"),
        Err(_) => eprintln!(rt; "{what}: {error}"),
    };
}

// The text of an error without the number that `Display` puts after it.
fn words_of(alloc: Global, error: &io::Error) -> Result<String, AllocError> {
    let text = error.to_string(alloc)?;
    match error.raw_os_error() {
        Some(code) => {
            let number = format!(in alloc; " (os error {code})")?;
            let words = text.as_str();
            String::from_str(alloc, words.strip_suffix(number.as_str()).unwrap_or(words))
        }
        None => Ok(text),
    }
}
