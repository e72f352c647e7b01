//! What a status means, in words, and how a text is written for C.
ghost use Rattle.std.specs.Prelude.{◌≡◌};
ghost use Rattle.verity_c_api.specs.Answers.{value_or};
ghost use Rattle.verity_c_api.specs.Statuses.{status_of};
ghost use Rattle.verity_c_api.specs.Texts.{text_length_in, text_of_status, with_text};

use verity_c_api::{DONE, Fault};

/// A status in words, in English, without a full stop, and a zero after them. A number that is no status of verity.h is
/// said to be unknown. The length is that of the words alone; up to 63 bytes.
///
/// The status that is answered is 0, or that of `Length` (the buffer has no room for words and zero). Then buffer and
/// length stay as they were.
#[unsafe(no_mangle)]
pub extern "C" fn verity_status_text(status: i32, text: &mut [u8], length: &mut usize) -> i32
    ensures status { result ≡ status_of (with_text (text_of_status status) text.old) }
    ensures text { text.new ≡ value_or text.old (with_text (text_of_status status) text.old) }
    ensures length { length.new ≡ value_or length.old (text_length_in (text_of_status status) text.old) }
{
    put_text(status_text(status), text, length)
}

/// A status in words.
fn status_text(status: i32) -> &'static str
    ensures { result.now ≡ text_of_status status }
{
    if status > 0 {
        return "unknown status";
    }
    let number = status.unsigned_abs();
    if number == 0 {
        return "success";
    }
    match Fault::numbered(number) {
        Some(fault) => fault.text(),
        None => "unknown status",
    }
}

/// Puts a text at the beginning of a buffer, with a zero after it, as texts of C end. The length becomes the text's.
/// With no room for both the status is that of `Length`, and buffer and length stay as they were.
pub(crate) fn put_text(text: &str, buffer: &mut [u8], length: &mut usize) -> i32
    ensures status { result ≡ status_of (with_text text.now buffer.old) }
    ensures text { buffer.new ≡ value_or buffer.old (with_text text.now buffer.old) }
    ensures length { length.new ≡ value_or length.old (text_length_in text.now buffer.old) }
{
    let count = text.len();
    if buffer.len() <= count {
        return Fault::Length.status();
    }
    buffer[..count].copy_from_slice(text.as_bytes());
    buffer[count] = 0;
    *length = count;
    DONE
}
