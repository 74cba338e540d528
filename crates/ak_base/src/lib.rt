//! The base of every layer: texts, bytes, codes, numbers and the errors that they are answered with.
//! A `Text` is UTF-8 without a zero byte, at most 1,024 bytes. A number and a code have one printed
//! form each, and the readers accept just the forms. Nothing here waits, and nothing is shared.
#![tactic(auto)]

mod app_name;
mod app_word;
mod bytes;
mod code;
mod ending;
mod error;
mod items;
mod limited;
mod limits;
mod no_memory;
mod number;
mod raw;
mod text;
mod thread;
mod trail;
mod word;

pub use app_name::{is_path, is_signature, last_part};
pub use app_word::AppWord;
pub use bytes::Bytes;
pub use code::{Code, codes_are_named, one_code_text, printed_codes_are_read};
pub use ending::{Ending, RefusalKind};
pub use error::KitError;
pub use items::Items;
pub use limited::Limited;
pub use limits::{APP_LOOPER_LIMIT, CAPACITY_LIMIT, LOOPER_LIMIT, limits_are_named};
pub use no_memory::NoMemory;
pub use number::{one_int_text, print_int, print_uint, printed_ints_are_read, read_int};
pub use raw::{RAW_LIMIT, Raw, RawFault};
pub use text::{TEXT_LIMIT, Text, TextFault};
pub use thread::{ThreadId, threads_are_named};
pub use trail::Trail;
pub use word::{WORD_LIMIT, is_word, is_word_byte};
